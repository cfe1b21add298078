//! The places that the libraries of drivers drive.
use case_lines::{CaseFault, CaseFile, Report};

/// Runs the cases of a file at its place, if one of the libraries has it.
pub(crate) fn run_place(file: &CaseFile<'_>, report: &mut Report) -> Result<(), CaseFault> {
    if text_cases::run_place(file, report)? {
        return Ok(());
    }
    if !place_cases::run_place(file, report)? {
        report.refuse(file.place(), "no such place")?;
    }
    Ok(())
}
