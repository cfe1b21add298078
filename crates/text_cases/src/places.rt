//! The places of this crate by their names.

use crate::frames::FrameCases;
use crate::single_values::SingleValues;
use crate::streams::StreamCases;
use crate::writer::WriterCases;
use case_lines::{CaseFault, CaseFile, Report};
use std::alloc::Global;

/// Runs the cases of a file at its place. It answers whether this crate has the place.
pub fn run_place(file: &CaseFile<'_>, report: &mut Report) -> Result<bool, CaseFault> {
    match file.place() {
        "frames" => file.run(FrameCases::new, report),
        "frame_writer" => file.run(WriterCases::new, report),
        "streams" => file.run(StreamCases::new, report),
        _ => run_single_values(file, report),
    }
}

/// The same at a place of single values.
fn run_single_values(file: &CaseFile<'_>, report: &mut Report) -> Result<bool, CaseFault> {
    let Some(values) = SingleValues::named(file.place()) else {
        return Ok(false);
    };
    file.run(|_alloc: Global| Ok(values), report)
}
