//! The places of days in parts by their names.
use super::faults::Faults;
use super::inboxes::Inboxes;
use super::records::Records;
use super::replays::Replays;
use super::views::Views;
use case_lines::{CaseFault, CaseFile, Report};

/// Runs the cases of a file at its place, if it is one of a day in parts. It answers whether it is.
pub(crate) fn run_place(file: &CaseFile<'_>, report: &mut Report) -> Result<bool, CaseFault> {
    match file.place() {
        "replay" => file.run(Replays::new, report),
        "view" => file.run(Views::new, report),
        "record" => file.run(Records::new, report),
        "inbox" => file.run(Inboxes::new, report),
        "faults" => file.run(Faults::new, report),
        _ => Ok(false),
    }
}
