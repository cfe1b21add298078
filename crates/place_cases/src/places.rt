//! The places of this crate by their names.
use crate::board::BoardPlace;
use crate::days;
use crate::room::RoomPlace;
use crate::row::RowPlace;
use crate::steps::StepPlace;
use case_lines::{CaseFault, CaseFile, Report};

/// Runs the cases of a file at its place. It answers whether this crate has the place.
pub fn run_place(file: &CaseFile<'_>, report: &mut Report) -> Result<bool, CaseFault> {
    match file.place() {
        "request_room" => file.run(RoomPlace::new, report),
        "plain_words" => file.run(RowPlace::new, report),
        "board" => file.run(BoardPlace::new, report),
        "venue_steps" => file.run(StepPlace::new, report),
        _ => days::run_place(file, report),
    }
}
