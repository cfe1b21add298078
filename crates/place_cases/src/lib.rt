//! The places of the venue, and days in parts, driven by lines of text: a line is a call, and its answer
//! is lines.
//!
//! | place | what it drives |
//! |---|---|
//! | `request_room` | the room of a request, vacant before the first call |
//! | `plain_words` | a row of words in a list |
//! | `board` | a board of words, with its tokens and receipts under names |
//! | `venue_steps` | each step, over the desks of DLR1, DLR2 and INV1, a room, and a row or a board |
//! | `replay` | the faults of `run` and `due` of `step_replay` |
//! | `view` | `alone` on a list of any items |
//! | `record` | a `DayRecord` that is made by lines, and `weave` |
//! | `inbox` | `inbox_of` of `day_checks` |
//! | `faults` | the lines that tell the faults of `input_lines` |
//!
//! The calls of each stand in the table of its module: of the last five in those of `days`. A call
//! makes one call of the place, and answers what the place answers: `yes` or `no` where that is
//! whether it took effect, and a refusal by its name. What a call requires is tested first, and a call
//! that may not be made is a fault of its case.
//!
//! What a step leaves to be done is a line: `open`, `hit` and so on, its moment, its room, and what
//! else it bears.
#![tactic(auto)]

mod board;
mod days;
mod duties;
mod events;
mod floor;
mod places;
mod replies;
mod room;
mod row;
mod steps;
mod terms;

pub use places::run_place;
