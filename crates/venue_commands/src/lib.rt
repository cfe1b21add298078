//! The commands of a blind multi-dealer RFQ venue for bonds: `alone`, `replay`, `day`, `live`,
//! `due`, `dues`, `compare` and `blotter`.
//!
//! `replay` reads a day of the venue, a configuration and the steps of the day, and prints every
//! message that the venue sends; `day` runs one on threads, and `live` answers one line by line as
//! it comes; `due` prints what was due to one firm, a dealer or an investor, `dues` what was due to
//! each dealer, and `blotter` a firm's blotter; `compare` reads two days and says where they differ
//! for one firm. `alone` reads one firm's day, called due text, and prints every message that the
//! venue sends to that firm.
//!
//! Here is which run the arguments bring about, and how it ends; the arguments themselves are in
//! `command_arguments`, `live`, `--live` and the streams in `live_runs`, what lines spell in
//! `input_lines`, what is printed in `venue_text` and `investor_texts`, what firms are sent in
//! `step_replay`. The program is `rfq_venue`.
//!
//! # What is promised
//!
//! - [`run_program`]: nothing is printed before the whole input is read (`live` alone prints as it
//!   reads) and, where it is not taken line by line, found lawful; and then the command's text as
//!   `venue_text` and `investor_texts` have it. Each fault of an input is its first, by a total
//!   function of its bytes, and one of a day on threads is true of a day that the input spells (of
//!   `day: Inbox` proved is no more than that the venue has a firm). Arguments that are no command
//!   print a help, or nothing but why they are wrong.
//!   [`these_arguments_are_commands`] and [`arguments_have_these_faults`] say which are which.
//!   [`inputs_have_these_limits`] says each limit of an input as a number.
//! - [`run_process`]: the exit status of the process is that of its run, and an argument that is no
//!   UTF-8 is a wrong one.
#![tactic(auto)]

mod days;
mod limits;
mod process;
mod program;
mod texts;

pub use command_arguments::{arguments_have_these_faults, these_arguments_are_commands};
pub use limits::inputs_have_these_limits;
pub use live_runs::MOST_LINES;
pub use process::{ArgumentFault, process_arguments, run_process};
pub use program::run_program;
