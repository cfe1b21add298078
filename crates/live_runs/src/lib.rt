//! The runs that take a day line by line, `live` and those with `--live`; and what every run reads
//! of standard input, prints to standard output and tells on standard error.
//!
//! ```text
//! let status = run_live(alloc, LineForm::Answered(form), b"", &mut input, &mut out, &mut err);
//! ```
//!
//! # What is promised
//!
//! - [`run_live`]: with status 0 all lines of the input were answered, and nothing else was
//!   printed; with status 1 whole lines from its front, and then one fault, which is true of it.
//!   The pieces in which the input comes make no difference (`EndsInLive` of `specs/LiveRuns`).
//! - [`read_input`] reads all of an input, unless it is longer than one may be.
//! - [`print_text`], [`print_long`] and [`write_text`] write a text as a whole, or a front of it
//!   where the writer refuses; [`report`] tells a fault in its line.
#![tactic(auto)]

mod input;
mod line_forms;
mod live;
mod output;
mod stages;

pub use input::read_input;
pub use line_forms::LineForm;
pub use live::{MOST_LINES, run_live};
pub use output::{print_long, print_text, report, write_text};
