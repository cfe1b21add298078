//! Cases as lines of text: what drives a place by calls, and what runs a file of them.
//!
//! ```text
//! # A quote that answers nothing.
//! place commands
//!
//! let <a> 48=BONDA0000001|22=4
//!
//! block ONE_DEALER
//! < date 20250314
//! < dealer DLR1 4 2000000 T1
//!
//! case nothing shown
//! << ONE_DEALER
//! < say T1 09:00:10 S 117=a1|131=R1|<a>|133=99.5
//! run alone
//! > 0
//! > DLR1 1 09:00:10.000 AI 131=R1|117=a1|297=5|300=99
//! ```
//!
//! - A line that begins with `#` says nothing. An empty line ends a block or a case.
//! - `place NAME` stands first, and once: [`CaseFile::of`].
//! - `let NAME TEXT`: in the lines below, TEXT stands wherever NAME does.
//! - `block NAME`: a line `<< NAME` in a case or a block below stands for the lines of it.
//! - `case NAME`: its calls, each with the lines of its answer below it, each behind `> `; `>` alone
//!   is an empty line.
//!
//! A [`Place`] makes the calls, one by one, and is made anew for each case: [`CaseFile::run`]. `repeat
//! FROM TO CALL` makes CALL once for each number from FROM to TO, which stands in it for `<n>`, and
//! answers what the last one answers. A case has passed where each call answered exactly the lines
//! that stand below it. A call that could not be made is never one that passed, nor one with a word
//! more than its place reads.
#![tactic(auto)]

mod answers;
mod bytes;
mod call;
mod expanded;
mod faults;
mod file;
mod frames;
mod place;
mod report;
mod running;
mod terms;
mod venue;
mod words;

pub use answers::{push_bytes_line, push_line, push_truth};
pub use bytes::{bytes_of, piped_bytes_of, push_bytes, push_text};
pub use call::Call;
pub use faults::CaseFault;
pub use file::CaseFile;
pub use frames::{check_sum_of, day, frame_of, stream_fault_name};
pub use place::Place;
pub use report::Report;
pub use running::{Running, Step};
pub use terms::{
    ask_of, band_of, bond_of, close_of, name_of, price_of, quantity_of, refusal_of, side_of,
};
pub use venue::VENUE;
pub use words::Words;
