//! The due text of an investor: what it sees of a venue and what is due to it, line by line; and
//! what the program prints of it.
//!
//! [`alone_command_text`] goes the whole way, from the bytes of due text, an investor's or a
//! dealer's, to the lines of every message that the firm is sent:
//!
//! ```ignore
//! let input = b"date 20250314\ninvestor INV1 3 2 5000000 T8\n..";
//! let text = alone_command_text(alloc, false, input)?;
//! ```
//!
//! # What is promised
//!
//! - [`read_investor_text`] is `investor_text_of`, and [`investor_text`] writes the lines of their
//!   definitions, byte by byte. [`what_was_due_to_an_investor_is_read_back`]: a list that is written
//!   so is read as that list.
//! - [`alone_command_text`]: the text is that of the investor view of what the input spells, or of
//!   the dealer view of a dealer's; each fault is the first of the input, by a total function of
//!   its bytes.
//! - [`investor_due_text`] and [`investor_compare_text`]: what was due to the investor that is
//!   named, by the day that the input spells, and how two such days differ for it.
//! - [`InvestorDay`] takes the lines of a day that comes line by line, and at its end gives the due
//!   text of its investor; [`investors_compared_text`] tells how two differ. A [`SoughtDay`] is one
//!   of these or one of `venue_text`, by what is [`Sought`].
#![tactic(auto)]

mod alone_command;
mod asked_days;
mod compare_command;
mod due_command;
mod investor_lines;
mod item_lines;
mod line_days;
mod noted_command;
mod read_back;
mod same_market;
mod sought_days;
mod text_reading;
mod text_writing;

pub use alone_command::alone_command_text;
pub use compare_command::investor_compare_text;
pub use due_command::investor_due_text;
pub use line_days::{InvestorDay, LineFault, investors_compared_text};
pub use noted_command::noted_alone_command_text;
pub use read_back::what_was_due_to_an_investor_is_read_back;
pub use sought_days::{Sought, SoughtDay, Whom};
pub use text_reading::{InvestorText, is_investors, read_investor_text};
pub use text_writing::investor_text;
