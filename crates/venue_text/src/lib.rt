//! The texts that the program prints, exactly, of what the lines of its input spell.
//!
//! Messages are printed a line each, as their fields or as whole frames. [`alone_text`] goes the
//! whole way, from the bytes of due text to the lines of every message that the dealer is sent:
//!
//! ```ignore
//! let text = alone_text(alloc, false, b"date 20250314\ndealer DLR1 4 10000000 T1\n..")?;
//! ```
//!
//! # What is promised
//!
//! - [`alone_text`]: the text is that of the dealer view of what the input spells; each fault is
//!   the first of the input, by a total function of its bytes (`first_fault`). With
//!   [`noted_alone_text`] behind each message stands the line of what the desk notes beside it.
//! - [`LiveDay`] takes a day line by line: the output of each is exactly the messages that the
//!   line's steps bring, each with the line of what its desk notes beside it where the [`LiveForm`]
//!   has notes, and behind them the line's mark where it has marks.
//! - [`KeptDay`] takes the lines of such a day, and at its end gives what is asked for.
//!   [`a_firm_is_printed_what_live_prints_of_it`]: of a firm that is what was printed of it.
//!   [`a_dealer_is_printed_what_its_desk_notes`]: with notes, of a dealer, it is what
//!   [`noted_alone_text`] prints of what was due to it.
//! - [`what_was_due_is_read_back`]: a list that is written as due text is read as that list.
//! - [`messages_text`] and [`due_lines`] are the lines of their definitions, byte by byte.
//!
//! No call has a condition but those that say so; each returns, and only memory can be refused.
#![tactic(auto)]

mod alone_command;
mod blotter_command;
mod compare_command;
mod day_arguments;
mod due_command;
mod due_writing;
mod inboxes;
mod kept_comparison;
mod kept_days;
mod live_form;
mod live_laws;
mod live_lines;
mod live_marks;
mod live_notes;
mod long_text;
mod message_lines;
mod noted_alone;
mod noted_text;
mod read_back;
mod record_lines;
mod replay_command;
mod same_dues;

pub use alone_command::alone_text;
pub use blotter_command::blotter_command_text;
pub use compare_command::{compare_text, message_difference, sent_in, three_lines};
pub use day_arguments::AskedDay;
pub use due_command::{due_command_text, push_date_line, push_traders};
pub use due_writing::{due_lines, push_band, push_last_time, push_number, push_own, push_time};
pub use inboxes::{ArrivingDay, read_arriving_day};
pub use kept_comparison::compared_text;
pub use kept_days::{KeptDay, Wanted};
pub use live_form::LiveForm;
pub use live_laws::{
    a_dealer_is_printed_what_its_desk_notes, a_firm_is_printed_what_live_prints_of_it,
    lines_bring_the_same_however_they_come, without_marks_a_day_is_its_messages,
};
pub use live_lines::{LineOutput, LineSent, LiveDay, read_live_line};
pub use long_text::LongText;
pub use message_lines::messages_text;
pub use noted_alone::noted_alone_text;
pub use noted_text::{dealer_noted_text, investor_noted_text};
pub use read_back::what_was_due_is_read_back;
pub use record_lines::{record_text, woven_line};
pub use replay_command::replay_text;
