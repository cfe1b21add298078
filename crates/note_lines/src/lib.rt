//! What a desk notes beside a message, as the line behind it.
//!
//! ```text
//! why DLR1 3 Closed
//! trade INV1 5 20250314-INV1-DLR1-1
//! ```
//!
//! # Example
//!
//! ```ignore
//! let number = number_in(&message.frame());
//! push_dealer_note(&mut text, &date, &row.name, desk.notes(), number)?;
//! ```
//!
//! # What is promised
//!
//! - [`push_dealer_note`] and [`push_investor_note`] put the line of the definition (`NoteLines`)
//!   behind a text, or nothing where nothing is noted, for every list of notes and every number;
//!   only memory can be refused. A trade has a number that counts the trades with the same firm up
//!   to its message.
#![tactic(auto)]

mod counts;
mod dealers;
mod investors;
mod numbers;
mod written;

pub use dealers::push_dealer_note;
pub use investors::push_investor_note;
pub use numbers::number_in;
pub use written::Pushed;
