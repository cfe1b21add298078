//! Laws of due text: that it can say every day of a dealer and of an investor, and that what is read
//! of it is that day.
//!
//! Due text can't say every value of its types, so the law by which it is read back
//! ([`what_was_due_is_read_back`](venue_text::what_was_due_is_read_back)) supposes that a list can
//! be said. Of a day that lines spell each list can:
//!
//! - [`messages_have_bytes`]: no line spells a message without a byte.
//! - [`what_is_due_can_be_said`]: where each message has a byte, each investor that asks has the
//!   name of a firm, and no request and no quote has a number of more than nine digits.
//! - [`what_is_due_to_an_investor_can_be_said`]: so it is with an investor's list, and each dealer
//!   that quotes or declines has the name of a firm. So it is read back as it was written, by
//!   [`what_was_due_to_an_investor_is_read_back`](investor_texts).
//! - [`alone_prints_what_replay_prints`]: the text that `due` prints of a dealer is read as its
//!   date, its row and what was due to it, and `alone` makes of it what `replay` prints of the
//!   dealer's day.
//!
//! No code stands on this crate.
#![tactic(auto)]

mod investors;
mod read_again;
mod sayable;

pub use investors::what_is_due_to_an_investor_can_be_said;
pub use read_again::alone_prints_what_replay_prints;
pub use sayable::{messages_have_bytes, what_is_due_can_be_said};
