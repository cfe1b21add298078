//! The desk of one investor of a blind multi-dealer RFQ venue: its requests, the quotes that it is
//! shown, its hits and passes, and every message that it is sent.
//!
//! # Example
//!
//! ```
//! let mut desk = InvestorDesk::new(alloc, &config, firm)?;
//! if let Some(duty) = desk.take(moment, bytes)? {
//!     // a room is to be opened, or a hit or a pass goes to its room
//! }
//! desk.quote_came(n, &offer, moment)?;
//! desk.answered(n, &response, Reply::Awarded, moment)?;
//! for message in desk.sent() {
//!     send(message.as_bytes());
//! }
//! ```
//!
//! # What is promised
//!
//! - Each call adds one event, or returns an error and changes nothing. What was sent is
//!   `investor_output` of the events: nothing else goes into it but the day, the bonds, the names
//!   of the dealers, and the investor's own number and row. Beside each message stands what the
//!   desk notes of it, `investor_notes` of the same events: why a request is refused, or whom the
//!   investor traded with.
//! - What a message leaves is to be done in a room of the investor's own, of a request of the
//!   day, and a request that is opened names 1 to 8 dealers of the venue, none of them twice.
//! - No more requests are accepted in a day than the row allows, and no more of them are open.
//!
//! No call but [`InvestorDesk::new`] and [`InvestorDesk::of_seen`] has a condition: a call about a
//! request that was not accepted adds its event and changes nothing else.
#![tactic(auto)]

mod answers;
mod desks;
mod events;
mod index;
mod laws;
mod market;
mod notes;
mod outcomes;
mod refusals;
mod rules;
mod sending;
mod standing;
mod verdicts;

pub use desks::InvestorDesk;
pub use events::{InvestorEvent, KeptResponse};
pub use laws::{
    a_note_is_of_the_last_fact, each_message_has_its_note, facts_after_one_event_more,
    limits_are_kept, no_investor_verdict_asks_a_price, what_is_left_is_of_the_day,
};
pub use notes::InvestorNote;
pub use refusals::RequestRefusal;
pub use standing::{AcceptedRequest, RequestClose, ShownOffer};
pub use verdicts::InvestorVerdict;
