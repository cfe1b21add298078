//! What is checked of a recorded day: that each desk had its own messages, that what one place left
//! came to another, and that each event is that of an action. It compares lists, and names no lock,
//! thread or board.
//!
//! ```ignore
//! let record = agreed(alloc, &config, dealers, investors, rooms, clock, sweeps)?; // or the first fault
//! ```
//!
//! # What is promised
//!
//! - [`agreed`]: the record of a day that was joined, or its first fault ([`DayFault`]). Each dealer
//!   was shown the requests that name it, as they were asked, and told how they ended; the quotes
//!   that took effect in a room came to its investor as they were posted, and so did the room's
//!   replies, each for the response of its message; each room was swept as the clock was told; each
//!   event is that of an action at its desk or in its room (`Agrees`, `IsFirstOf` of
//!   `specs/DayFaults`).
//! - [`is_inbox_of_dealer`], [`is_inbox_of_investor`], [`are_answered`]: whether a desk had its own
//!   messages, and an investor's what they left ([`response_in`]).
//! - [`checks_decide_what_is_promised`]: each of these checks finds no fault exactly where what it is
//!   for is so (`specs/DayPromises`).
//! - [`dealers_of_a_day_are_sent_their_view`] and [`dealers_are_isolated_on_threads`]: where a record
//!   keeps what `KeepsDay` of `specs/KeptDays` says, a dealer is sent what follows from its own row
//!   and what was due to it, whatever else the other firms did.
//! - [`inbox_of`]: the messages of a firm's stream, in whatever pieces they came, and the fault of
//!   the stream (`arrivals_of` of `specs/Inbox`).
#![tactic(auto)]

mod answered_responses;
mod arrivals;
mod day_actions;
mod day_rooms;
mod desk_checks;
mod faults;
mod inbox;
mod joined_days;
mod laws;
mod left_responses;
mod notices;
mod place_events;
mod relayed_quotes;
mod room_outputs;
mod shown_checks;
mod shown_rooms;
mod swept_rooms;
mod told_rooms;

pub use day_actions::firm_number;
pub use day_rooms::DayRoom;
pub use desk_checks::{is_inbox_of_dealer, is_inbox_of_investor};
pub use faults::DayFault;
pub use inbox::inbox_of;
pub use joined_days::agreed;
pub use laws::{
    checks_decide_what_is_promised, dealers_are_isolated_on_threads,
    dealers_of_a_day_are_sent_their_view,
};
pub use left_responses::{LeftResponse, are_answered, response_in};
