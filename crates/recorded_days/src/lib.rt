//! A recorded day: what a venue that runs on threads leaves of its day, and what was due to a dealer
//! by that.
//!
//! A [`DayRecord`] has what each firm was sent, the events at every desk and in every room with the
//! order in which they came, and what each actor did.
//!
//! ```ignore
//! let dues = record.due(alloc, &config, dealer)?; // what was due to a dealer
//! ```
//!
//! # What is promised
//!
//! - [`DayRecord::due`] is what was due to a dealer by the events at its desk, and
//!   [`recorded_dealers_are_sent_their_view`] the law that what its desk sent is the dealer view of
//!   that. [`events_are_settled_one_by_one`] says how a premise of it is kept event by event.
#![tactic(auto)]

mod actions;
mod day_dues;
mod records;

pub use actions::{Action, Inbound, Kind, Sweep, moment_of};
pub use day_dues::{events_are_settled_one_by_one, recorded_dealers_are_sent_their_view};
pub use records::{DayRecord, DealerDay, InvestorDay, RoomDay};
