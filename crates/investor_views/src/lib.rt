//! What is due to an investor in a day of the venue, and what it is sent for that, the *investor
//! view*.
//!
//! An investor learns six things of a day, in some order: its own messages come, quotes come,
//! quotes are taken back, dealers decline, its hits and passes are answered, and its requests
//! expire. A list of these is what is [`InvestorDue`] to it (`due_to_investor`): it is read off the
//! events at the investor's desk, as its trail has them (`step_replay`). The *investor
//! view* of the list is every message that the investor is sent for it (`investor_view`). It takes
//! the market that the investor sees, that is the day, its own row, the bonds with their grids and
//! the names of the dealers, and the list; nothing else of the venue goes into it.
//!
//! # What is promised
//!
//! - [`investors_are_sent_their_view`]: what an investor was sent is the investor view of what was
//!   due to it, after every list of steps of every venue.
//! - [`investors_are_isolated`]: so two venues in which an investor sees one market, and one list
//!   was due to it, sent it the same bytes.
//! - [`investors_are_given_their_view`]: so is what a replay gives of an investor's day, and what a
//!   venue sends it that answers as steps come.
//! - [`investors_are_noted_their_view`]: what is noted beside its messages, why a request is refused
//!   and whom it traded with, follows from the same list (`note_view`), and [`notes_are_isolated`]:
//!   so two such venues note the same.
//! - [`desks_send_their_view`]: of any events at a desk, whatever brought them, what it sends is the
//!   *desk view* of what was due by them, which takes each item as it stands.
#![tactic(auto)]

mod desk_laws;
mod dues;
mod laws;
mod note_laws;

pub use desk_laws::desks_send_their_view;
pub use dues::{InvestorDue, OfferNumber, OwnRequest};
pub use laws::{
    investors_are_given_their_view, investors_are_isolated, investors_are_sent_their_view,
};
pub use note_laws::{investors_are_noted_their_view, notes_are_isolated};
