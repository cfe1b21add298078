//! The core of the venue: a day of the whole venue, what is due to a dealer in it, and what the
//! dealer is sent for that.
//!
//! A day is a list of [`Step`]s: messages of firms, turns at which duties are done, sweeps of rooms.
//! [`run`] replays it, and the [`World`] that it gives has what each firm was sent, and the lines of
//! its blotter. [`due`] gives what was due to a dealer:
//!
//! ```ignore
//! let world = run(alloc, &config, &steps)?;
//! let messages = world.sent(dealer);
//! let dues = due(alloc, &config, &steps, dealer)?;
//! ```
//!
//! A dealer learns five things of a day, in some order: its own messages come, it is shown
//! requests, quotes of its are lifted, it is told how requests ended, and the quotes that it
//! cancels all at once are dropped in turn. A list of these is what is [`Due`] to it. The *dealer
//! view* of the list is every message that the dealer is sent for it, and [`alone`] gives it:
//!
//! ```ignore
//! let messages = alone(alloc, &date, &row, &[Due::Shown(ask, nine), Due::Own(five_past, quote)])?;
//! assert_eq!(messages.len(), 2); // the request, and the acceptance of the quote
//! ```
//!
//! The word of a quote that a message or a drop asks is settled *lifted* where a lifting of that
//! quote that counts stands before it in the list, and else *withdrawn*. A lifting counts of a
//! quote that the dealer can have in its day and that was not withdrawn before.
//!
//! # What is promised
//!
//! - [`alone`] is `dealer_view` of the date, the dealer's row and the list, on every list, or
//!   memory is refused. The view depends on nothing else of the venue. [`alone_output`] gives beside
//!   each message what the desk notes of it, which depends on the same alone.
//! - [`equal_lists_have_equal_views`] says so of two lists, and [`equal_lists_have_equal_notes`] of
//!   what is noted.
//!
//! # The whole venue
//!
//! `audit_trail` (`specs/AuditTrail`) is what becomes so of a day: the facts at each place, the
//! duties that were left, and the turns that did one. It is a definition, and the replay is held to
//! it:
//!
//! - [`run`]: what each firm was sent, and the lines of its blotter, are those of the audit trail;
//!   [`due`]: the list is the dealer's of the audit trail. The first step that names a firm or a
//!   room that the venue does not have is the fault ([`ReplayFault`]), before any step is done; else
//!   only memory can be refused.
//!
//! - [`LiveVenue`]: a venue that answers step by step. After each step it stands as the audit trail
//!   of the steps so far, each followed by turns of its actor that leave it none, and what it gives
//!   are the messages that these added, in their order. [`LiveVenue::sweep`] is a sweep of every
//!   room, one behind the other, at the cost of those that end. At the end of the day it is the
//!   [`World`] of these steps ([`LiveVenue::into_world`]). [`LiveVenue::dealer_notes`] is what is
//!   noted beside the messages of a dealer, by what was due to it so far, and
//!   [`LiveVenue::investor_notes`] the same of an investor, by what became so at its place.
//!   [`LiveVenue::investor_events`] are the events at an investor's desk so far, of which its due
//!   list is made (`investor_views`).
//!
//! - [`SteppedVenue`]: a venue that goes step by step, each turn a step of its own. It stands as the
//!   audit trail of the steps so far, and gives the events at an investor's desk.
//!
//! What follows from the definition stands as laws:
//!
//! - [`dealers_are_sent_their_view`]: what a dealer was sent is the dealer view of what was due to
//!   it, after every list of steps of every venue.
//! - [`dealers_are_isolated`], the headline: so two venues that agree on what was due to a dealer,
//!   its row and the date sent it the same bytes.
//! - [`firms_are_sent_one_list`], [`dealers_are_given_their_view`]: what a replay gives of a firm,
//!   what it was sent by the audit trail, and what a venue sends it that answers as steps come, are
//!   one list, and of a dealer its view.
//! - [`no_quote_is_lifted_and_withdrawn`].
//! - [`sweeps_of_rooms_that_are_not_due_do_nothing`]: a sweep of a room that is not open, or whose
//!   deadline has not come, changes nothing.
//! - [`actions_do_what_comes_by_the_table`]: what a duty or a sweep does is what comes by the
//!   market's table (`venue_steps`) to the one place that it gives.
//!
//! More laws of the definition stand in the crate `laws_days`; what they need of the proofs here is
//! in `specs`, in the files named `..Lemmas`.
#![tactic(auto)]

mod deadlines;
mod dealer_actions;
mod dealer_view;
mod done;
mod due_lists;
mod dues;
mod duties;
mod faults;
mod floor;
mod hits;
mod investor_actions;
mod laws;
mod live;
mod live_notes;
mod open_rooms;
mod opening;
mod queues;
mod replay;
mod room_actions;
mod sent_to;
mod stepped;
mod steps;
mod sweep_laws;
mod world;

pub use dealer_view::{
    alone, alone_output, equal_lists_have_equal_notes, equal_lists_have_equal_views,
};
pub use dues::Due;
pub use faults::ReplayFault;
pub use laws::{
    actions_do_what_comes_by_the_table, dealers_are_given_their_view, dealers_are_isolated,
    dealers_are_sent_their_view, firms_are_sent_one_list, no_quote_is_lifted_and_withdrawn,
};
pub use live::LiveVenue;
pub use sent_to::SentTo;
pub use stepped::SteppedVenue;
pub use steps::{MOST_TURNS_BEHIND, Step};
pub use sweep_laws::sweeps_of_rooms_that_are_not_due_do_nothing;
pub use venue_steps::Actor;
pub use world::{World, due, run, run_once};
