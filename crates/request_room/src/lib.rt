//! The room of one request of a blind multi-dealer RFQ venue: where the quotes of its dealers stand
//! until the investor hits one of them, passes, or the deadline comes.
//!
//! A room is vacant until it is opened, then opening until each named dealer was shown the request,
//! then open, and ended for good once it was awarded, passed or expired. It sees nothing but what
//! is tried on it. It holds no word: where a hit asks the word of a quote, the room is handed the
//! settlement.
//!
//! # Example
//!
//! ```
//! let mut room = Room::vacant(alloc);
//! room.open(ask, AskedDealers::new(&[0, 1, 2])?)?;
//! room.post(0, first_word, price, None)?;
//! room.ready()?;
//! // The investor hits a quote. Where nothing speaks against it, its word is asked, by a lift.
//! let settlement = match room.question_hit(first_word, ten_past_nine) {
//!     Ok(w) => Some(words.lift(w)),
//!     Err(_) => None,
//! };
//! let reply = room.hit(first_word, ten_past_nine, settlement)?;
//! if let Some(End { kind: EndKind::Awarded, winner, cover }) = room.end() {
//!     ..
//! }
//! ```
//!
//! # What is promised
//!
//! - Each call that changes a room, or tries to, adds one event to [`Room::events`] and changes
//!   nothing else. What a room replies is a function of its events, `room_after`: the facts that
//!   stand. Where memory is refused a call changes nothing at all.
//! - [`Room::post`], [`Room::unpost`], [`Room::decline`], [`Room::pass`] and [`Room::expire`] say
//!   whether they took effect. The first three do in an opening and in an open room, an unpost only
//!   where that quote stands; a pass does in an open room, an expiry in an open room from the
//!   deadline on.
//! - The book is, for each dealer, its last posted quote, and none where that was unposted later.
//! - [`Room::question_hit`] gives the word that a hit asks, or the first of four refusals whose
//!   condition holds. [`Room::hit`] awards the request exactly where none of them holds and the
//!   word is lifted.
//! - A room that has ended changes no more, whatever is tried on it
//!   ([`an_ended_room_changes_no_more`]). It ends once at most, and is awarded once at most
//!   ([`a_room_ends_once`]).
//! - The cover is the best of the other dealers' quotes in the book, of equal prices the earlier
//!   posted. There is one exactly where another dealer's quote stands
//!   ([`the_cover_is_the_best_other_quote`]).
//! - Only an award has a winner, and a cover is another dealer ([`only_an_award_has_a_winner`]).
//!   The winner's word was hit and settled lifted ([`an_awarded_word_was_lifted`]).
//!
//! - The facts after one event more are those before and what `event_facts` says of it
//!   ([`facts_after_one_event_more`]).
//! - The book has one quote of a dealer at most ([`a_dealer_has_one_quote`]), so eight at most.
//!
//! Each call returns, and fails for nothing but memory. The room keeps its book best first, so that
//! the cover is the first quote of another dealer.
#![tactic(auto)]

mod book;
mod ends;
mod events;
mod hits;
mod laws;
mod quotes;
mod requests;
mod rooms;

pub use ends::{End, EndKind};
pub use events::RoomEvent;
pub use laws::{
    a_dealer_has_one_quote, a_room_ends_once, an_awarded_word_was_lifted,
    an_ended_room_changes_no_more, facts_after_one_event_more, no_step_asks_a_price,
    only_an_award_has_a_winner, the_cover_is_the_best_other_quote,
};
pub use quotes::PostedQuote;
pub use requests::{KeptRequest, RoomRequest};
pub use rooms::Room;
