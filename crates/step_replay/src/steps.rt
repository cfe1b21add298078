//! The steps of a venue's day.
use fix_fields::Moment;
use market_terms::RoomRef;
use quote_messages::Message;
use venue_steps::Actor;

/// How many turns of its actor stand behind a step in a day whose steps are answered as they come.
/// No step leaves as many duties.
pub const MOST_TURNS_BEHIND: u64 = u64::MAX;

/// One step of the venue. It changes one desk or one room, and asks the word of at most one quote.
#[derive(Drop)]
pub enum Step {
    /// A message of the firm with this number comes to its desk, at this moment.
    In(u16, Moment, Message),
    /// The actor does the oldest of its duties; where it has none, nothing happens.
    Turn(Actor),
    /// The clock sweeps a room, at this moment: an open room ends where its deadline has come.
    Expire(RoomRef, Moment),
}
