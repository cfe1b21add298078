//! The steps of the venue, one function each, and the market's table, which says where each duty is
//! done.
//!
//! A step is what a message, a duty or a sweep does at the one desk or in the one room that it is
//! lent. A step of the market happens in one place: a quote is accepted at its dealer's desk, and
//! posted in the room of its request by a step of its own later. Between the two stands a *duty*,
//! which the first leaves and the second does. So no step needs two places, and whoever runs them
//! (one after the other, or on threads under a lock for each place) does the same market.
//!
//! A step asks one word at most, that of the quote that it would withdraw or lift, and hands the
//! settlement on to the place. It runs over any row of words that is [`quote_word::Words`].
//!
//! ```text
//! let duties = own_dealer(&mut dealer, &mut words, 0, moment, bytes)?; // a quote: Post follows
//! let duties = do_post(&mut room, at, 0, offer, moment)?; // Relay follows
//! let duties = do_relay(&mut investor, at.n, &offer, moment)?; // nothing follows
//! let duties = own_investor(&mut investor, moment, bytes)?; // a hit of it: Hit follows
//! let duties = do_hit(&mut room, &mut words, at, response, 0, moment)?; // Answer, then each Tell
//! ```
//!
//! # The market's table
//!
//! A duty stands in the queue of the actor that caused it. It names neither that actor, nor the word
//! of a quote, nor the name of a dealer. [`placed`] works them out, of the configuration alone, and
//! gives the one place that the duty is for (a dealer's desk, an investor's desk, a room) with what
//! comes there. [`swept`] does the same for a sweep. Nothing comes to a place that the venue does not
//! have, from a firm that is no dealer where one has to act, or of a quote without a word.
//!
//! ```text
//! let arrival = placed(&config, Actor::Firm(1), duty)?; // a post of DLR2's second quote
//! // Placement::Room(room, ForRoom::Post(1, offer, moment)), offer.word == 5
//! ```
//!
//! Whoever runs a day takes the place that is named, by its index or by its lock, and brings it what
//! comes. No other code says what a duty does: some reads a part of one, as its kind, its moment or
//! its place, and `investor_dues` reads what comes to one investor for it, which is proved to be
//! what [`placed`] gives. [`bring_to_dealer`], [`bring_to_investor`] and [`bring_to_room`] do the
//! step that has the name of what comes. A drop and a hit ask a word, so whoever has the words brings
//! them, by [`do_drop`] and [`do_hit`].
//!
//! # What is promised
//!
//! - Each step adds the one event of its name at the place that it is lent, or none where its
//!   condition does not hold: a room that was shown before is not shown again, one that is not
//!   vacant not opened, a dealer that is not named not heard, a word beyond the row not asked, an
//!   investor not told of a request that was not accepted. Then nothing changes and no duty
//!   follows.
//! - It asks one word at most, and what it does is by the settlement of that word.
//! - The duties that follow, in their order, are those of `specs/DealerSteps`,
//!   `specs/InvestorSteps` and `specs/RoomSteps`, which say them for each step from the place as it
//!   was. They are nine at most.
//! - After [`Memory`](fix_fields::Memory) the place is as before. A step that asks a word has then
//!   asked it: [`own_dealer`], [`do_drop`] and [`do_hit`] say so.
#![tactic(auto)]

mod actors;
mod arrivals;
mod bringing;
mod dealers;
mod ends;
mod investors;
mod quote_words;
mod rooms;
mod table;
mod words;

pub use actors::Actor;
pub use arrivals::{
    FirmNumber, ForDealer, ForInvestor, ForRoom, Placement, QuoteNumber, RequestNumber, WordNumber,
};
pub use bringing::{bring_to_dealer, bring_to_investor, bring_to_room};
pub use dealers::{do_drop, do_show, do_tell, own_dealer};
pub use ends::{close_for, do_expire, do_hit, do_pass};
pub use investors::{do_answer, do_close, do_declined, do_gone, do_relay, own_investor};
pub use quote_words::words_of;
pub use rooms::{do_decline, do_open, do_post, do_ready, do_unpost};
pub use table::{placed, swept};

/// The duties that follow from a step, in their order: at most 9, those of a hit that awards a
/// request of eight dealers. Room for them is made before the step changes its place, so that a
/// step whose memory is refused changes nothing.
pub type Duties = Vec<market_terms::Duty>;
