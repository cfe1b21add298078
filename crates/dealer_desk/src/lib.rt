//! The desk of one dealer of a blind multi-dealer RFQ venue: it shows the dealer requests for
//! quotes, receives the dealer's messages, and tells the dealer how each request ended.
//!
//! A desk sees nothing but its own dealer's row of the configuration and the events that come to
//! it, and what it sends is a function of these. So whatever other dealers and investors do reaches
//! the dealer only through the requests that it is shown, the words of its own quotes and its
//! closing notices.
//!
//! # Example
//!
//! ```text
//! let mut desk = DealerDesk::new(alloc, date, row)?;
//! // The dealer is shown the request `R1`.
//! let number = desk.show(room, ask, nine_o_clock)?;
//! // A message of the dealer's own, as it came. It is judged once; where it would replace or
//! // cancel a quote, that quote's word is asked.
//! let verdict = desk.judge(ten_past_nine, bytes);
//! let settlement = match verdict.word_asked() {
//!     Some(quote) => Some(words.withdraw(first_word + quote - 1)),
//!     None => None,
//! };
//! // What is left to be done: a post, an unpost or a decline in the room of the request, the first
//! // drop of a cancel of all quotes, or nothing.
//! let duty = desk.receive_judged(ten_past_nine, bytes, verdict, settlement)?;
//! // The request ended.
//! let told = desk.tell(room, Close::Hit, half_past_nine)?;
//! for message in desk.sent() {
//!     send(message.as_bytes());
//! }
//! ```
//!
//! # What is promised
//!
//! - [`DealerDesk::take`] (or, of a message that was judged, [`DealerDesk::receive_judged`]),
//!   [`DealerDesk::show`] and [`DealerDesk::drop_one`] add one event to [`DealerDesk::events`] and
//!   change nothing else; [`DealerDesk::tell`] adds one, or returns
//!   false and changes nothing. Where memory is refused they change nothing at all.
//! - [`DealerDesk::sent`] is `dealer_output` of the day, the row and the events: one definition,
//!   which says for each event which message it adds, byte by byte. MsgSeqNum (34) counts the
//!   messages that this dealer was sent, QuoteReqID (131) the requests that it was shown, and
//!   QuoteRespID (693) its closing notices.
//! - [`DealerDesk::notes`] is `dealer_notes` of the same: beside each message that refuses one of the
//!   dealer's own the name of the line that refuses, and beside each notice of a hit the investor.
//! - [`DealerDesk::judge`] is the verdict on a message: bytes that are no frame, or have no
//!   readable MsgSeqNum (34), are dropped; a message out of sequence and a session fault are
//!   answered by a Reject; a Quote, a cancel or a decline is refused for the first of the market's
//!   checks that it meets, in the order of `quote_checks`, `cancel_checks` and `decline_checks`,
//!   and is accepted exactly where it meets none; a replacement and a cancel are decided by the
//!   quote's word in the end.
//! - [`DealerDesk::question`] is the quote whose word a message asks, one of the dealer's own, and
//!   the duty that [`DealerDesk::take`] gives is `verdict_duty`: that of the definitions and no
//!   other. [`DealerDesk::question_drop`] and [`DealerDesk::drop_one`] are the same of the drops of
//!   a cancel of all quotes.
//! - [`DealerDesk::exposure`] is the sum of the quantities of the dealer's live quotes and never
//!   above the limit of its row, through replacement, cancel, drop and closing.
//! - [`DealerDesk::lines`] has a line of the blotter for each accepted quote.
//!
//! Each call returns, and fails for nothing but memory. The desk keeps an index of what stands, so
//! what a message costs does not grow with the day, but for the logarithm of a map.
#![tactic(auto)]

mod accepted;
mod answers;
mod cancels;
mod desks;
mod drops;
mod events;
mod id_keys;
mod index;
mod laws;
mod notes;
mod outcomes;
mod refusals;
mod rules;
mod sending;
mod standing;
mod table;
mod verdicts;

pub use accepted::AcceptedQuote;
pub use desks::DealerDesk;
pub use events::DealerEvent;
pub use laws::{
    a_settlement_unasked_changes_nothing, each_message_has_its_note, facts_after_one_event_more,
    facts_say_how_words_were_settled, limits_are_kept, no_dealer_verdict_asks_a_price,
    quotes_stand_as_their_words_were_settled, the_same_facts_have_the_same_notes,
    what_is_asked_is_of_the_day, what_is_left_is_of_the_day, words_are_asked_event_by_event,
};
pub use notes::DealerNote;
pub use refusals::{CancelRefusal, DealerRefusal, DeclineRefusal, QuoteRefusal};
pub use standing::{QuoteEnd, StandingQuote, StandingRequest, Withdrawal};
pub use verdicts::DealerVerdict;
