//! The session layer of a blind multi-dealer RFQ venue, for both roles: what becomes of bytes that
//! came from a firm, what its messages say, and the frame of each message that a firm is sent.
//!
//! A dealer sends a Quote (35=S), a QuoteCancel (35=Z) and a QuoteRequestReject (35=AG), by which
//! it declines a request; an investor sends a QuoteRequest (35=R) and a QuoteResponse (35=AJ),
//! which hits a quote or passes a request. What the venue answers is a decision of the market and
//! is not made here: a desk makes it, as an [`OutMessage`], and this crate writes it. The terms of
//! `market_terms` that a message or a desk speaks of are given out here again.
//!
//! # Example
//!
//! ```
//! let answer = match receive_dealer(&date, &row, expected, bytes) {
//!     Arrival::Dropped => return,
//!     Arrival::OutOfSequence(reject) | Arrival::Rejected(reject) => OutMessage::Reject(reject),
//!     Arrival::Taken(DealerMessage::Quote(quote)) => ..,
//!     ..
//! };
//! let message = write_out(alloc, &head, &answer)?;
//! send(message.as_bytes());
//! ```
//!
//! # What is promised
//!
//! - [`receive_dealer`] and [`receive_investor`] are `dealer_arrival` and `investor_arrival`: bytes
//!   that are no frame, or have no readable MsgSeqNum (34), are dropped; another number than the
//!   expected one is out of sequence; the rest used up its number, and is rejected for its first
//!   session fault or taken.
//! - [`read_dealer`] and [`read_investor`] are the session's verdict on the frame's fields, by the
//!   day and the firm's row: the first fault in the order of the tables of `SessionChecks`, or the
//!   message, each field absent or as its form reads it. Nothing else of the message matters: not
//!   the order of its fields, but for the party group, and no field that the tables lack.
//! - A price out of range or off the grid is no fault of the session: the [`Quote`] carries it as
//!   it is.
//! - [`NamedDealers`] are the dealers that a request names, in their order.
//! - [`write_out`] is `written`: the frame of the fields of that message, in their order, for the
//!   head's firm, number and moment. It fails for nothing but memory. A [`SentMessage`] is a frame
//!   by its type.
//! - A closing notice bears a QuoteID (117) and a price only where the dealer's own quote was hit,
//!   whatever its [`ClosingNotice::quote`] is.
//! - An [`Id`], an [`IdBuf`], a [`SeqNum`], a [`MsgType`] and a [`Quantity`] are never anything but
//!   what their forms allow, so what is written of them needs no check.
//!
//! Only [`expected_number`] and what takes a frame that is not tested again
//! ([`receive_dealer_frame`], [`FirmMessage::of_frame`]) have a condition, each call returns, and
//! only [`write_out`], [`Message::copy_of`] and [`FirmMessage::copy_of`] take memory.
#![tactic(auto)]

mod arrivals;
mod characters;
mod dealer_checks;
mod dealer_writing;
mod field_writing;
mod firm_messages;
mod header;
mod investor_checks;
mod investor_writing;
mod messages;
mod numbers;
mod out_messages;
mod parties;
mod party_group;
mod quantities;
mod quotes;
mod received;
mod reject_reasons;
mod requests;
mod sent_messages;
mod session_faults;
mod slots;
mod tag_reading;
mod writing;

pub use arrivals::{
    Arrival, expected_number, receive_dealer, receive_dealer_frame, receive_investor,
};
pub use dealer_checks::read_dealer;
pub use firm_messages::FirmMessage;
pub use investor_checks::read_investor;
pub use market_terms::{
    Ask, AskedDealers, Close, Duty, HitRefusal, Id, IdBuf, Offer, Quantity, QuoteLine, QuoteState,
    Reply, RequestLine, RequestState, ResponseRef, RoomRef, Side,
};
pub use messages::Message;
pub use numbers::{read_long_number, read_number};
pub use out_messages::{
    CancelStatus, ClosingNotice, Head, OfferedQuote, OutMessage, PassStatus, QuotedPrice, Reject,
    Request,
};
pub use parties::NamedDealers;
pub use quantities::read_quantity;
pub use quotes::{CancelScope, DealerMessage, Decline, Quote, QuoteCancel};
pub use received::{MsgType, SeqNum};
pub use reject_reasons::{QuoteRejectReason, RequestRejectReason};
pub use requests::{InvestorMessage, QuoteHit, QuoteRequest, RequestPass};
pub use sent_messages::SentMessage;
pub use session_faults::{SessionFault, SessionRejectReason};
pub use writing::write_out;
