//! A firm's day, line by line, as its blotter shows it.

use crate::{Quantity, Side};
use bond_prices::Ticks;
use fix_fields::Moment;
use venue_rows::{BondId, Name};

/// A line of a dealer's blotter: one of its accepted quotes.
#[derive(Drop)]
pub struct QuoteLine {
    /// Which of the dealer's accepted quotes it is, from 1.
    pub q: u32,
    /// The moment at which it was accepted.
    pub moment: Moment,
    /// The trader that sent it (SenderSubID 50).
    pub trader: Name,
    /// Which of the requests shown to the dealer it answers, from 1.
    pub request: u64,
    /// The bond (SecurityID 48).
    pub bond: BondId,
    /// The investor's side (54).
    pub side: Side,
    /// The quantity, the request's in full.
    pub quantity: Quantity,
    /// The price on the asked side.
    pub price: Ticks,
    /// What became of it.
    pub state: QuoteState,
}

/// What became of an accepted quote, as its dealer knows it.
#[derive(Clone, Copy, PartialEq, Eq)]
pub enum QuoteState {
    /// A cancel withdrew it.
    Withdrawn,
    /// Another quote on its request took its place.
    Replaced,
    /// It is known to be lifted, or was live when its request was closed by a hit of it (694=1).
    Lifted,
    /// It was live when its request was closed otherwise.
    Ended,
    /// It is live.
    Live,
}

/// A line of an investor's blotter: one of its accepted requests.
#[derive(Drop)]
pub struct RequestLine {
    /// Which of the investor's accepted requests it is, from 1.
    pub n: u32,
    /// The moment at which it was accepted.
    pub moment: Moment,
    /// The trader that sent it (SenderSubID 50).
    pub trader: Name,
    /// The bond (SecurityID 48).
    pub bond: BondId,
    /// The investor's side (54).
    pub side: Side,
    /// The quantity (OrderQty 38).
    pub quantity: Quantity,
    /// What became of it.
    pub state: RequestState,
}

/// What became of an accepted request, as its investor knows it, by its first close.
#[derive(Drop)]
pub enum RequestState {
    /// It has not been closed.
    Open,
    /// The investor passed it.
    Passed,
    /// It expired.
    Expired,
    /// A hit was awarded.
    Won {
        /// The dealer whose quote was hit.
        dealer: Name,
        /// The price of that quote.
        price: Ticks,
    },
}

/// The lines of a firm's blotter, as its desk has them. A contract sees them as `lines_in` of
/// `specs/DayLines`.
#[derive(Drop)]
pub enum FirmLines<'a> {
    /// A dealer's: one for each of its accepted quotes.
    Dealer(&'a [QuoteLine]),
    /// An investor's: one for each of its accepted requests.
    Investor(&'a [RequestLine]),
}
