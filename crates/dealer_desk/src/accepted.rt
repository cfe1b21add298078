//! Quotes that a desk accepted.

use bond_prices::Ticks;
use fix_fields::Moment;
use market_terms::{IdBuf, Quantity, Side};
use venue_rows::{BondId, Name};

/// A quote that was accepted.
#[derive(Drop)]
pub struct AcceptedQuote {
    /// Its own number: which of the dealer's accepted quotes it is, from 1.
    pub number: u32,
    /// QuoteID (117).
    pub id: IdBuf,
    /// Which of the requests shown to the dealer it answers, from 1.
    pub request: u64,
    /// The trader that sent it (SenderSubID 50).
    pub trader: Name,
    /// The request's bond (SecurityID 48).
    pub bond: BondId,
    /// The investor's side (54).
    pub side: Side,
    /// The request's quantity, for which the quote is in full.
    pub quantity: Quantity,
    /// The price on the asked side.
    pub price: Ticks,
    /// The moment from which on it can't be hit (ValidUntilTime 62), where one was given.
    pub valid_until: Option<Moment>,
    /// The moment at which it came.
    pub moment: Moment,
}
