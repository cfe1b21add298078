//! Requests and quotes as a desk keeps them.

use bond_prices::Ticks;
use fix_fields::Moment;
use market_terms::{Ask, AskedDealers, IdBuf, Offer};
use venue_rows::Name;

/// A request that was accepted.
#[derive(Drop)]
pub struct AcceptedRequest {
    /// Its number: which of the investor's accepted requests it is, from 1.
    pub number: u32,
    /// QuoteReqID (131), the investor's.
    pub id: IdBuf,
    /// The trader that sent it (SenderSubID 50).
    pub trader: Name,
    /// What is asked for.
    pub ask: Ask,
    /// The dealers that it names, by their numbers among the firms.
    pub dealers: AskedDealers,
    /// The moment at which it came.
    pub moment: Moment,
}

/// A quote that the investor was shown.
#[derive(Drop)]
pub struct ShownOffer {
    /// Which of the quotes shown to the investor it is, from 1: its QuoteID (117) is `Q` and this
    /// number.
    pub number: u64,
    /// Which of the investor's accepted requests it answers.
    pub request: u32,
    /// The quote.
    pub offer: Offer,
}

/// How a request was closed.
#[derive(Drop)]
pub enum RequestClose {
    /// A hit was awarded.
    Awarded {
        /// The quote that was hit, by its number among those shown to the investor.
        quote: u64,
        /// The dealer of that quote.
        dealer: Name,
        /// Its price.
        price: Ticks,
    },
    /// The investor passed it.
    Passed,
    /// It expired.
    Expired,
}
