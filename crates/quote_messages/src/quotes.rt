//! The messages that a dealer sends, as they are read.

use crate::{Id, Quantity};
use bond_prices::{PriceFault, Ticks};
use fix_fields::Moment;
use venue_rows::Name;

/// A message of a dealer that met no session fault.
#[derive(Drop)]
pub enum DealerMessage<'a> {
    /// Quote (35=S).
    Quote(Quote<'a>),
    /// QuoteCancel (35=Z).
    Cancel(QuoteCancel<'a>),
    /// QuoteRequestReject (35=AG): the dealer declines a request.
    Decline(Decline<'a>),
}

/// A Quote (35=S) as it was received: each field absent, or its value as its form reads it.
#[derive(Drop)]
pub struct Quote<'a> {
    /// SenderSubID (50): the trader of the dealer that sent it.
    pub trader: Name,
    /// QuoteID (117).
    pub id: Id<'a>,
    /// QuoteReqID (131): the request that it answers.
    pub request: Id<'a>,
    /// SecurityID (48).
    pub bond: Id<'a>,
    /// BidPx (132): the price at which the dealer buys. Out of range or off the grid of 256ths is
    /// no session fault.
    pub bid: Option<Result<Ticks, PriceFault>>,
    /// OfferPx (133): the price at which the dealer sells.
    pub offer: Option<Result<Ticks, PriceFault>>,
    /// BidSize (134).
    pub bid_size: Option<Quantity>,
    /// OfferSize (135).
    pub offer_size: Option<Quantity>,
    /// QuoteType (537); 1 is tradeable.
    pub quote_type: Option<u64>,
    /// ValidUntilTime (62).
    pub valid_until: Option<Moment>,
}

/// A QuoteCancel (35=Z) as it was received.
#[derive(Drop)]
pub struct QuoteCancel<'a> {
    /// SenderSubID (50): the trader of the dealer that sent it.
    pub trader: Name,
    /// Which quotes it cancels.
    pub scope: CancelScope<'a>,
}

/// Which quotes a QuoteCancel cancels, by its QuoteCancelType (298). QuoteID (117) has to stand for
/// one quote alone.
#[derive(Drop)]
pub enum CancelScope<'a> {
    /// 5: the quote with this QuoteID (117).
    One(Id<'a>),
    /// 4: all quotes of the dealer, with QuoteID (117) as received, where it stood.
    All(Option<Id<'a>>),
    /// Any other type.
    Other {
        /// QuoteCancelType (298).
        cancel_type: u64,
        /// QuoteID (117) as received, where it stood.
        id: Option<Id<'a>>,
    },
}

/// A QuoteRequestReject (35=AG) with QuoteRequestRejectReason 658=10, the only one that a dealer
/// gives.
#[derive(Drop)]
pub struct Decline<'a> {
    /// SenderSubID (50): the trader of the dealer that sent it.
    pub trader: Name,
    /// QuoteReqID (131): the request that is declined.
    pub request: Id<'a>,
}
