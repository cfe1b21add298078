//! The messages that an investor sends, as they are read.

use crate::{Id, NamedDealers, Quantity, Side};
use fix_fields::Moment;
use venue_rows::Name;

/// A message of an investor that met no session fault.
#[derive(Drop)]
pub enum InvestorMessage<'a> {
    /// QuoteRequest (35=R).
    Request(QuoteRequest<'a>),
    /// QuoteResponse (35=AJ) with QuoteRespType 694=1: the investor hits a quote.
    Hit(QuoteHit<'a>),
    /// QuoteResponse (35=AJ) with QuoteRespType 694=6: the investor passes a request.
    Pass(RequestPass<'a>),
}

/// A QuoteRequest (35=R) as it was received.
#[derive(Drop)]
pub struct QuoteRequest<'a> {
    /// SenderSubID (50): the trader of the investor that sent it.
    pub trader: Name,
    /// QuoteReqID (131).
    pub id: Id<'a>,
    /// SecurityID (48).
    pub bond: Id<'a>,
    /// Side (54), the investor's.
    pub side: Side,
    /// OrderQty (38).
    pub quantity: Quantity,
    /// ExpireTime (126).
    pub deadline: Moment,
    /// The dealers that its party group (453) names, in their order.
    pub dealers: NamedDealers<'a>,
}

/// A QuoteResponse (35=AJ) that hits a quote, as it was received.
#[derive(Drop)]
pub struct QuoteHit<'a> {
    /// SenderSubID (50): the trader of the investor that sent it.
    pub trader: Name,
    /// QuoteRespID (693).
    pub id: Id<'a>,
    /// QuoteID (117): the quote that is hit.
    pub quote: Id<'a>,
    /// QuoteReqID (131), where it stood.
    pub request: Option<Id<'a>>,
}

/// A QuoteResponse (35=AJ) that passes a request, as it was received.
#[derive(Drop)]
pub struct RequestPass<'a> {
    /// SenderSubID (50): the trader of the investor that sent it.
    pub trader: Name,
    /// QuoteRespID (693).
    pub id: Id<'a>,
    /// QuoteReqID (131): the request that is passed.
    pub request: Id<'a>,
    /// QuoteID (117), where it stood.
    pub quote: Option<Id<'a>>,
}
