//! The messages that a firm is sent.

use crate::received::{MsgType, SeqNum};
use crate::{
    Ask, Close, HitRefusal, Id, IdBuf, Quantity, QuoteRejectReason, RequestRejectReason,
    SessionFault, Side,
};
use bond_prices::Ticks;
use fix_fields::{Date, Moment};
use venue_rows::{BondId, Name};

/// The header of a written message: SenderCompID (49) is always `VENUE`.
#[derive(Drop)]
pub struct Head {
    /// The day, with which the moment is written.
    pub date: Date,
    /// The firm that is sent the message, TargetCompID (56).
    pub firm: Name,
    /// MsgSeqNum (34): how many messages that firm was sent, with this one.
    pub number: u64,
    /// SendingTime (52).
    pub moment: Moment,
}

/// A message that a firm is sent, with the values that it bears.
#[derive(Drop)]
pub enum OutMessage<'a> {
    /// Reject (35=3): the session does not take a message of the firm.
    Reject(Reject<'a>),
    /// QuoteRequest (35=R): a dealer is shown a request.
    Request(Request),
    /// QuoteStatusReport (35=AI) on a dealer's quote: accepted (297=0) or refused (297=5).
    QuoteReport {
        /// QuoteReqID (131) as received.
        request: Id<'a>,
        /// QuoteID (117) as received.
        id: Id<'a>,
        /// QuoteRejectReason (300), where it is refused.
        refusal: Option<QuoteRejectReason>,
    },
    /// QuoteStatusReport (35=AI) on a dealer's cancel.
    CancelReport {
        /// QuoteID (117) as received, where it stood.
        id: Option<Id<'a>>,
        /// What became of the cancel.
        status: CancelStatus,
    },
    /// QuoteStatusReport (35=AI) on a dealer's decline: accepted (297=11) or refused (297=5).
    DeclineReport {
        /// QuoteReqID (131) as received.
        request: Id<'a>,
        /// QuoteRejectReason (300), where it is refused.
        refusal: Option<QuoteRejectReason>,
    },
    /// QuoteResponse (35=AJ): a closing notice, by which a dealer is told how a request ended.
    ClosingNotice(ClosingNotice),
    /// QuoteStatusReport (35=AI) with 297=0: an investor's request is accepted.
    RequestAccepted {
        /// QuoteReqID (131) as received.
        request: Id<'a>,
    },
    /// QuoteRequestReject (35=AG): an investor's request is refused.
    RequestRefused {
        /// QuoteReqID (131) as received.
        request: Id<'a>,
        /// SecurityID (48) as received.
        bond: Id<'a>,
        /// QuoteRequestRejectReason (658).
        reason: RequestRejectReason,
    },
    /// Quote (35=S): an investor is shown a quote.
    OfferedQuote(OfferedQuote<'a>),
    /// QuoteStatusReport (35=AI) with 297=17: an investor is told that a quote is gone.
    QuoteGone {
        /// QuoteReqID (131), the investor's.
        request: Id<'a>,
        /// Which of the quotes shown to this investor it is, from 1: QuoteID (117) is `Q` and this
        /// number.
        quote: u64,
    },
    /// QuoteStatusReport (35=AI) with 297=11: an investor is told that a dealer declined its
    /// request.
    DealerDeclined {
        /// QuoteReqID (131), the investor's.
        request: Id<'a>,
        /// The dealer (PartyID 448).
        dealer: Name,
    },
    /// QuoteStatusReport (35=AI) on an investor's hit: awarded (297=0) or refused (297=5).
    HitReport {
        /// QuoteRespID (693) as received.
        id: Id<'a>,
        /// QuoteReqID (131) of the request that the quote answers.
        request: Id<'a>,
        /// The number in the QuoteID (117) as received, `Q` and this number.
        quote: u64,
        /// Why it is refused, where it is.
        refusal: Option<HitRefusal>,
    },
    /// QuoteStatusReport (35=AI) with 297=9: no quote that was shown to the investor has the
    /// QuoteID of its hit.
    HitUnknown {
        /// QuoteRespID (693) as received.
        id: Id<'a>,
        /// QuoteID (117) as received.
        quote: Id<'a>,
    },
    /// QuoteStatusReport (35=AI) on an investor's pass.
    PassReport {
        /// QuoteRespID (693) as received.
        id: Id<'a>,
        /// QuoteReqID (131) as received.
        request: Id<'a>,
        /// What became of the pass.
        status: PassStatus,
    },
    /// QuoteStatusReport (35=AI) with 297=7: an investor's request expired.
    RequestExpired {
        /// QuoteReqID (131), the investor's.
        request: Id<'a>,
    },
}

impl<'a> OutMessage<'a> {
    ghost use Rattle.std.specs.Prelude.{◌≡◌, ◌≤◌, length};
    ghost use Rattle.fix_fields.specs.Frame.{IsValue};
    ghost use Rattle.quote_messages.specs.Written.{msg_type_of};

    /// MsgType (35).
    pub fn msg_type(&self) -> &[u8]
        ensures value { result.now ≡ msg_type_of self.now }
        ensures short { length result.now ≤ 4 }
        ensures field { IsValue result.now }
    {
        match self {
            OutMessage::Reject(_) => b"3",
            OutMessage::Request(_) => b"R",
            OutMessage::ClosingNotice(_) => b"AJ",
            OutMessage::RequestRefused { .. } => b"AG",
            OutMessage::OfferedQuote(_) => b"S",
            _ => b"AI",
        }
    }
}

/// What became of a dealer's QuoteCancel.
#[derive(Clone, Copy)]
pub enum CancelStatus {
    /// 297=17: the quote is withdrawn.
    Withdrawn,
    /// 297=9: there is no such quote, or none to cancel.
    Unknown,
    /// 297=5: it is refused, with QuoteRejectReason (300).
    Refused(QuoteRejectReason),
}

/// What became of an investor's pass.
#[derive(Clone, Copy)]
pub enum PassStatus {
    /// 297=11: the request is passed.
    Passed,
    /// 297=5: the request is not open.
    NotOpen,
    /// 297=9: no accepted request of the investor has the QuoteReqID (131) of the pass.
    Unknown,
}

/// What a Reject (35=3) says of the message that is not taken.
#[derive(Drop)]
pub struct Reject<'a> {
    /// RefSeqNum (45): the received MsgSeqNum as it was spelled.
    pub number: SeqNum<'a>,
    /// RefTagID (371) and SessionRejectReason (373).
    pub fault: SessionFault,
    /// RefMsgType (372), where the received MsgType is 1 to 4 letters or digits.
    pub msg_type: Option<MsgType<'a>>,
}

/// A request that a dealer was shown.
#[derive(Drop)]
pub struct Request {
    /// Which of the requests shown to this dealer it is, from 1: QuoteReqID (131) is `R` and this
    /// number.
    pub number: u64,
    /// What is asked for.
    pub ask: Ask,
}

/// How a request ended for a dealer.
#[derive(Drop)]
pub struct ClosingNotice {
    /// Which of the dealer's closing notices it is, from 1: QuoteRespID (693) is `N` and this
    /// number.
    pub number: u64,
    /// The request that ended.
    pub request: Request,
    /// How it ended, QuoteRespType (694).
    pub close: Close,
    /// The dealer's live quote on the request, where there is one. Only a notice of a hit bears its
    /// QuoteID (117) and its price (132 or 133).
    pub quote: Option<QuotedPrice>,
}

/// What a closing notice says of the quote that was hit.
#[derive(Drop)]
pub struct QuotedPrice {
    /// QuoteID (117).
    pub id: IdBuf,
    /// The price on the asked side (BidPx 132 or OfferPx 133).
    pub price: Ticks,
}

/// A quote as its investor is shown it. QuoteType (537) is 1, tradeable.
#[derive(Drop)]
pub struct OfferedQuote<'a> {
    /// QuoteReqID (131), the investor's.
    pub request: Id<'a>,
    /// Which of the quotes shown to this investor it is, from 1: QuoteID (117) is `Q` and this
    /// number.
    pub number: u64,
    /// SecurityID (48).
    pub bond: BondId,
    /// Side (54), the investor's.
    pub side: Side,
    /// The price on the asked side: OfferPx (133) where the investor buys, and else BidPx (132).
    pub price: Ticks,
    /// The quantity of the request: OfferSize (135) or BidSize (134), beside the price.
    pub quantity: Quantity,
    /// The moment from which on it can't be hit (ValidUntilTime 62), where one was given.
    pub valid_until: Option<Moment>,
    /// The dealer that quotes (PartyID 448).
    pub dealer: Name,
}
