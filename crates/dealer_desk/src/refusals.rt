//! Why a dealer's message is refused. Each reason is a line of its table in the market's rules, and
//! the reasons of a kind stand in the table's order.

use quote_messages::{CancelStatus, QuoteRejectReason};

/// Why a quote is refused: the first of these that holds.
#[derive(Clone, Copy, Debug, PartialEq, Eq)]
pub enum QuoteRefusal {
    /// QuoteReqID (131) names no request that was shown to the dealer.
    UnknownRequest,
    /// The dealer declined the request.
    Declined,
    /// The request's closing notice was sent, or the dealer's quote on it is already known to be
    /// lifted.
    Closed,
    /// The moment is at or past the request's deadline (ExpireTime 126).
    DeadlinePassed,
    /// SecurityID (48) is not the request's bond.
    OtherBond,
    /// The price of the asked side is absent, out of range or off the grid of the bond, or a price
    /// of the other side is present.
    InvalidPrice,
    /// The price is below the lowest or above the highest of the bond's band.
    OutsideBand,
    /// BidSize (134) or OfferSize (135) is present and is not the request's quantity.
    OtherQuantity,
    /// QuoteType (537) is present and is not 1, tradeable.
    NotTradeable,
    /// QuoteID (117) was used by an earlier accepted quote.
    DuplicateQuote,
    /// ValidUntilTime (62) is present and is not after the moment.
    ValidityPassed,
    /// As many quotes were accepted in the day as the dealer's row allows.
    QuotesUsedUp,
    /// The quantity, with those of the dealer's other live quotes, exceeds the exposure of its row.
    ExposureExceeded,
    /// The quote would replace one whose word was asked, and is lifted.
    Lifted,
}

impl QuoteRefusal {
    ghost use Rattle.std.specs.Prelude.{◌≡◌, ◌≤◌, length};
    ghost use Rattle.dealer_desk.specs.Refusals.{quote_reason, quote_refusal_name};

    /// QuoteRejectReason (300) of the report.
    pub fn reason(self) -> QuoteRejectReason
        ensures { result ≡ quote_reason self }
    {
        match self {
            QuoteRefusal::UnknownRequest => QuoteRejectReason::Other,
            QuoteRefusal::Declined => QuoteRejectReason::Other,
            QuoteRefusal::Closed => QuoteRejectReason::TooLate,
            QuoteRefusal::DeadlinePassed => QuoteRejectReason::TooLate,
            QuoteRefusal::OtherBond => QuoteRejectReason::UnknownSymbol,
            QuoteRefusal::InvalidPrice => QuoteRejectReason::InvalidPrice,
            QuoteRefusal::OutsideBand => QuoteRejectReason::InvalidPrice,
            QuoteRefusal::OtherQuantity => QuoteRejectReason::Other,
            QuoteRefusal::NotTradeable => QuoteRejectReason::Other,
            QuoteRefusal::DuplicateQuote => QuoteRejectReason::DuplicateQuote,
            QuoteRefusal::ValidityPassed => QuoteRejectReason::Other,
            QuoteRefusal::QuotesUsedUp => QuoteRejectReason::ExceedsLimit,
            QuoteRefusal::ExposureExceeded => QuoteRejectReason::ExceedsLimit,
            QuoteRefusal::Lifted => QuoteRejectReason::TooLate,
        }
    }

    /// Its name: 1 to 20 letters.
    pub fn name(self) -> &'static [u8]
        ensures name { result.now ≡ quote_refusal_name self }
        ensures short { length result.now ≤ 20 }
    {
        match self {
            QuoteRefusal::UnknownRequest => b"UnknownRequest",
            QuoteRefusal::Declined => b"Declined",
            QuoteRefusal::Closed => b"Closed",
            QuoteRefusal::DeadlinePassed => b"DeadlinePassed",
            QuoteRefusal::OtherBond => b"OtherBond",
            QuoteRefusal::InvalidPrice => b"InvalidPrice",
            QuoteRefusal::OutsideBand => b"OutsideBand",
            QuoteRefusal::OtherQuantity => b"OtherQuantity",
            QuoteRefusal::NotTradeable => b"NotTradeable",
            QuoteRefusal::DuplicateQuote => b"DuplicateQuote",
            QuoteRefusal::ValidityPassed => b"ValidityPassed",
            QuoteRefusal::QuotesUsedUp => b"QuotesUsedUp",
            QuoteRefusal::ExposureExceeded => b"ExposureExceeded",
            QuoteRefusal::Lifted => b"Lifted",
        }
    }
}

/// Why a cancel, of one quote or of all, withdraws nothing: the first of these that holds.
#[derive(Clone, Copy, Debug, PartialEq, Eq)]
pub enum CancelRefusal {
    /// QuoteCancelType (298) is neither 5, one quote, nor 4, all quotes.
    UnknownCancelType,
    /// No quote of the dealer was accepted with that QuoteID (117).
    UnknownQuote,
    /// The quote was withdrawn or replaced before.
    Withdrawn,
    /// The closing notice of the quote's request was sent, or the quote is known to be lifted.
    Closed,
    /// The quote's word was asked, and is lifted.
    Lifted,
    /// All quotes are meant, and none can be dropped.
    NothingToCancel,
}

impl CancelRefusal {
    ghost use Rattle.std.specs.Prelude.{◌≡◌, ◌≤◌, length};
    ghost use Rattle.dealer_desk.specs.Refusals.{cancel_refusal_name, refused_cancel};

    /// QuoteStatus (297) and QuoteRejectReason (300) of the report.
    pub fn status(self) -> CancelStatus
        ensures { result ≡ refused_cancel self }
    {
        match self {
            CancelRefusal::UnknownCancelType => CancelStatus::Refused(QuoteRejectReason::Other),
            CancelRefusal::UnknownQuote => CancelStatus::Unknown,
            CancelRefusal::Withdrawn => CancelStatus::Refused(QuoteRejectReason::Other),
            CancelRefusal::Closed => CancelStatus::Refused(QuoteRejectReason::TooLate),
            CancelRefusal::Lifted => CancelStatus::Refused(QuoteRejectReason::TooLate),
            CancelRefusal::NothingToCancel => CancelStatus::Unknown,
        }
    }

    /// Its name: 1 to 20 letters.
    pub fn name(self) -> &'static [u8]
        ensures name { result.now ≡ cancel_refusal_name self }
        ensures short { length result.now ≤ 20 }
    {
        match self {
            CancelRefusal::UnknownCancelType => b"UnknownCancelType",
            CancelRefusal::UnknownQuote => b"UnknownQuote",
            CancelRefusal::Withdrawn => b"Withdrawn",
            CancelRefusal::Closed => b"Closed",
            CancelRefusal::Lifted => b"Lifted",
            CancelRefusal::NothingToCancel => b"NothingToCancel",
        }
    }
}

/// Why a decline is refused: the first of these that holds.
#[derive(Clone, Copy, Debug, PartialEq, Eq)]
pub enum DeclineRefusal {
    /// QuoteReqID (131) names no request that was shown to the dealer.
    UnknownRequest,
    /// The dealer declined it before.
    Declined,
    /// Its closing notice was sent.
    Closed,
    /// A quote of the dealer on it is live.
    LiveQuote,
}

impl DeclineRefusal {
    ghost use Rattle.std.specs.Prelude.{◌≡◌, ◌≤◌, length};
    ghost use Rattle.dealer_desk.specs.Refusals.{decline_reason, decline_refusal_name};

    /// QuoteRejectReason (300) of the report.
    pub fn reason(self) -> QuoteRejectReason
        ensures { result ≡ decline_reason self }
    {
        match self {
            DeclineRefusal::UnknownRequest => QuoteRejectReason::Other,
            DeclineRefusal::Declined => QuoteRejectReason::Other,
            DeclineRefusal::Closed => QuoteRejectReason::TooLate,
            DeclineRefusal::LiveQuote => QuoteRejectReason::Other,
        }
    }

    /// Its name: 1 to 20 letters.
    pub fn name(self) -> &'static [u8]
        ensures name { result.now ≡ decline_refusal_name self }
        ensures short { length result.now ≤ 20 }
    {
        match self {
            DeclineRefusal::UnknownRequest => b"UnknownRequest",
            DeclineRefusal::Declined => b"Declined",
            DeclineRefusal::Closed => b"Closed",
            DeclineRefusal::LiveQuote => b"LiveQuote",
        }
    }
}

/// Why a message of a dealer's own is refused.
#[derive(Clone, Copy, Debug, PartialEq, Eq)]
pub enum DealerRefusal {
    /// A quote.
    Quote(QuoteRefusal),
    /// A cancel, or the drop of a quote by a cancel of all.
    Cancel(CancelRefusal),
    /// A decline.
    Decline(DeclineRefusal),
}

impl DealerRefusal {
    ghost use Rattle.std.specs.Prelude.{◌≡◌, ◌≤◌, length};
    ghost use Rattle.dealer_desk.specs.Refusals.{dealer_refusal_name};

    /// The name of the reason: 1 to 20 letters.
    pub fn name(self) -> &'static [u8]
        ensures name { result.now ≡ dealer_refusal_name self }
        ensures short { length result.now ≤ 20 }
    {
        match self {
            DealerRefusal::Quote(refusal) => refusal.name(),
            DealerRefusal::Cancel(refusal) => refusal.name(),
            DealerRefusal::Decline(refusal) => refusal.name(),
        }
    }
}
