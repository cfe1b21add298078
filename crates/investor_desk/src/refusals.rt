//! Why a desk refuses a request.

use quote_messages::RequestRejectReason;

/// Why a request is refused: the first of these in this order.
#[derive(Clone, Copy, Debug, PartialEq, Eq)]
pub enum RequestRefusal {
    /// QuoteReqID (131) was used by an earlier accepted request of this investor.
    DuplicateRequest,
    /// SecurityID (48) is no bond of the venue.
    UnknownBond,
    /// OrderQty (38) is above the quantity of the investor's row.
    QuantityExceeded,
    /// No dealer is named.
    NoDealer,
    /// A dealer is named that the venue does not have.
    UnknownDealer,
    /// A dealer is named twice.
    DealerTwice,
    /// More dealers are named than one request may ask.
    TooManyDealers,
    /// The deadline, ExpireTime (126), is not after the moment.
    DeadlinePassed,
    /// As many requests were accepted in the day as the investor's row allows.
    RequestsUsedUp,
    /// As many of the investor's requests are open as its row allows.
    TooManyOpen,
}

impl RequestRefusal {
    ghost use Rattle.std.specs.Prelude.{◌≡◌};
    ghost use Rattle.investor_desk.specs.Refusals.{request_reason, refusal_name};

    /// The reason that the investor is told, QuoteRequestRejectReason (658).
    pub fn reason(self) -> RequestRejectReason
        ensures { result ≡ request_reason self }
    {
        match self {
            RequestRefusal::DuplicateRequest => RequestRejectReason::Other,
            RequestRefusal::UnknownBond => RequestRejectReason::UnknownSymbol,
            RequestRefusal::QuantityExceeded => RequestRejectReason::ExceedsLimit,
            RequestRefusal::NoDealer => RequestRejectReason::Other,
            RequestRefusal::UnknownDealer => RequestRejectReason::Other,
            RequestRefusal::DealerTwice => RequestRejectReason::Other,
            RequestRefusal::TooManyDealers => RequestRejectReason::Other,
            RequestRefusal::DeadlinePassed => RequestRejectReason::TooLate,
            RequestRefusal::RequestsUsedUp => RequestRejectReason::ExceedsLimit,
            RequestRefusal::TooManyOpen => RequestRejectReason::ExceedsLimit,
        }
    }

    /// Its name.
    pub fn name(self) -> &'static [u8]
        ensures { result.now ≡ refusal_name self }
    {
        match self {
            RequestRefusal::DuplicateRequest => b"DuplicateRequest",
            RequestRefusal::UnknownBond => b"UnknownBond",
            RequestRefusal::QuantityExceeded => b"QuantityExceeded",
            RequestRefusal::NoDealer => b"NoDealer",
            RequestRefusal::UnknownDealer => b"UnknownDealer",
            RequestRefusal::DealerTwice => b"DealerTwice",
            RequestRefusal::TooManyDealers => b"TooManyDealers",
            RequestRefusal::DeadlinePassed => b"DeadlinePassed",
            RequestRefusal::RequestsUsedUp => b"RequestsUsedUp",
            RequestRefusal::TooManyOpen => b"TooManyOpen",
        }
    }
}
