//! Why a quote or a request is refused.

/// QuoteRejectReason (300) of a QuoteStatusReport that refuses (297=5).
#[derive(Clone, Copy, PartialEq, Eq)]
pub enum QuoteRejectReason {
    /// 1: the bond is not the request's.
    UnknownSymbol,
    /// 3: a limit of the day or the exposure would be passed.
    ExceedsLimit,
    /// 4: the request takes no quote any more.
    TooLate,
    /// 6: the QuoteID was used by an earlier accepted quote.
    DuplicateQuote,
    /// 8: the price is on the wrong side, missing, out of range, off the grid or outside
    /// the band.
    InvalidPrice,
    /// 99: any other reason.
    Other,
}

impl QuoteRejectReason {
    ghost use Rattle.std.specs.Prelude.{◌≡◌, ◌<◌};
    ghost use Rattle.quote_messages.specs.Codes.{quote_reject_code};

    /// The number that stands in the field 300.
    pub fn code(self) -> u64
        ensures code { result ≡ quote_reject_code self }
        ensures short { result < 100 }
    {
        match self {
            QuoteRejectReason::UnknownSymbol => 1,
            QuoteRejectReason::ExceedsLimit => 3,
            QuoteRejectReason::TooLate => 4,
            QuoteRejectReason::DuplicateQuote => 6,
            QuoteRejectReason::InvalidPrice => 8,
            QuoteRejectReason::Other => 99,
        }
    }
}

/// QuoteRequestRejectReason (658) of a QuoteRequestReject (35=AG) by which the venue refuses a
/// request.
#[derive(Clone, Copy, PartialEq, Eq)]
pub enum RequestRejectReason {
    /// 1: the venue does not have the bond.
    UnknownSymbol,
    /// 3: a limit of the request, of the open requests or of the day would be passed.
    ExceedsLimit,
    /// 4: the deadline is not after the moment.
    TooLate,
    /// 99: any other reason.
    Other,
}

impl RequestRejectReason {
    ghost use Rattle.std.specs.Prelude.{◌≡◌, ◌<◌};
    ghost use Rattle.quote_messages.specs.Codes.{request_reject_code};

    /// The number that stands in the field 658.
    pub fn code(self) -> u64
        ensures code { result ≡ request_reject_code self }
        ensures short { result < 100 }
    {
        match self {
            RequestRejectReason::UnknownSymbol => 1,
            RequestRejectReason::ExceedsLimit => 3,
            RequestRejectReason::TooLate => 4,
            RequestRejectReason::Other => 99,
        }
    }
}
