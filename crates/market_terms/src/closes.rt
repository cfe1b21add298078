//! How a request ends, and what a room replies to an investor.

/// What a closing notice (QuoteResponse 35=AJ) says of the request: QuoteRespType (694).
#[derive(Clone, Copy, PartialEq, Eq)]
pub enum Close {
    /// 1: the dealer's quote was lifted, and the request is awarded to it.
    Hit,
    /// 3: the request expired.
    Expired,
    /// 4: the request was awarded to another dealer, and this dealer's quote was the best of the
    /// others.
    Cover,
    /// 5: the request was awarded to another dealer.
    DoneAway,
    /// 6: the investor passed the request.
    Pass,
}

impl Close {
    ghost use Rattle.std.specs.Prelude.{◌≡◌, ◌<◌};
    ghost use Rattle.market_terms.specs.Codes.{close_code};

    /// The digit that stands in the field 694.
    pub fn code(self) -> u64
        ensures code { result ≡ close_code self }
        ensures short { result < 10 }
    {
        match self {
            Close::Hit => 1,
            Close::Expired => 3,
            Close::Cover => 4,
            Close::DoneAway => 5,
            Close::Pass => 6,
        }
    }
}

/// Why a room refuses a hit: the first of these in this order. A pass is refused only as not open.
#[derive(Clone, Copy, Debug, PartialEq, Eq)]
pub enum HitRefusal {
    /// The request is not open: it has ended, or is not ready yet.
    NotOpen,
    /// The moment is at or past the request's deadline.
    Deadline,
    /// The quote does not stand in the room: it was replaced or withdrawn there.
    Gone,
    /// The quote's own validity (ValidUntilTime 62) has ended.
    Expired,
    /// The quote's word says that it was withdrawn.
    Withdrawn,
}

impl HitRefusal {
    ghost use Rattle.std.specs.Prelude.{◌≡◌, ◌≤◌, length};
    ghost use Rattle.fix_fields.specs.Frame.{IsValue};
    ghost use Rattle.market_terms.specs.Codes.{refusal_name};

    /// Its name, which a QuoteStatusReport of a refused hit or pass bears as Text (58).
    pub fn name(self) -> &'static [u8]
        ensures name { result.now ≡ refusal_name self }
        ensures short { length result.now ≤ 9 }
        ensures field { IsValue result.now }
    {
        match self {
            HitRefusal::NotOpen => b"NotOpen",
            HitRefusal::Deadline => b"Deadline",
            HitRefusal::Gone => b"Gone",
            HitRefusal::Expired => b"Expired",
            HitRefusal::Withdrawn => b"Withdrawn",
        }
    }
}

/// What a room decides of a hit or a pass.
#[derive(Clone, Copy, Debug, PartialEq, Eq)]
pub enum Reply {
    /// The hit lifted the quote, and the request is awarded.
    Awarded,
    /// The request is passed.
    Passed,
    /// The request stays as it was.
    Refused(HitRefusal),
}
