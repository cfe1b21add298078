//! What a desk decides of a message.
ghost use Rattle.std.specs.Prelude.{◌≡◌};
ghost use Rattle.dealer_desk.specs.DealerOutput as spec;

use crate::{AcceptedQuote, CancelRefusal, DeclineRefusal, QuoteRefusal};
use market_terms::Id;
use quote_messages::Reject;

/// The verdict on a message that came to a dealer's desk. Of two of them a quote's word decides
/// last: a quote that replaces another, and a cancel, take effect where that word is withdrawn, and
/// come too late where it is lifted.
#[derive(Drop)]
pub enum DealerVerdict<'a> {
    /// The bytes are no frame, or have no readable MsgSeqNum (34): nothing is sent.
    Dropped,
    /// MsgSeqNum (34) is not the expected one, which stays.
    OutOfSequence(Reject<'a>),
    /// The message used up its number and met a session fault.
    Rejected(Reject<'a>),
    /// A quote is refused: by the first line of its table that holds, and before any word is asked.
    QuoteRefused {
        /// QuoteReqID (131) as received.
        request: Id<'a>,
        /// QuoteID (117) as received.
        id: Id<'a>,
        /// Why.
        refusal: QuoteRefusal,
    },
    /// A cancel is refused: by the first line of its table that holds, and before any word is
    /// asked.
    CancelRefused {
        /// QuoteID (117) as received, where it stood.
        id: Option<Id<'a>>,
        /// Why.
        refusal: CancelRefusal,
    },
    /// A decline is refused: by the first line of its table that holds.
    DeclineRefused {
        /// QuoteReqID (131) as received.
        request: Id<'a>,
        /// Why.
        refusal: DeclineRefusal,
    },
    /// A quote is accepted, unless it would replace one that was lifted.
    QuoteAccepted {
        /// QuoteReqID (131) as received.
        request: Id<'a>,
        /// QuoteID (117) as received.
        id: Id<'a>,
        /// What the desk keeps of it.
        quote: AcceptedQuote,
        /// The own number of the dealer's live quote on the same request, where there is one: it is
        /// replaced, and its word is asked.
        replaced: Option<u32>,
    },
    /// A cancel of one quote is confirmed, unless the quote was lifted.
    CancelAccepted {
        /// QuoteID (117) as received.
        id: Id<'a>,
        /// The own number of the quote, whose word is asked.
        quote: u32,
        /// Which of the requests shown to the dealer the quote answers.
        request: u64,
    },
    /// A cancel of all quotes: they are dropped one by one, up to this own number.
    DropsFollow {
        /// The own number of the dealer's last accepted quote.
        last: u32,
    },
    /// A decline is accepted.
    DeclineAccepted {
        /// QuoteReqID (131) as received.
        request: Id<'a>,
        /// Which of the requests shown to the dealer it declines, from 1.
        number: u64,
    },
}

impl<'a> DealerVerdict<'a> {
    /// The own number of the quote whose word this verdict asks, if it asks one.
    pub fn word_asked(&self) -> Option<u32>
        ensures { result ≡ spec.word_asked self.now }
    {
        match self {
            DealerVerdict::QuoteAccepted { replaced, .. } => *replaced,
            DealerVerdict::CancelAccepted { quote, .. } => Some(*quote),
            _ => None,
        }
    }
}
