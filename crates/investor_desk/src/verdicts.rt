//! What a desk decides of a message, and what that leads to.
ghost use Rattle.std.specs.Prelude.{◌≡◌};
ghost use Rattle.investor_desk.specs.RuleCuts.{received_outcome};

use crate::outcomes::{Note, Outcome, sends};
use crate::{AcceptedRequest, RequestRefusal};
use market_terms::{Id, ResponseRef};
use quote_messages::{OutMessage, PassStatus, Reject};

/// The verdict on a message that came to an investor's desk. Hits and passes are left to the room
/// of their request.
#[derive(Drop)]
pub enum InvestorVerdict<'a> {
    /// The bytes are no frame, or have no readable MsgSeqNum (34): nothing is sent.
    Dropped,
    /// MsgSeqNum (34) is not the expected one, which stays.
    OutOfSequence(Reject<'a>),
    /// The message used up its number and met a session fault.
    Rejected(Reject<'a>),
    /// A request is refused, by the first check that it does not pass.
    RequestRefused {
        /// QuoteReqID (131) as received.
        request: Id<'a>,
        /// SecurityID (48) as received.
        bond: Id<'a>,
        /// Why: QuoteRequestRejectReason (658) follows from it.
        refusal: RequestRefusal,
    },
    /// No quote that the investor was shown has the QuoteID of its hit.
    HitUnknown {
        /// QuoteRespID (693) as received.
        id: Id<'a>,
        /// QuoteID (117) as received.
        quote: Id<'a>,
    },
    /// No accepted request has the QuoteReqID of the pass.
    PassUnknown {
        /// QuoteRespID (693) as received.
        id: Id<'a>,
        /// QuoteReqID (131) as received.
        request: Id<'a>,
    },
    /// A request is accepted.
    RequestAccepted {
        /// QuoteReqID (131) as received.
        id: Id<'a>,
        /// What the desk keeps of it.
        request: AcceptedRequest,
    },
    /// A quote is hit that the investor was shown.
    Hits {
        /// Which of the investor's accepted requests the quote answers.
        request: u32,
        /// The response, as its reply will name it.
        response: ResponseRef,
        /// The quote's word.
        word: u32,
    },
    /// A request is passed.
    Passes {
        /// Which of the investor's accepted requests it is.
        request: u32,
        /// The response, as its reply will name it.
        response: ResponseRef,
    },
}

/// What a message of the investor's own leads to, by its verdict.
pub(crate) fn received_outcome(verdict: InvestorVerdict<'_>) -> Outcome<'_>
    ensures { result ≡ received_outcome verdict.entry }
{
    match verdict {
        InvestorVerdict::Dropped => sends(Note::Nothing, None),
        InvestorVerdict::OutOfSequence(reject) => {
            sends(Note::Nothing, Some(OutMessage::Reject(reject)))
        }
        InvestorVerdict::Rejected(reject) => {
            sends(Note::Number, Some(OutMessage::Reject(reject)))
        }
        InvestorVerdict::RequestRefused {
            request,
            bond,
            refusal,
        } => sends(
            Note::Number,
            Some(OutMessage::RequestRefused {
                request,
                bond,
                reason: refusal.reason(),
            }),
        ),
        InvestorVerdict::HitUnknown { id, quote } => {
            sends(Note::Number, Some(OutMessage::HitUnknown { id, quote }))
        }
        InvestorVerdict::PassUnknown { id, request } => sends(
            Note::Number,
            Some(OutMessage::PassReport {
                id,
                request,
                status: PassStatus::Unknown,
            }),
        ),
        InvestorVerdict::RequestAccepted { id, request } => sends(
            Note::Asked(request),
            Some(OutMessage::RequestAccepted { request: id }),
        ),
        InvestorVerdict::Hits { .. } => sends(Note::Number, None),
        InvestorVerdict::Passes { .. } => sends(Note::Number, None),
    }
}
