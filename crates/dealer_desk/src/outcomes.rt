//! What a verdict leads to, once the word that it asks is settled.

ghost use Rattle.std.specs.Prelude.{◌≡◌, Some, None};
ghost use Rattle.dealer_desk.specs.Refusals.{quote_reason, refused_cancel, decline_reason};

use crate::{
    AcceptedQuote, CancelRefusal, DealerNote, DealerRefusal, DeclineRefusal, QuoteRefusal,
};
use market_terms::Id;
use quote_messages::OutMessage;

/// What a desk does with a message: what its index notes, and the message that answers, where one
/// does, with what stands beside it.
#[derive(Drop)]
pub(crate) struct Outcome<'a> {
    /// What the index notes.
    pub(crate) note: Note,
    /// The message that answers.
    pub(crate) output: Option<OutMessage<'a>>,
    /// What the desk notes beside that message.
    pub(crate) beside: Option<DealerNote>,
}

/// What an index notes of a message.
#[derive(Drop)]
pub(crate) enum Note {
    /// The message used up no number.
    Nothing,
    /// It used up its number, and nothing else is to be noted.
    Number,
    /// A quote was accepted, on a request without a live one.
    Accepted(AcceptedQuote),
    /// A quote was accepted in the place of the live one with this own number.
    Replaced(u32, AcceptedQuote),
    /// The quote with this own number was cancelled.
    Cancelled(u32),
    /// The quote with this own number was found lifted.
    Late(u32),
    /// The request with this number was declined.
    Declined(u64),
}

/// A message that used up no number.
pub(crate) fn unnumbered(output: Option<OutMessage<'_>>) -> Outcome<'_>
    ensures { result ≡ record { note = Note.Nothing; output = output.entry; beside = None } }
{
    Outcome {
        note: Note::Nothing,
        output,
        beside: None,
    }
}

/// A message that used up its number and changes nothing else.
pub(crate) fn numbered(output: OutMessage<'_>) -> Outcome<'_>
    ensures { result
        ≡ record { note = Note.Number; output = Some output.entry; beside = None } }
{
    Outcome {
        note: Note::Number,
        output: Some(output),
        beside: None,
    }
}

/// A quote that is refused.
pub(crate) fn quote_refused<'a>(request: Id<'a>, id: Id<'a>, refusal: QuoteRefusal) -> Outcome<'a>
    ensures { result ≡ record {
      note = Note.Number;
      output = Some (OutMessage.QuoteReport request.entry id.entry (Some (quote_reason refusal)));
      beside = Some (DealerNote.Refused (DealerRefusal.Quote refusal));
    } }
{
    let report = OutMessage::QuoteReport {
        request,
        id,
        refusal: Some(refusal.reason()),
    };
    refused(report, DealerRefusal::Quote(refusal))
}

/// A cancel that is refused.
pub(crate) fn cancel_refused(id: Option<Id<'_>>, refusal: CancelRefusal) -> Outcome<'_>
    ensures { result ≡ record {
      note = Note.Number;
      output = Some (OutMessage.CancelReport id.entry (refused_cancel refusal));
      beside = Some (DealerNote.Refused (DealerRefusal.Cancel refusal));
    } }
{
    let report = OutMessage::CancelReport {
        id,
        status: refusal.status(),
    };
    refused(report, DealerRefusal::Cancel(refusal))
}

/// A decline that is refused.
pub(crate) fn decline_refused(request: Id<'_>, refusal: DeclineRefusal) -> Outcome<'_>
    ensures { result ≡ record {
      note = Note.Number;
      output = Some (OutMessage.DeclineReport request.entry (Some (decline_reason refusal)));
      beside = Some (DealerNote.Refused (DealerRefusal.Decline refusal));
    } }
{
    let report = OutMessage::DeclineReport {
        request,
        refusal: Some(refusal.reason()),
    };
    refused(report, DealerRefusal::Decline(refusal))
}

/// A message that used up its number and is refused by this report, for this reason.
fn refused(output: OutMessage<'_>, refusal: DealerRefusal) -> Outcome<'_>
    ensures { result ≡ record {
      note = Note.Number;
      output = Some output.entry;
      beside = Some (DealerNote.Refused refusal);
    } }
{
    Outcome {
        note: Note::Number,
        output: Some(output),
        beside: Some(DealerNote::Refused(refusal)),
    }
}
