//! What an event at a desk leads to.
ghost use Rattle.std.specs.Prelude.{◌≡◌};
ghost use Rattle.investor_desk.specs.RuleCuts.{sends};

use crate::{AcceptedRequest, RequestClose, ShownOffer};
use quote_messages::{OutMessage, SentMessage};

/// What a desk does with an event: what its index notes, and the messages that it sends.
#[derive(Drop)]
pub(crate) struct Outcome<'a> {
    /// What the index notes.
    pub(crate) note: Note,
    /// The report that a quote is gone in whose place another is shown.
    pub(crate) gone: Option<OutMessage<'a>>,
    /// The message that answers or reports the event itself.
    pub(crate) message: Option<OutMessage<'a>>,
}

/// What is noted, with the one message that is sent, if one is.
pub(crate) fn sends(note: Note, message: Option<OutMessage<'_>>) -> Outcome<'_>
    ensures { result ≡ sends note message.entry }
{
    Outcome {
        note,
        gone: None,
        message,
    }
}

/// The messages of an event as they are sent, in their order.
#[derive(Drop)]
pub(crate) struct Sent {
    /// The first one.
    pub(crate) first: Option<SentMessage>,
    /// The second one.
    pub(crate) second: Option<SentMessage>,
}

/// What an index notes of an event.
#[derive(Drop)]
pub(crate) enum Note {
    /// Nothing changes.
    Nothing,
    /// A message used up its number, and nothing else is to be noted.
    Number,
    /// A message used up its number, and the request that it asks was accepted.
    Asked(AcceptedRequest),
    /// A quote is shown, in the place of the one with this number where there is one.
    Shown(Option<u64>, ShownOffer),
    /// On this request this quote is gone.
    Gone(u32, u64),
    /// This request is closed.
    Closed(u32, RequestClose),
}
