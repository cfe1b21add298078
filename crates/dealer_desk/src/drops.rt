//! Drops: the quotes that a cancel of all quotes means are taken one by one.
ghost use Rattle.std.specs.Prelude.{◌≡◌, IfSome};
ghost use Rattle.std.specs.Option.{option_map};
ghost use Rattle.dealer_desk.specs.DealerFacts.{number_to_drop, quote_to_drop};
ghost use Rattle.dealer_desk.specs.BookChanges.{IsSound, IsLiveNumber};
ghost use Rattle.dealer_desk.specs.declared.standing.Withdrawal.TheVariants as by;
ghost use Rattle.dealer_desk.specs.DealerOutput as spec;
ghost use Rattle.dealer_desk.specs.DealerNotes as notes;
ghost use Rattle.dealer_desk.specs.RuleCuts.{with_facts};

use crate::DealerNote;
use crate::answers::{cancel_status, is_withdrawn, late_cancel, unpost_where};
use crate::index::DealerIndex;
use fix_fields::Moment;
use market_terms::Duty;
use quote_messages::OutMessage;
use quote_word::Settled;

/// What the dealer is told of the quote that a drop takes, where it takes one.
pub(crate) fn drop_message(
    index: &DealerIndex,
    last: u32,
    settlement: Option<Settled>,
) -> Option<OutMessage<'_>>
    ensures { result ≡ option_map (spec.drop_message settlement)
        (quote_to_drop index.now.book last) }
{
    let own = index.quote_to_drop(last)?;
    Some(OutMessage::CancelReport {
        id: Some(own.quote.id.as_id()),
        status: cancel_status(settlement),
    })
}

/// What is noted of the drop of a quote, where it takes one.
pub(crate) fn drop_note(
    index: &DealerIndex,
    last: u32,
    settlement: Option<Settled>,
) -> Option<DealerNote>
    ensures { result ≡ notes.drop_note settlement (quote_to_drop index.now.book last) }
{
    index.quote_to_drop(last)?;
    late_cancel(settlement)
}

/// What is left to be done in the room of the quote that a drop takes.
pub(crate) fn unpost_of(
    index: &DealerIndex,
    last: u32,
    moment: Moment,
    settlement: Option<Settled>,
) -> Option<Duty>
    ensures { result
        ≡ spec.unpost_dropped index.now.rooms moment settlement
        (quote_to_drop index.now.book last) }
{
    let own = index.quote_to_drop(last)?;
    let so = is_withdrawn(settlement);
    unpost_where(so, index, own.quote.number, own.quote.request, moment)
}

/// The same drop once more, where another quote is left to be dropped.
pub(crate) fn further_drop(index: &DealerIndex, last: u32, moment: Moment) -> Option<Duty>
    ensures { result ≡ spec.further_drop index.now.book last moment }
{
    if index.quote_to_drop(last).is_none() {
        return None;
    }
    Some(Duty::Drop { last, moment })
}

/// Notes the settlement of the word of the quote that a drop takes, where it takes one.
pub(crate) fn note_drop(index: &mut DealerIndex, last: u32, settlement: Option<Settled>)
    requires { IsSound index.old.book.requests index.old.book.quotes }
    ensures { index.new ≡ with_facts index.old
        (spec.settled_facts (number_to_drop index.old.book last) by.Cancel settlement) }
{
    let Some(quote) = number_to_drop(index, last) else {
        return;
    };
    match settlement {
        Some(Settled::Withdrawn) => index.cancel(quote),
        Some(Settled::Lifted) => index.find_lifted(quote),
        None => {}
    }
}

/// The own number of the quote that a drop takes: it is live.
fn number_to_drop(index: &DealerIndex, last: u32) -> Option<u32>
    requires { IsSound index.now.book.requests index.now.book.quotes }
    ensures number { result ≡ number_to_drop index.now.book last }
    ensures live { IfSome result (λ quote. IsLiveNumber index.now.book.quotes quote) }
{
    let Some(own) = index.quote_to_drop(last) else {
        return None;
    };
    Some(own.quote.number)
}
