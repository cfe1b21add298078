//! What a desk sends for a verdict, what its index notes of it, and what is handed on.
ghost use Rattle.std.specs.Prelude.{◌≡◌, ◌<◌, ◌+◌, ◌^◌, ℕ, List, ◌∷◌, Some, None, OnOk, OnErr};
ghost use Rattle.std.specs.Prelude.{if◌then◌else◌};
ghost use Rattle.std.specs.Option.{option_map};
ghost use Rattle.dealer_desk.specs.DealerFacts.{Came};
ghost use Rattle.dealer_desk.specs.DealerOutput as spec;
ghost use Rattle.dealer_desk.specs.DealerNotes as notes;
ghost use Rattle.dealer_desk.specs.Refusals.{quote_reason};
ghost use Rattle.dealer_desk.specs.RuleCuts.{IsLawfulNote, note_of, note_of_quote, note_of_cancel};
ghost use Rattle.dealer_desk.specs.RuleCuts.{note_uses, note_facts, with_facts};

use crate::index::DealerIndex;
use crate::outcomes::{
    Note, Outcome, cancel_refused, decline_refused, numbered, quote_refused, unnumbered,
};
use crate::{AcceptedQuote, CancelRefusal, DealerNote, DealerRefusal, DealerVerdict, QuoteRefusal};
use fix_fields::{Memory, Moment};
use market_terms::{Duty, Id};
use quote_messages::{CancelStatus, OutMessage, QuoteRejectReason};
use quote_word::Settled;

/// Whether a word was asked and is withdrawn.
pub(crate) fn is_withdrawn(settlement: Option<Settled>) -> bool
    ensures { result ≡ spec.is_withdrawn settlement }
{
    match settlement {
        Some(Settled::Withdrawn) => true,
        Some(Settled::Lifted) => false,
        None => false,
    }
}

/// Whether nothing stands against what was decided: no word is asked, or the word is withdrawn.
fn goes_through(asked: Option<u32>, settlement: Option<Settled>) -> bool
    ensures { result ≡ spec.goes_through asked settlement }
{
    match asked {
        Some(_) => is_withdrawn(settlement),
        None => true,
    }
}

/// The status of a cancel whose quote's word has this settlement.
pub(crate) fn cancel_status(settlement: Option<Settled>) -> CancelStatus
    ensures { result ≡ spec.cancel_status settlement }
{
    if is_withdrawn(settlement) {
        return CancelStatus::Withdrawn;
    }
    CancelRefusal::Lifted.status()
}

/// What a verdict leads to, with the settlement of the word that it asks.
pub(crate) fn outcome_of(verdict: DealerVerdict<'_>, settlement: Option<Settled>) -> Outcome<'_>
    ensures note { result.note ≡ note_of verdict.entry settlement }
    ensures output { result.output ≡ spec.verdict_message verdict.entry settlement }
    ensures beside { result.beside ≡ notes.verdict_note verdict.entry settlement }
{
    match verdict {
        DealerVerdict::Dropped => unnumbered(None),
        DealerVerdict::OutOfSequence(reject) => unnumbered(Some(OutMessage::Reject(reject))),
        DealerVerdict::Rejected(reject) => numbered(OutMessage::Reject(reject)),
        DealerVerdict::QuoteRefused {
            request,
            id,
            refusal,
        } => quote_refused(request, id, refusal),
        DealerVerdict::CancelRefused { id, refusal } => cancel_refused(id, refusal),
        DealerVerdict::DeclineRefused { request, refusal } => decline_refused(request, refusal),
        DealerVerdict::QuoteAccepted {
            request,
            id,
            quote,
            replaced,
        } => Outcome {
            note: note_of_quote(quote, replaced, settlement),
            output: Some(quote_report(request, id, replaced, settlement)),
            beside: late_quote(replaced, settlement),
        },
        DealerVerdict::CancelAccepted { id, quote, .. } => Outcome {
            note: note_of_cancel(quote, settlement),
            output: Some(cancel_report(id, settlement)),
            beside: late_cancel(settlement),
        },
        DealerVerdict::DropsFollow { .. } => Outcome {
            note: Note::Number,
            output: None,
            beside: None,
        },
        DealerVerdict::DeclineAccepted { request, number } => Outcome {
            note: Note::Declined(number),
            output: Some(OutMessage::DeclineReport {
                request,
                refusal: None,
            }),
            beside: None,
        },
    }
}

/// The note of a refusal, unless what was decided goes through.
fn refused_unless(goes_through: bool, refusal: DealerRefusal) -> Option<DealerNote>
    ensures { result ≡ notes.refused_unless goes_through refusal }
{
    if goes_through {
        return None;
    }
    Some(DealerNote::Refused(refusal))
}

/// The note of a quote that no check refuses, with the settlement of the word that it asks.
fn late_quote(replaced: Option<u32>, settlement: Option<Settled>) -> Option<DealerNote>
    ensures { result ≡ notes.refused_unless (spec.goes_through replaced settlement)
        (DealerRefusal.Quote QuoteRefusal.Lifted) }
{
    refused_unless(
        goes_through(replaced, settlement),
        DealerRefusal::Quote(QuoteRefusal::Lifted),
    )
}

/// The note of a cancel, of one quote or of all, whose quote's word has this settlement.
pub(crate) fn late_cancel(settlement: Option<Settled>) -> Option<DealerNote>
    ensures { result ≡ notes.refused_unless (spec.is_withdrawn settlement)
        (DealerRefusal.Cancel CancelRefusal.Lifted) }
{
    refused_unless(
        is_withdrawn(settlement),
        DealerRefusal::Cancel(CancelRefusal::Lifted),
    )
}

/// What is noted of an accepted quote.
fn note_of_quote(quote: AcceptedQuote, replaced: Option<u32>, settlement: Option<Settled>) -> Note
    ensures { result ≡ note_of_quote quote replaced settlement }
{
    let Some(replaced) = replaced else {
        return Note::Accepted(quote);
    };
    match settlement {
        Some(Settled::Withdrawn) => Note::Replaced(replaced, quote),
        Some(Settled::Lifted) => Note::Late(replaced),
        None => Note::Number,
    }
}

/// What is noted of a cancel.
pub(crate) fn note_of_cancel(quote: u32, settlement: Option<Settled>) -> Note
    ensures { result ≡ note_of_cancel quote settlement }
{
    match settlement {
        Some(Settled::Withdrawn) => Note::Cancelled(quote),
        Some(Settled::Lifted) => Note::Late(quote),
        None => Note::Number,
    }
}

/// The report on an accepted quote.
fn quote_report<'a>(
    request: Id<'a>,
    id: Id<'a>,
    replaced: Option<u32>,
    settlement: Option<Settled>,
) -> OutMessage<'a>
    ensures { result ≡ OutMessage.QuoteReport request.entry id.entry
        (if spec.goes_through replaced settlement then None
        else Some (quote_reason QuoteRefusal.Lifted)) }
{
    OutMessage::QuoteReport {
        request,
        id,
        refusal: late_unless(goes_through(replaced, settlement)),
    }
}

/// The refusal of what comes too late, unless it goes through.
fn late_unless(goes_through: bool) -> Option<QuoteRejectReason>
    ensures { result ≡ (if goes_through then None else Some (quote_reason QuoteRefusal.Lifted)) }
{
    if goes_through {
        return None;
    }
    Some(QuoteRefusal::Lifted.reason())
}

/// The report on a cancel.
fn cancel_report(id: Id<'_>, settlement: Option<Settled>) -> OutMessage<'_>
    ensures { result ≡ OutMessage.CancelReport (Some id.entry) (spec.cancel_status settlement) }
{
    OutMessage::CancelReport {
        id: Some(id),
        status: cancel_status(settlement),
    }
}

/// Notes what a message leads to. After an error the index is as before.
#[tactic(auto, using(crate::proofs::NoteLemmas::nothing_noted))]
pub(crate) fn take_note(index: &mut DealerIndex, note: Note) -> Result<(), Memory>
    requires lawful { IsLawfulNote index.old.book note }
    requires fits { index.old.book.used + 1 < 2 ^ 63 }
    ensures ok { OnOk result ((moment : ℕ) (bytes : List ℕ) → index.new
        ≡ with_facts index.old (Came moment bytes (note_uses note) ∷ note_facts note)) }
    ensures err { OnErr result (index.new ≡ index.old) }
{
    let used = uses_number(&note);
    note_changes(index, note)?;
    if !used {
        return Ok(());
    }
    index.came();
    Ok(())
}

/// Whether a message used up its number.
fn uses_number(note: &Note) -> bool
    ensures { result ≡ note_uses note.now }
{
    match note {
        Note::Nothing => false,
        _ => true,
    }
}

/// Notes what a message leads to beside that it came. After an error the index is as before.
#[tactic(auto, using(crate::proofs::NoteLemmas::note_keeps_used))]
fn note_changes(index: &mut DealerIndex, note: Note) -> Result<(), Memory>
    requires lawful { IsLawfulNote index.old.book note }
    ensures ok { OnOk result (index.new ≡ with_facts index.old (note_facts note)) }
    ensures used { OnOk result (index.new.book.used ≡ index.old.book.used) }
    ensures err { OnErr result (index.new ≡ index.old) }
{
    match note {
        Note::Nothing => Ok(()),
        Note::Number => Ok(()),
        Note::Accepted(quote) => {
            index.accept(quote)?;
            Ok(())
        }
        Note::Replaced(replaced, quote) => {
            index.replace(replaced, quote)?;
            Ok(())
        }
        Note::Cancelled(quote) => {
            index.cancel(quote);
            Ok(())
        }
        Note::Late(quote) => {
            index.find_lifted(quote);
            Ok(())
        }
        Note::Declined(request) => {
            index.decline(request);
            Ok(())
        }
    }
}

/// What a message leaves to be done, by the index as it stood.
pub(crate) fn duty_of(
    index: &DealerIndex,
    moment: Moment,
    verdict: &DealerVerdict,
    settlement: Option<Settled>,
) -> Option<Duty>
    ensures { result ≡ spec.verdict_duty index.now.rooms moment verdict.now settlement }
{
    match verdict {
        DealerVerdict::QuoteAccepted {
            quote,
            replaced,
            ..
        } => post_where(goes_through(*replaced, settlement), index, quote),
        DealerVerdict::CancelAccepted { quote, request, .. } => {
            unpost_where(is_withdrawn(settlement), index, *quote, *request, moment)
        }
        DealerVerdict::DropsFollow { last } => Some(Duty::Drop {
            last: *last,
            moment,
        }),
        DealerVerdict::DeclineAccepted { number, .. } => decline_of(index, *number, moment),
        _ => None,
    }
}

/// The posting of a quote in the room of its request, where so.
fn post_where(so: bool, index: &DealerIndex, quote: &AcceptedQuote) -> Option<Duty>
    ensures { result
        ≡ (if so
        then option_map (spec.post_of quote.now) (spec.room_of index.now.rooms quote.now.request)
        else None) }
{
    if !so {
        return None;
    }
    let room = index.room_of(quote.request)?;
    Some(Duty::Post {
        room,
        quote: quote.number,
        price: quote.price,
        valid_until: quote.valid_until,
        moment: quote.moment,
    })
}

/// The taking of a quote out of the room of its request, where so.
pub(crate) fn unpost_where(
    so: bool,
    index: &DealerIndex,
    quote: u32,
    request: u64,
    moment: Moment,
) -> Option<Duty>
    ensures { result
        ≡ (if so
        then option_map (λ room. Duty.Unpost room quote moment)
        (spec.room_of index.now.rooms request)
        else None) }
{
    if !so {
        return None;
    }
    let room = index.room_of(request)?;
    Some(Duty::Unpost {
        room,
        quote,
        moment,
    })
}

/// The decline of a request in its room.
fn decline_of(index: &DealerIndex, number: u64, moment: Moment) -> Option<Duty>
    ensures { result
        ≡ option_map (λ room. Duty.Decline room moment) (spec.room_of index.now.rooms number) }
{
    let room = index.room_of(number)?;
    Some(Duty::Decline { room, moment })
}
