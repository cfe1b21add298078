//! The rules of the market for what a dealer takes back: cancels of quotes, and declines of
//! requests.
ghost use Rattle.std.specs.Prelude.{◌≡◌, [], ◌∷◌};
ghost use Rattle.market_terms.specs.Checks.{first_refusal};
ghost use Rattle.dealer_desk.specs.DealerRules as spec;
ghost use Rattle.dealer_desk.specs.RuleCuts.{decline_row_checks};

use crate::index::DealerIndex;
use crate::table::RequestRow;
use crate::{CancelRefusal, DealerVerdict, DeclineRefusal, QuoteEnd, StandingQuote};
use market_terms::Id;
use quote_messages::CancelScope;

/// The verdict on a QuoteCancel of these quotes.
#[tactic(auto, unfolding(crate::specs::DealerRules::cancel_verdict))]
pub(crate) fn cancel_verdict<'a>(index: &DealerIndex, scope: CancelScope<'a>) -> DealerVerdict<'a>
    ensures { result ≡ spec.cancel_verdict index.now.book scope.entry }
{
    match scope {
        CancelScope::One(id) => cancel_one(index, id),
        CancelScope::All(id) => cancel_all(index, id),
        CancelScope::Other { id, .. } => refused(id, CancelRefusal::UnknownCancelType),
    }
}

/// The verdict on a cancel of the quote with this QuoteID (117).
fn cancel_one<'a>(index: &DealerIndex, id: Id<'a>) -> DealerVerdict<'a>
    ensures { result ≡ spec.cancel_verdict index.now.book (CancelScope.One id.entry) }
{
    let Some(own) = index.quote_with_id(&id) else {
        return refused(Some(id), CancelRefusal::UnknownQuote);
    };
    if let Some(refusal) = cancel_refusal(own) {
        return refused(Some(id), refusal);
    }
    DealerVerdict::CancelAccepted {
        id,
        quote: own.quote.number,
        request: own.quote.request,
    }
}

/// The verdict on a cancel of all quotes.
fn cancel_all<'a>(index: &DealerIndex, id: Option<Id<'a>>) -> DealerVerdict<'a>
    ensures { result ≡ spec.cancel_all index.now.book id.entry }
{
    let last = index.quotes_accepted();
    if index.quote_to_drop(last).is_none() {
        return refused(id, CancelRefusal::NothingToCancel);
    }
    DealerVerdict::DropsFollow { last }
}

/// Why an accepted quote can't be cancelled any more, as far as the desk knows.
fn cancel_refusal(own: &StandingQuote) -> Option<CancelRefusal>
    ensures { result ≡ first_refusal (spec.cancel_checks own.now) }
{
    match own.end {
        Some(QuoteEnd::Withdrawn(_)) => Some(CancelRefusal::Withdrawn),
        Some(QuoteEnd::Closed(_)) => Some(CancelRefusal::Closed),
        None => closed_where(own.is_known_lifted),
    }
}

/// The refusal of a cancel that comes too late, where it does.
fn closed_where(so: bool) -> Option<CancelRefusal>
    ensures { result ≡ first_refusal ((so, CancelRefusal.Closed) ∷ []) }
{
    if so {
        return Some(CancelRefusal::Closed);
    }
    None
}

/// A cancel that withdraws nothing.
fn refused(id: Option<Id<'_>>, refusal: CancelRefusal) -> DealerVerdict<'_>
    ensures { result ≡ DealerVerdict.CancelRefused id.entry refusal }
{
    DealerVerdict::CancelRefused { id, refusal }
}

/// The verdict on a decline of the request with this QuoteReqID (131).
#[tactic(auto, unfolding(crate::specs::DealerRules::decline_verdict))]
pub(crate) fn decline_verdict<'a>(index: &DealerIndex, request: Id<'a>) -> DealerVerdict<'a>
    ensures { result ≡ spec.decline_verdict index.now.book request.entry }
{
    let Some(shown) = index.request_named(request.as_bytes()) else {
        return decline_refused(request, DeclineRefusal::UnknownRequest);
    };
    if let Some(refusal) = decline_refusal(shown) {
        return decline_refused(request, refusal);
    }
    DealerVerdict::DeclineAccepted {
        request,
        number: shown.request.number,
    }
}

/// Why a request that was shown can't be declined, if it can't.
fn decline_refusal(shown: &RequestRow) -> Option<DeclineRefusal>
    ensures { result ≡ first_refusal (decline_row_checks shown.now) }
{
    if shown.request.is_declined {
        return Some(DeclineRefusal::Declined);
    }
    if shown.request.is_told {
        return Some(DeclineRefusal::Closed);
    }
    if shown.live.is_some() {
        return Some(DeclineRefusal::LiveQuote);
    }
    None
}

/// The refusal of a decline.
fn decline_refused(request: Id<'_>, refusal: DeclineRefusal) -> DealerVerdict<'_>
    ensures { result ≡ DealerVerdict.DeclineRefused request.entry refusal }
{
    DealerVerdict::DeclineRefused { request, refusal }
}
