//! The rules of the market for an investor, over the index of its desk.
ghost use Rattle.std.specs.Prelude.{◌≡◌, ◌+◌, ◌≤◌, ◌||◌, true, false, not, nat_lt, length};
ghost use Rattle.std.specs.Prelude.{if◌then◌else◌, Some, None, MatchResult, MatchOption};
ghost use Rattle.std.specs.List.{list_any};
ghost use Rattle.venue_rows.specs.Texts.{same_text};
ghost use Rattle.market_terms.specs.Checks.{first_refusal};
ghost use Rattle.venue_rows.specs.declared.bond_rows.BondRow.{BondRow};
ghost use Rattle.investor_desk.specs.InvestorRules as spec;
ghost use Rattle.investor_desk.specs.InvestorFacts.{requests_accepted};
ghost use Rattle.investor_desk.specs.RuleCuts.{terms_checks, dealer_checks, day_checks};
ghost use Rattle.investor_desk.specs.RuleCuts.{are_different};

use crate::index::InvestorIndex;
use crate::market::Market;
use crate::{AcceptedRequest, InvestorVerdict, RequestRefusal};
use arrayvec::ArrayVec;
use fix_fields::Moment;
use market_terms::{Ask, AskedDealers, Id, IdBuf, ResponseRef};
use quote_messages::{
    Arrival, InvestorMessage, NamedDealers, QuoteHit, QuoteRequest, RequestPass, receive_investor,
};
use venue_rows::BondRow;

/// The verdict on bytes that came at a moment, by the index as it stands.
#[tactic(auto, unfolding(crate::specs::InvestorRules::investor_verdict))]
pub(crate) fn investor_verdict<'a>(
    market: &Market,
    index: &InvestorIndex,
    moment: Moment,
    bytes: &'a [u8],
) -> InvestorVerdict<'a>
    ensures { result ≡ spec.investor_verdict market.now index.now moment bytes.now }
{
    match receive_investor(&market.date, &market.row, index.expected_number(), bytes) {
        Arrival::Dropped => InvestorVerdict::Dropped,
        Arrival::OutOfSequence(reject) => InvestorVerdict::OutOfSequence(reject),
        Arrival::Rejected(reject) => InvestorVerdict::Rejected(reject),
        Arrival::Taken(InvestorMessage::Request(request)) => {
            request_verdict(market, index, moment, request)
        }
        Arrival::Taken(InvestorMessage::Hit(hit)) => hit_verdict(index, hit),
        Arrival::Taken(InvestorMessage::Pass(pass)) => pass_verdict(index, pass),
    }
}

/// The verdict on a request.
#[tactic(auto, unfolding(crate::specs::InvestorRules::request_verdict))]
fn request_verdict<'a>(
    market: &Market,
    index: &InvestorIndex,
    moment: Moment,
    request: QuoteRequest<'a>,
) -> InvestorVerdict<'a>
    ensures { result ≡ spec.request_verdict market.now index.now moment request.entry }
{
    match check_request(market, index, moment, &request) {
        Err(refusal) => refused(request, refusal),
        Ok(kept) => InvestorVerdict::RequestAccepted {
            id: request.id,
            request: kept,
        },
    }
}

/// What the desk keeps of a request that no check refuses, or the first check that does.
#[tactic(auto, unfolding(crate::specs::InvestorRules::request_refusal))]
fn check_request(
    market: &Market,
    index: &InvestorIndex,
    moment: Moment,
    request: &QuoteRequest,
) -> Result<AcceptedRequest, RequestRefusal>
    ensures { MatchResult result
        (λ kept. (spec.request_refusal market.now index.now moment request.now ≡ None)
        × (bond : BondRow) × (spec.bond_with_id market.now request.now.bond ≡ Some bond)
        × (kept ≡ spec.request_kept market.now index.now moment request.now bond))
        (λ refusal. spec.request_refusal market.now index.now moment request.now ≡ Some refusal) }
{
    let bond = match bond_by_terms(market, index, request) {
        Ok(bond) => bond,
        Err(refusal) => return Err(refusal),
    };
    let dealers = match asked_dealers(market, request.dealers.again()) {
        Ok(dealers) => dealers,
        Err(refusal) => return Err(refusal),
    };
    match number_in_day(market, index, moment, request) {
        Ok(number) => Ok(kept(market, number, request, bond, dealers, moment)),
        Err(refusal) => Err(refusal),
    }
}

/// The bond of a request whose terms are lawful, or the first of these checks that refuses it.
fn bond_by_terms(
    market: &Market,
    index: &InvestorIndex,
    request: &QuoteRequest,
) -> Result<BondRow, RequestRefusal>
    ensures { MatchResult result
        (λ bond. (first_refusal (terms_checks market.now index.now request.now) ≡ None)
        × (spec.bond_with_id market.now request.now.bond ≡ Some bond))
        (λ refusal. first_refusal (terms_checks market.now index.now request.now) ≡ Some refusal) }
{
    if index.request_with_id(&request.id).is_some() {
        return Err(RequestRefusal::DuplicateRequest);
    }
    let Some(bond) = market.bond_with_id(request.bond.as_bytes()) else {
        return Err(RequestRefusal::UnknownBond);
    };
    if request.quantity.get() > market.row.quantity {
        return Err(RequestRefusal::QuantityExceeded);
    }
    Ok(bond)
}

/// The dealers that a request names, or the first of these checks that refuses it.
fn asked_dealers(market: &Market, names: NamedDealers<'_>) -> Result<AskedDealers, RequestRefusal>
    ensures { MatchResult result
        (λ dealers. (first_refusal (dealer_checks market.now names.entry) ≡ None)
        × (dealers ≡ spec.dealer_numbers market.now names.entry))
        (λ refusal. first_refusal (dealer_checks market.now names.entry) ≡ Some refusal) }
{
    let Some(numbers) = dealer_numbers(market, names.again()) else {
        return Err(names_refusal(market, names));
    };
    if numbers.is_empty() {
        return Err(RequestRefusal::NoDealer);
    }
    match AskedDealers::new(numbers.as_slice()) {
        Some(dealers) => Ok(dealers),
        None => Err(RequestRefusal::DealerTwice),
    }
}

/// Why names are refused of which one is unknown, or which are too many: the first of these checks
/// that refuses them.
fn names_refusal(market: &Market, names: NamedDealers<'_>) -> RequestRefusal
    requires { (list_any (spec.is_unknown_dealer market.now) names
        || nat_lt AskedDealers.MOST (length names)) ≡ true }
    ensures { first_refusal (dealer_checks market.now names.entry) ≡ Some result }
{
    if has_unknown(market, names.again()) {
        return RequestRefusal::UnknownDealer;
    }
    if has_one_twice(names) {
        return RequestRefusal::DealerTwice;
    }
    RequestRefusal::TooManyDealers
}

/// Whether no dealer has one of these names.
fn has_unknown(market: &Market, names: NamedDealers<'_>) -> bool
    ensures { result ≡ list_any (spec.is_unknown_dealer market.now) names.entry }
{
    for name in names {
        if market.dealer_named(name.as_bytes()).is_none() {
            return true;
        }
    }
    false
}

/// Whether one of these names stands twice. Of known ones it looks at no more than the venue has
/// dealers, since one more is one of them again.
fn has_one_twice(names: NamedDealers<'_>) -> bool
    ensures { result ≡ not (are_different names.entry) }
{
    let mut later = names;
    while let Some(name) = later.next() {
        if stands_in(later.again(), &name) {
            return true;
        }
    }
    false
}

/// Whether a name stands among these.
fn stands_in(names: NamedDealers<'_>, name: &Id<'_>) -> bool
    ensures { result ≡ list_any (λ other. same_text other name.now) names.entry }
{
    for other in names {
        if other.as_bytes() == name.as_bytes() {
            return true;
        }
    }
    false
}

/// The numbers of the dealers with these names, where all of them are known, and they are not too
/// many.
fn dealer_numbers(
    market: &Market,
    names: NamedDealers<'_>,
) -> Option<ArrayVec<u16, { AskedDealers::MOST }>>
    ensures { MatchOption result
        ((list_any (spec.is_unknown_dealer market.now) names.entry
        || nat_lt AskedDealers.MOST (length names.entry)) ≡ true)
        (λ numbers. (list_any (spec.is_unknown_dealer market.now) names.entry ≡ false)
        × (length names.entry ≤ AskedDealers.MOST)
        × (numbers.items ≡ spec.dealer_numbers market.now names.entry)) }
{
    let mut numbers = ArrayVec::new();
    for name in names {
        let number = market.dealer_named(name.as_bytes())?;
        numbers.try_push(number).ok()?;
    }
    Some(numbers)
}

/// The number of a request that the investor's day leaves room for, or the first of these checks that
/// refuses it.
fn number_in_day(
    market: &Market,
    index: &InvestorIndex,
    moment: Moment,
    request: &QuoteRequest,
) -> Result<u32, RequestRefusal>
    ensures { MatchResult result
        (λ number. (first_refusal (day_checks market.now index.now moment request.now) ≡ None)
        × (number ≡ requests_accepted index.now + 1))
        (λ refusal. first_refusal (day_checks market.now index.now moment request.now)
        ≡ Some refusal) }
{
    if request.deadline <= moment {
        return Err(RequestRefusal::DeadlinePassed);
    }
    let accepted = index.requests_accepted();
    if market.row.requests <= accepted {
        return Err(RequestRefusal::RequestsUsedUp);
    }
    if market.row.open_limit <= index.requests_open() {
        return Err(RequestRefusal::TooManyOpen);
    }
    Ok(accepted + 1)
}

/// What the desk keeps of a request in a bond.
fn kept(
    market: &Market,
    number: u32,
    request: &QuoteRequest,
    bond: BondRow,
    dealers: AskedDealers,
    moment: Moment,
) -> AcceptedRequest
    ensures { result ≡ record {
      number = number;
      id = request.now.id;
      trader = request.now.trader;
      ask = record {
        investor = market.now.row.name;
        bond = bond.id;
        side = request.now.side;
        quantity = request.now.quantity;
        deadline = request.now.deadline;
        grid = bond.grid;
        band = bond.band;
      };
      dealers = dealers;
      moment = moment;
    } }
{
    AcceptedRequest {
        number,
        id: IdBuf::of(&request.id),
        trader: request.trader.copy(),
        ask: Ask {
            investor: market.row.name.copy(),
            bond: bond.id,
            side: request.side,
            quantity: request.quantity,
            deadline: request.deadline,
            grid: bond.grid,
            band: bond.band,
        },
        dealers,
        moment,
    }
}

/// The refusal of a request.
fn refused(request: QuoteRequest<'_>, refusal: RequestRefusal) -> InvestorVerdict<'_>
    ensures { result ≡ spec.request_refused request.entry refusal }
{
    InvestorVerdict::RequestRefused {
        request: request.id,
        bond: request.bond,
        refusal,
    }
}

/// The verdict on a hit.
#[tactic(auto, unfolding(crate::specs::InvestorRules::hit_verdict))]
fn hit_verdict<'a>(index: &InvestorIndex, hit: QuoteHit<'a>) -> InvestorVerdict<'a>
    ensures { result ≡ spec.hit_verdict index.now hit.entry }
{
    let Some(shown) = index.offer_named(hit.quote.as_bytes()) else {
        return InvestorVerdict::HitUnknown {
            id: hit.id,
            quote: hit.quote,
        };
    };
    InvestorVerdict::Hits {
        request: shown.request,
        response: ResponseRef {
            id: IdBuf::of(&hit.id),
            k: Some(shown.number),
        },
        word: shown.offer.word,
    }
}

/// The verdict on a pass.
#[tactic(auto, unfolding(crate::specs::InvestorRules::pass_verdict))]
fn pass_verdict<'a>(index: &InvestorIndex, pass: RequestPass<'a>) -> InvestorVerdict<'a>
    ensures { result ≡ spec.pass_verdict index.now pass.entry }
{
    let Some(own) = index.request_with_id(&pass.request) else {
        return InvestorVerdict::PassUnknown {
            id: pass.id,
            request: pass.request,
        };
    };
    InvestorVerdict::Passes {
        request: own.request.number,
        response: ResponseRef {
            id: IdBuf::of(&pass.id),
            k: None,
        },
    }
}
