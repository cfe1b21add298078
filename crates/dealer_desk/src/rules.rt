//! The rules of the market for a dealer, over the index of its desk.
ghost use Rattle.std.specs.Prelude.{◌≡◌, ◌+◌, Some, None, MatchResult, IsTrue, is_some};
ghost use Rattle.fix_fields.specs.Frame.{frame_of};
ghost use Rattle.market_terms.specs.Checks.{first_refusal, is_not_after};
ghost use Rattle.dealer_desk.specs.DealerRules as spec;
ghost use Rattle.dealer_desk.specs.DealerFacts.{live_number_on, has_lifted_quote, quotes_accepted};
ghost use Rattle.dealer_desk.specs.RuleCuts.{row_checks, terms_checks, day_checks};

use crate::cancels::{cancel_verdict, decline_verdict};
use crate::index::DealerIndex;
use crate::table::RequestRow;
use crate::{AcceptedQuote, DealerVerdict, QuoteRefusal};
use bond_prices::{Grid, PriceFault, Ticks, in_band, on_grid};
use fix_fields::{Date, Moment};
use market_terms::{Ask, IdBuf, Quantity, Side};
use quote_messages::{Arrival, DealerMessage, Quote, receive_dealer, receive_dealer_frame};
use venue_rows::DealerRow;

/// The verdict on bytes that came at a moment, by the index as it stands.
#[tactic(auto, unfolding(crate::specs::DealerRules::dealer_verdict))]
pub(crate) fn dealer_verdict<'a>(
    date: &Date,
    row: &DealerRow,
    index: &DealerIndex,
    moment: Moment,
    bytes: &'a [u8],
) -> DealerVerdict<'a>
    ensures { result ≡ spec.dealer_verdict date.now row.now index.now.book moment bytes.now }
{
    let arrival = receive_dealer(date, row, index.expected_number(), bytes);
    let verdict = arrival_verdict(row, index, moment, arrival);
    verdict
}

/// The same of bytes that are known to be a frame: that is not tested again.
#[tactic(auto, unfolding(crate::specs::DealerRules::dealer_verdict))]
pub(crate) fn frame_verdict<'a>(
    date: &Date,
    row: &DealerRow,
    index: &DealerIndex,
    moment: Moment,
    bytes: &'a [u8],
) -> DealerVerdict<'a>
    requires { IsTrue (is_some (frame_of bytes.now)) }
    ensures { result ≡ spec.dealer_verdict date.now row.now index.now.book moment bytes.now }
{
    let arrival = receive_dealer_frame(date, row, index.expected_number(), bytes);
    let verdict = arrival_verdict(row, index, moment, arrival);
    verdict
}

/// The verdict on what became of a message before the market looks at it.
#[inline(always)]
fn arrival_verdict<'a>(
    row: &DealerRow,
    index: &DealerIndex,
    moment: Moment,
    arrival: Arrival<'a, DealerMessage<'a>>,
) -> DealerVerdict<'a>
    ensures { result ≡ spec.arrival_verdict row.now index.now.book moment arrival.entry }
{
    match arrival {
        Arrival::Dropped => DealerVerdict::Dropped,
        Arrival::OutOfSequence(reject) => DealerVerdict::OutOfSequence(reject),
        Arrival::Rejected(reject) => DealerVerdict::Rejected(reject),
        Arrival::Taken(DealerMessage::Quote(quote)) => quote_verdict(row, index, moment, quote),
        Arrival::Taken(DealerMessage::Cancel(cancel)) => cancel_verdict(index, cancel.scope),
        Arrival::Taken(DealerMessage::Decline(decline)) => decline_verdict(index, decline.request),
    }
}

/// The verdict on a quote.
#[tactic(auto, unfolding(crate::specs::DealerRules::quote_verdict))]
fn quote_verdict<'a>(
    row: &DealerRow,
    index: &DealerIndex,
    moment: Moment,
    quote: Quote<'a>,
) -> DealerVerdict<'a>
    ensures { result ≡ spec.quote_verdict row.now index.now.book moment quote.entry }
{
    let Some(shown) = index.request_named(quote.request.as_bytes()) else {
        return refused(quote, QuoteRefusal::UnknownRequest);
    };
    match check_quote(row, index, moment, &quote, shown) {
        Err(refusal) => refused(quote, refusal),
        Ok(kept) => DealerVerdict::QuoteAccepted {
            request: quote.request,
            id: quote.id,
            quote: kept,
            replaced: shown.live,
        },
    }
}

/// What the desk keeps of a quote that no check refuses, or the reason of the first check that
/// does.
#[tactic(auto, unfolding(crate::specs::DealerRules::quote_refusal))]
fn check_quote(
    row: &DealerRow,
    index: &DealerIndex,
    moment: Moment,
    quote: &Quote,
    shown: &RequestRow,
) -> Result<AcceptedQuote, QuoteRefusal>
    requires live { shown.now.live ≡ live_number_on index.now.book shown.now.request.number }
    requires lifted { shown.now.has_lifted
        ≡ has_lifted_quote index.now.book shown.now.request.number }
    ensures { MatchResult result
        (λ kept. (spec.quote_refusal row.now index.now.book moment quote.now
        (Some shown.now.request) ≡ None)
        × (kept ≡ spec.quote_kept index.now.book moment quote.now shown.now.request))
        (λ reason. spec.quote_refusal row.now index.now.book moment quote.now
        (Some shown.now.request) ≡ Some reason) }
{
    if let Some(reason) = standing_refusal(shown) {
        return Err(reason);
    }
    let price = match price_by_terms(moment, quote, &shown.request.ask) {
        Ok(price) => price,
        Err(reason) => return Err(reason),
    };
    match number_in_day(row, index, moment, quote, shown) {
        Ok(number) => Ok(kept(number, quote, shown, price, moment)),
        Err(reason) => Err(reason),
    }
}

/// Why a request takes no quote of this dealer at all, if it does not.
fn standing_refusal(shown: &RequestRow) -> Option<QuoteRefusal>
    ensures { result ≡ first_refusal (row_checks shown.now) }
{
    if shown.request.is_declined {
        return Some(QuoteRefusal::Declined);
    }
    if shown.request.is_told || shown.has_lifted {
        return Some(QuoteRefusal::Closed);
    }
    None
}

/// The price of a quote whose terms fit the ask, or the reason of the first of these checks that
/// refuses it.
fn price_by_terms(moment: Moment, quote: &Quote, ask: &Ask) -> Result<Ticks, QuoteRefusal>
    ensures { MatchResult result
        (λ price. (first_refusal (terms_checks moment quote.now ask.now) ≡ None)
        × (spec.price_for ask.now quote.now ≡ Some price))
        (λ reason. first_refusal (terms_checks moment quote.now ask.now) ≡ Some reason) }
{
    if ask.deadline <= moment {
        return Err(QuoteRefusal::DeadlinePassed);
    }
    if quote.bond.as_bytes() != ask.bond.as_bytes() {
        return Err(QuoteRefusal::OtherBond);
    }
    let Some(price) = price_for(ask, quote) else {
        return Err(QuoteRefusal::InvalidPrice);
    };
    if !in_band(price, ask.band) {
        return Err(QuoteRefusal::OutsideBand);
    }
    if sizes_differ(ask.quantity, quote) {
        return Err(QuoteRefusal::OtherQuantity);
    }
    if differs_from(TRADEABLE, quote.quote_type) {
        return Err(QuoteRefusal::NotTradeable);
    }
    Ok(price)
}

/// The own number of a quote that the dealer's day leaves room for, or the reason of the first of
/// these checks that refuses it.
fn number_in_day(
    row: &DealerRow,
    index: &DealerIndex,
    moment: Moment,
    quote: &Quote,
    shown: &RequestRow,
) -> Result<u32, QuoteRefusal>
    requires { shown.now.live ≡ live_number_on index.now.book shown.now.request.number }
    ensures { MatchResult result
        (λ number. (first_refusal
        (day_checks row.now index.now.book moment quote.now shown.now.request) ≡ None)
        × (number ≡ quotes_accepted index.now.book + 1))
        (λ reason. first_refusal
        (day_checks row.now index.now.book moment quote.now shown.now.request) ≡ Some reason) }
{
    if index.quote_with_id(&quote.id).is_some() {
        return Err(QuoteRefusal::DuplicateQuote);
    }
    if is_not_after(moment, quote.valid_until) {
        return Err(QuoteRefusal::ValidityPassed);
    }
    let accepted = index.quotes_accepted();
    if row.quotes <= accepted {
        return Err(QuoteRefusal::QuotesUsedUp);
    }
    let quantity = shown.request.ask.quantity.get();
    if row.exposure < quantity + index.exposure_beside(shown.live) {
        return Err(QuoteRefusal::ExposureExceeded);
    }
    Ok(accepted + 1)
}

/// QuoteType (537) of a quote that can be hit.
const TRADEABLE: u64 = 1;

/// Whether BidSize (134) or OfferSize (135) stands and is not the quantity that is asked for.
fn sizes_differ(quantity: Quantity, quote: &Quote) -> bool
    ensures { result ≡ spec.sizes_differ quantity quote.now }
{
    if differs_from(quantity.get(), units(quote.bid_size)) {
        return true;
    }
    differs_from(quantity.get(), units(quote.offer_size))
}

/// The number of units of a quantity.
fn units(quantity: Option<Quantity>) -> Option<u64>
    ensures { result ≡ quantity }
{
    match quantity {
        Some(quantity) => Some(quantity.get()),
        None => None,
    }
}

/// Whether a value stands and is not the one that is wanted.
fn differs_from(wanted: u64, found: Option<u64>) -> bool
    ensures { result ≡ spec.differs_from wanted found }
{
    match found {
        Some(found) => found != wanted,
        None => false,
    }
}

/// Whether a moment until which a quote is valid stands and is not after this moment.
fn is_not_after(moment: Moment, until: Option<Moment>) -> bool
    ensures { result ≡ is_not_after moment until }
{
    match until {
        Some(until) => until <= moment,
        None => false,
    }
}

/// The price at which a quote answers an ask: on the asked side, on the grid of the bond, with none
/// on the other side.
#[tactic(auto, unfolding(crate::specs::DealerRules::price_for))]
fn price_for(ask: &Ask, quote: &Quote) -> Option<Ticks>
    ensures { result ≡ spec.price_for ask.now quote.now }
{
    match ask.side {
        Side::Buy => if_on_grid(ask.grid, lone_price(quote.offer, quote.bid)),
        Side::Sell => if_on_grid(ask.grid, lone_price(quote.bid, quote.offer)),
    }
}

/// A price, where it is on the grid.
fn if_on_grid(grid: Grid, price: Option<Ticks>) -> Option<Ticks>
    ensures { result ≡ spec.if_on_grid grid price }
{
    let price = price?;
    if !on_grid(price, grid) {
        return None;
    }
    Some(price)
}

/// A lawful price that stands alone.
fn lone_price(
    asked: Option<Result<Ticks, PriceFault>>,
    other: Option<Result<Ticks, PriceFault>>,
) -> Option<Ticks>
    ensures { result ≡ spec.lone_price asked other }
{
    match (asked, other) {
        (Some(Ok(price)), None) => Some(price),
        _ => None,
    }
}

/// The refusal of a quote.
fn refused(quote: Quote<'_>, refusal: QuoteRefusal) -> DealerVerdict<'_>
    ensures { result ≡ spec.quote_refused quote.entry refusal }
{
    DealerVerdict::QuoteRefused {
        request: quote.request,
        id: quote.id,
        refusal,
    }
}

/// What the desk keeps of a quote on a request, at a price.
fn kept(
    number: u32,
    quote: &Quote,
    shown: &RequestRow,
    price: Ticks,
    moment: Moment,
) -> AcceptedQuote
    ensures { result ≡ record {
      number = number;
      id = quote.now.id;
      request = shown.now.request.number;
      trader = quote.now.trader;
      bond = shown.now.request.ask.bond;
      side = shown.now.request.ask.side;
      quantity = shown.now.request.ask.quantity;
      price = price;
      valid_until = quote.now.valid_until;
      moment = moment;
    } }
{
    AcceptedQuote {
        number,
        id: IdBuf::of(&quote.id),
        request: shown.request.number,
        trader: quote.trader.copy(),
        bond: shown.request.ask.bond,
        side: shown.request.ask.side,
        quantity: shown.request.ask.quantity,
        price,
        valid_until: quote.valid_until,
        moment,
    }
}
