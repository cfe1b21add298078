//! Blotters, line by line.
ghost use Rattle.std.specs.Prelude.{◌≡◌, [], ◌∷◌, ◌++◌, codes, decimal, string_bytes};
ghost use Rattle.std.specs.Prelude.{IfOk, OnOk};
ghost use Rattle.std.specs.List.{flat_map};
ghost use Rattle.blotter.specs.BlotterText as spec;
ghost use Rattle.bond_prices.specs.ThirtySeconds as prices;
ghost use Rattle.fix_fields.specs.TimeOfDay as times;
ghost use Rattle.market_terms.specs.DayLines.{lines_in};
ghost use Rattle.blotter.specs.LineCuts as cuts;

use crate::columns::{push_column, push_left, push_number, push_right};
use arrayvec::ArrayString;
use bond_prices::{Ticks, thirty_seconds};
use fix_fields::{Memory, Moment, time_text};
use itoa::Buffer;
use market_terms::{FirmLines, Quantity, QuoteLine, QuoteState, RequestLine, RequestState, Side};
use std::alloc::Global;
use venue_rows::{BondId, Name};

/// A firm's blotter: one line for each of a dealer's accepted quotes, or of an investor's accepted
/// requests, in their order, each ended by a line feed.
///
/// A dealer's line has the quote's own number, the moment (`HH:MM:SS.sss`), the trader (50), `R` and
/// the request's number (131), the bond (48), `B` or `S` where the investor buys or sells (54), the
/// quantity (38), the price in 32nds of a point, and what became of the quote. An investor's has
/// the request's own number, the moment, the trader, the bond, the side, the quantity, and what
/// became of the request. A value that is wider than its column stands whole.
pub fn blotter_text(alloc: Global, lines: &FirmLines<'_>) -> Result<String, Memory>
    ensures { IfOk result (λ text. string_bytes text
        ≡ spec.blotter_text (lines_in lines.now)) }
{
    match lines {
        FirmLines::Dealer(quotes) => quotes_text(alloc, quotes),
        FirmLines::Investor(requests) => requests_text(alloc, requests),
    }
}

/// The lines of a dealer's quotes.
fn quotes_text(alloc: Global, quotes: &[QuoteLine]) -> Result<String, Memory>
    ensures { IfOk result (λ text. string_bytes text ≡ flat_map spec.quote_line quotes.now) }
{
    let mut text = String::new(alloc);
    for quote in quotes {
        push_quote(&mut text, quote)?;
    }
    Ok(text)
}

/// The lines of an investor's requests.
fn requests_text(alloc: Global, requests: &[RequestLine]) -> Result<String, Memory>
    ensures { IfOk result (λ text. string_bytes text ≡ flat_map spec.request_line requests.now) }
{
    let mut text = String::new(alloc);
    for request in requests {
        push_request(&mut text, request)?;
    }
    Ok(text)
}

/// The line of a quote.
#[tactic(auto, unfolding(crate::specs::BlotterText::quote_line))]
fn push_quote(text: &mut String, line: &QuoteLine) -> Result<(), Memory>
    ensures { OnOk result (string_bytes text.new
        ≡ string_bytes text.old ++ spec.quote_line line.now) }
{
    push_entry(text, line.q, line.moment, &line.trader)?;
    push_request_number(text, line.request)?;
    push_terms(text, &line.bond, line.side, line.quantity)?;
    push_quote_end(text, line.price, line.state)?;
    Ok(())
}

/// Price and state, and the line feed.
fn push_quote_end(text: &mut String, price: Ticks, state: QuoteState) -> Result<(), Memory>
    ensures { OnOk result (string_bytes text.new
        ≡ string_bytes text.old ++ cuts.quote_end price state) }
{
    push_price(text, price)?;
    text.push_str(quote_state(state))?;
    text.push('\n')?;
    Ok(())
}

/// The line of a request.
#[tactic(auto, unfolding(crate::specs::BlotterText::request_line))]
fn push_request(text: &mut String, line: &RequestLine) -> Result<(), Memory>
    ensures { OnOk result (string_bytes text.new
        ≡ string_bytes text.old ++ spec.request_line line.now) }
{
    push_entry(text, line.n, line.moment, &line.trader)?;
    push_terms(text, &line.bond, line.side, line.quantity)?;
    push_request_state(text, &line.state)?;
    text.push('\n')?;
    Ok(())
}

/// Number, moment and trader, each with the space behind it.
fn push_entry(text: &mut String, number: u32, moment: Moment, trader: &Name) -> Result<(), Memory>
    ensures { OnOk result (string_bytes text.new
        ≡ string_bytes text.old ++ cuts.entry_text number moment trader.now) }
{
    push_number(text, 4, u64::from(number))?;
    push_time(text, moment)?;
    push_left(text, 8, trader.as_str())?;
    Ok(())
}

/// A moment, with the space behind it.
fn push_time(text: &mut String, moment: Moment) -> Result<(), Memory>
    ensures { OnOk result (string_bytes text.new
        ≡ string_bytes text.old ++ times.time_text moment ++ 32 ∷ []) }
{
    push_column(text, time_text(moment).as_str())?;
    Ok(())
}

/// A price in 32nds at the right of its column, with the space behind it.
fn push_price(text: &mut String, price: Ticks) -> Result<(), Memory>
    ensures { OnOk result (string_bytes text.new
        ≡ string_bytes text.old ++ spec.right_in 7 (prices.thirty_seconds price) ++ 32 ∷ []) }
{
    push_right(text, 7, thirty_seconds(price).as_str())?;
    Ok(())
}

/// `R` and the number of a request, with the space behind it.
fn push_request_number(text: &mut String, number: u64) -> Result<(), Memory>
    ensures { OnOk result (string_bytes text.new
        ≡ string_bytes text.old ++ spec.left_in 5 (codes "R" ++ decimal number) ++ 32 ∷ []) }
{
    let mut digits = Buffer::new();
    let mut name = ArrayString::<32>::new();
    name.push('R');
    name.push_str(digits.format(number));
    push_left(text, 5, name.as_str())?;
    Ok(())
}

/// Bond, side and quantity, each with the space behind it.
fn push_terms(
    text: &mut String,
    bond: &BondId,
    side: Side,
    quantity: Quantity,
) -> Result<(), Memory>
    ensures { OnOk result (string_bytes text.new
        ≡ string_bytes text.old ++ cuts.terms_text bond.now side quantity) }
{
    push_column(text, bond.as_str())?;
    push_column(text, side_letter(side))?;
    push_number(text, 13, quantity.get())?;
    Ok(())
}

/// `B` where the investor buys, `S` where it sells.
fn side_letter(side: Side) -> &'static str
    ensures { result.now ≡ spec.side_letter side }
{
    match side {
        Side::Buy => "B",
        Side::Sell => "S",
    }
}

/// What became of a quote.
fn quote_state(state: QuoteState) -> &'static str
    ensures { result.now ≡ spec.quote_state state }
{
    match state {
        QuoteState::Withdrawn => "withdrawn",
        QuoteState::Replaced => "replaced",
        QuoteState::Lifted => "lifted",
        QuoteState::Ended => "ended",
        QuoteState::Live => "live",
    }
}

/// What became of a request.
fn push_request_state(text: &mut String, state: &RequestState) -> Result<(), Memory>
    ensures { OnOk result (string_bytes text.new
        ≡ string_bytes text.old ++ spec.request_state state.now) }
{
    match state {
        RequestState::Open => text.push_str("open"),
        RequestState::Passed => text.push_str("passed"),
        RequestState::Expired => text.push_str("expired"),
        RequestState::Won { dealer, price } => push_award(text, dealer, *price),
    }
}

/// An award, with the dealer and the price.
fn push_award(text: &mut String, dealer: &Name, price: Ticks) -> Result<(), Memory>
    ensures { OnOk result (string_bytes text.new
        ≡ string_bytes text.old ++ spec.award_text dealer.now price) }
{
    text.push_str("won ")?;
    text.push_str(dealer.as_str())?;
    text.push(' ')?;
    text.push_str(thirty_seconds(price).as_str())?;
    Ok(())
}
