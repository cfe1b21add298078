//! The lines of due text that are an item each, all but `say` lines.
ghost use Rattle.std.specs.Prelude.{◌≡◌, IfOk};
ghost use Rattle.input_lines.specs.DueLines as spec;

use crate::frame_lines::{read_hexed, read_received};
use crate::parts::{cut_part, has_part_behind, read_side, read_time, same_text};
use bond_prices::{Band, Grid, read_price};
use fix_fields::{Date, Memory};
use quote_messages::{Ask, Close, FirmMessage, Quantity, read_long_number, read_number};
use std::alloc::Global;
use step_replay::Due;
use venue_rows::{BondId, Name};

/// What a line other than `say` makes due, by its keyword, or none where it is of no form.
pub(crate) fn read_by_keyword(
    alloc: Global,
    date: &Date,
    keyword: &[u8],
    text: &[u8],
) -> Result<Option<Due>, Memory>
    ensures { IfOk result (λ due. due ≡ spec.due_by_keyword date.now keyword.now text.now) }
{
    if same_text(keyword, b"shown") {
        return Ok(read_shown(date, text));
    }
    if same_text(keyword, b"own") {
        return read_own(alloc, date, text);
    }
    if same_text(keyword, b"hex") {
        return read_hex(alloc, date, text);
    }
    if same_text(keyword, b"lifted") {
        return Ok(read_lifted(text));
    }
    if same_text(keyword, b"closed") {
        return Ok(read_closed(date, text));
    }
    if same_text(keyword, b"drop") {
        return Ok(read_drop(date, text));
    }
    Ok(None)
}

/// Behind `own`: `TIME FRAME`.
fn read_own(alloc: Global, date: &Date, text: &[u8]) -> Result<Option<Due>, Memory>
    ensures { IfOk result (λ due. due ≡ spec.own_of date.now text.now) }
{
    let Some((moment, message)) = read_received(alloc, date, text)? else {
        return Ok(None);
    };
    Ok(Some(Due::Own(moment, FirmMessage::new(message))))
}

/// Behind `hex`: `TIME HEX`.
fn read_hex(alloc: Global, date: &Date, text: &[u8]) -> Result<Option<Due>, Memory>
    ensures { IfOk result (λ due. due ≡ spec.hex_of date.now text.now) }
{
    let Some((moment, message)) = read_hexed(alloc, date, text)? else {
        return Ok(None);
    };
    Ok(Some(Due::Own(moment, FirmMessage::new(message))))
}

/// Behind `shown`: `INVESTOR BOND SIDE QUANTITY DEADLINE TIME`, `GRID` where it is given, and `LOW
/// HIGH` where they are.
#[tactic(auto, unfolding(crate::specs::DueLines::shown_of))]
fn read_shown(date: &Date, text: &[u8]) -> Option<Due>
    ensures { result ≡ spec.shown_of date.now text.now }
{
    let (investor, rest) = cut_part(text);
    let (bond, rest) = cut_part(rest);
    let (side, rest) = cut_part(rest);
    let (quantity, rest) = cut_part(rest);
    let (deadline, rest) = cut_part(rest);
    let (time, limits) = cut_part(rest);
    let ask = Ask {
        investor: Name::of_firm(investor)?,
        bond: BondId::new(bond)?,
        side: read_side(side)?,
        quantity: Quantity::new(read_long_number(quantity)?)?,
        deadline: read_time(date, deadline)?,
        grid: read_grid(rest)?,
        band: read_band(limits)?,
    };
    let moment = read_time(date, time)?;
    Some(Due::Shown(ask, moment))
}

/// GRID, where it stands behind TIME, and else the finest.
fn read_grid(text: &[u8]) -> Option<Grid>
    ensures { result ≡ spec.grid_behind text.now }
{
    if !has_part_behind(text) {
        return Some(Grid::FINEST);
    }
    let (_, limits) = cut_part(text);
    let (grid, _) = cut_part(limits);
    let steps = read_number(grid)?;
    Grid::new(steps as u32)
}

/// LOW HIGH, where they stand behind GRID, and else the band of every price.
pub fn read_band(text: &[u8]) -> Option<Band>
    ensures { result ≡ spec.band_behind text.now }
{
    if !has_part_behind(text) {
        return Some(Band::WHOLE);
    }
    let (_, ends) = cut_part(text);
    let (low, high) = cut_part(ends);
    let low = read_price(low).ok()?;
    let high = read_price(high).ok()?;
    Some(Band { low, high })
}

/// Behind `lifted`: the number of a quote.
fn read_lifted(text: &[u8]) -> Option<Due>
    ensures { result ≡ spec.lifted_of text.now }
{
    let quote = read_number(text)?;
    Some(Due::Lifted(quote as u32))
}

/// Behind `closed`: `N KIND TIME`.
#[tactic(auto, unfolding(crate::specs::DueLines::closed_of))]
fn read_closed(date: &Date, text: &[u8]) -> Option<Due>
    ensures { result ≡ spec.closed_of date.now text.now }
{
    let (number, rest) = cut_part(text);
    let (kind, time) = cut_part(rest);
    let number = read_number(number)?;
    let close = read_close(kind)?;
    let moment = read_time(date, time)?;
    Some(Due::Closed(number, close, moment))
}

/// Behind `drop`: `LAST TIME`.
#[tactic(auto, unfolding(crate::specs::DueLines::drop_of))]
fn read_drop(date: &Date, text: &[u8]) -> Option<Due>
    ensures { result ≡ spec.drop_of date.now text.now }
{
    let (last, time) = cut_part(text);
    let last = read_number(last)?;
    let moment = read_time(date, time)?;
    Some(Due::Drop(last as u32, moment))
}

/// KIND, how a request ended: the digit of QuoteRespType (694).
fn read_close(text: &[u8]) -> Option<Close>
    ensures { result ≡ spec.close_of text.now }
{
    if same_text(text, b"1") {
        return Some(Close::Hit);
    }
    if same_text(text, b"3") {
        return Some(Close::Expired);
    }
    if same_text(text, b"4") {
        return Some(Close::Cover);
    }
    if same_text(text, b"5") {
        return Some(Close::DoneAway);
    }
    if same_text(text, b"6") {
        return Some(Close::Pass);
    }
    None
}
