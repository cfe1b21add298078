//! The terms of the market at their limits.

use crate::parts::{ask_with_grid, id_of};
use crate::printing::{push_field, push_number, push_number_field, push_time_field};
use bond_prices::Band;
use case_lines::{
    Call, CaseFault, Words, band_of, bytes_of, push_bytes_line, push_line, push_truth,
};
use market_terms::{Ask, AskedDealers, Close, HitRefusal, Id, IdBuf, Quantity, Side};
use std::alloc::Global;
use std::cmp::Ordering;
use std::fmt::Write;

/// Makes a call of the place `terms`: quantities, identifiers, dealers that are asked, and codes.
///
/// - `quantity NUMBER`: the number, where it is a quantity. `most_quantity`, `most_dealers`: the
///   limits.
/// - `id BYTES`: the identifier, kept and copied. `order ID ID`: how two kept ones compare.
/// - `dealers NUMBER ..`: the dealers that a request may name, and their copy.
///   `names DEALER NUMBER ..`: whether a dealer is one of them.
/// - `sides`, `closes`, `refusals`: the codes (54, 694) and names.
/// - `ask INVESTOR BOND SIDE QUANTITY DEADLINE GRID [LOW HIGH]`: the copy of an ask.
pub(crate) fn call_terms(call: &mut Call<'_>) -> Result<(), CaseFault> {
    match call.name {
        "quantity" => push_quantity(&mut call.answer, &mut call.words),
        "id" => push_id(call.alloc, &mut call.answer, call.words.rest()),
        "order" => push_order(&mut call.answer, &mut call.words),
        "dealers" => push_dealers(call.alloc, &mut call.answer, call.words.rest()),
        "names" => push_names(call.alloc, &mut call.answer, &mut call.words),
        "ask" => push_ask(&mut call.answer, &mut call.words),
        _ => push_constants(call),
    }
}

/// The limits, the codes and the names.
fn push_constants(call: &mut Call<'_>) -> Result<(), CaseFault> {
    match call.name {
        "most_quantity" => push_number(&mut call.answer, Quantity::MOST),
        "most_dealers" => push_number(&mut call.answer, AskedDealers::MOST as u64),
        "sides" => push_sides(&mut call.answer),
        "closes" => push_closes(&mut call.answer),
        "refusals" => push_refusals(&mut call.answer),
        _ => Err(CaseFault::Form),
    }
}

/// `quantity NUMBER`: the number, where it is a quantity.
fn push_quantity(answer: &mut String, words: &mut Words) -> Result<(), CaseFault> {
    let number = words.number()?;
    match Quantity::new(number) {
        Some(quantity) => push_number(answer, quantity.get()),
        None => push_line(answer, "none"),
    }
}

/// `id BYTES`: the identifier; kept; its copy; and once more as an identifier.
fn push_id(alloc: Global, answer: &mut String, text: &str) -> Result<(), CaseFault> {
    let text = bytes_of(alloc, text)?;
    let Some(id) = Id::new(text.as_slice()) else {
        return push_line(answer, "none");
    };
    let kept = IdBuf::of(&id);
    push_bytes_line(answer, id.as_bytes())?;
    push_bytes_line(answer, kept.as_bytes())?;
    push_bytes_line(answer, kept.copy().as_bytes())?;
    push_bytes_line(answer, kept.as_id().as_bytes())
}

/// `order ID ID`: how two kept identifiers compare, and whether they are the same.
fn push_order(answer: &mut String, words: &mut Words) -> Result<(), CaseFault> {
    let first = IdBuf::of(&id_of(words)?);
    let second = IdBuf::of(&id_of(words)?);
    let order = match first.cmp(&second) {
        Ordering::Less => "less",
        Ordering::Equal => "equal",
        Ordering::Greater => "greater",
    };
    push_line(answer, order)?;
    push_truth(answer, first == second)?;
    push_truth(answer, first < second)
}

/// The numbers that a line is.
fn numbers_of(alloc: Global, line: &str) -> Result<Vec<u16>, CaseFault> {
    let mut numbers = Vec::new(alloc);
    for word in line.split(' ') {
        if !word.is_empty() {
            let number = Words::of(word).firm()?;
            numbers.push(number)?;
        }
    }
    Ok(numbers)
}

/// Numbers in a line.
fn push_numbers(answer: &mut String, numbers: &[u16]) -> Result<(), CaseFault> {
    for (place, number) in numbers.iter().enumerate() {
        answer.push_str(if place == 0 { "" } else { " " })?;
        write!(answer, "{number}")?;
    }
    push_line(answer, "")
}

/// `dealers NUMBER ..`: the dealers that a request may name, and their copy.
fn push_dealers(alloc: Global, answer: &mut String, line: &str) -> Result<(), CaseFault> {
    let numbers = numbers_of(alloc, line)?;
    let Some(dealers) = AskedDealers::new(numbers.as_slice()) else {
        return push_line(answer, "none");
    };
    push_numbers(answer, dealers.as_slice())?;
    push_numbers(answer, dealers.copy().as_slice())
}

/// `names DEALER NUMBER ..`: whether a dealer is one of them.
fn push_names(alloc: Global, answer: &mut String, words: &mut Words) -> Result<(), CaseFault> {
    let dealer = words.firm()?;
    let numbers = numbers_of(alloc, words.rest())?;
    let dealers = AskedDealers::new(numbers.as_slice()).ok_or(CaseFault::Condition)?;
    push_truth(answer, dealers.names(dealer))
}

/// `sides`: the codes of Side (54).
fn push_sides(answer: &mut String) -> Result<(), CaseFault> {
    writeln!(answer, "Buy {}", Side::Buy.code())?;
    writeln!(answer, "Sell {}", Side::Sell.code())?;
    Ok(())
}

/// `closes`: the codes of QuoteRespType (694).
fn push_closes(answer: &mut String) -> Result<(), CaseFault> {
    push_close(answer, "Hit", &Close::Hit)?;
    push_close(answer, "Expired", &Close::Expired)?;
    push_close(answer, "Cover", &Close::Cover)?;
    push_close(answer, "DoneAway", &Close::DoneAway)?;
    push_close(answer, "Pass", &Close::Pass)
}

/// A code of QuoteRespType (694), behind its name.
fn push_close(answer: &mut String, name: &str, close: &Close) -> Result<(), CaseFault> {
    writeln!(answer, "{name} {}", close.code())?;
    Ok(())
}

/// `refusals`: the names of the refusals of a hit, in their order.
fn push_refusals(answer: &mut String) -> Result<(), CaseFault> {
    push_bytes_line(answer, HitRefusal::NotOpen.name())?;
    push_bytes_line(answer, HitRefusal::Deadline.name())?;
    push_bytes_line(answer, HitRefusal::Gone.name())?;
    push_bytes_line(answer, HitRefusal::Expired.name())?;
    push_bytes_line(answer, HitRefusal::Withdrawn.name())
}

/// `ask ..`: the copy of an ask.
fn push_ask(answer: &mut String, words: &mut Words) -> Result<(), CaseFault> {
    let mut ask = ask_with_grid(words)?;
    ask.band = band_of(words)?;
    let copy = ask.copy();
    push_ask_fields(answer, &copy)?;
    write!(answer, "grid={}", copy.grid.get())?;
    push_band(answer, copy.band)?;
    writeln!(answer)?;
    Ok(())
}

/// What an ask says, by its tags.
fn push_ask_fields(answer: &mut String, ask: &Ask) -> Result<(), CaseFault> {
    push_field(answer, 448, ask.investor.as_bytes())?;
    push_field(answer, 48, ask.bond.as_bytes())?;
    push_number_field(answer, 54, ask.side.code())?;
    push_number_field(answer, 38, ask.quantity.get())?;
    push_time_field(answer, 126, ask.deadline)
}

/// The ends of a band, each behind a space, where not every price is in it.
fn push_band(answer: &mut String, band: Band) -> Result<(), CaseFault> {
    let Band { low, high } = band;
    if band.is_whole() {
        return Ok(());
    }
    write!(answer, " {} {}", low.get(), high.get())?;
    Ok(())
}
