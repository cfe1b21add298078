//! Prices, grids and bands.

use crate::printing::push_number;
use bond_prices::{
    Band, Grid, PriceFault, Ticks, in_band, on_grid, price_text, read_price, thirty_seconds,
};
use case_lines::{Call, CaseFault, Words, bytes_of, price_of, push_line, push_truth};
use std::alloc::Global;
use std::fmt::Write;

/// Makes a call of the place `prices`: prices, their texts, grids and bands. A price is its number
/// of 256ths.
///
/// - `read TEXT`: the price, or the fault. `fault TEXT`: what the fault says.
/// - `price NUMBER`: the number, where it is a price. `text NUMBER`, `said NUMBER`: its texts, in
///   points and in 32nds.
/// - `every_price`: how many prices are read back from their text.
/// - `below NUMBER NUMBER`, `same NUMBER NUMBER`: whether the first price is below the second, and
///   whether they are the same.
/// - `grid STEPS`: the steps, where they are a grid; `finest`: those of the finest.
///   `same_grid STEPS STEPS`: whether they are the same. `on STEPS NUMBER`: whether a price is on
///   a grid.
/// - `in LOW HIGH NUMBER`: whether a price is in a band. `whole LOW HIGH`: whether it is the band of
///   every price. `same_band LOW HIGH LOW HIGH`: whether two bands are the same.
pub(crate) fn call_prices(call: &mut Call<'_>) -> Result<(), CaseFault> {
    match call.name {
        "read" => push_reading(call.alloc, &mut call.answer, call.words.rest()),
        "fault" => push_fault(call.alloc, &mut call.answer, call.words.rest()),
        "price" => push_price(&mut call.answer, &mut call.words),
        "text" => push_text(&mut call.answer, &mut call.words),
        "said" => push_said(&mut call.answer, &mut call.words),
        "every_price" => push_every_price(&mut call.answer),
        "below" => push_below(&mut call.answer, &mut call.words),
        "same" => push_same(&mut call.answer, &mut call.words),
        _ => push_of_grids(call),
    }
}

/// What is asked of grids.
fn push_of_grids(call: &mut Call<'_>) -> Result<(), CaseFault> {
    match call.name {
        "grid" => push_grid(&mut call.answer, &mut call.words),
        "finest" => push_number(&mut call.answer, u64::from(Grid::FINEST.get())),
        "same_grid" => push_same_grid(&mut call.answer, &mut call.words),
        "on" => push_on(&mut call.answer, &mut call.words),
        _ => push_of_bands(call),
    }
}

/// What is asked of bands.
fn push_of_bands(call: &mut Call<'_>) -> Result<(), CaseFault> {
    match call.name {
        "in" => push_in(&mut call.answer, &mut call.words),
        "whole" => push_whole(&mut call.answer, &mut call.words),
        "same_band" => push_same_band(&mut call.answer, &mut call.words),
        _ => Err(CaseFault::Form),
    }
}

/// The band between two prices.
fn ends_of(words: &mut Words) -> Result<Band, CaseFault> {
    let low = price_of(words)?;
    let high = price_of(words)?;
    Ok(Band { low, high })
}

/// `in LOW HIGH NUMBER`: whether a price is in a band.
fn push_in(answer: &mut String, words: &mut Words) -> Result<(), CaseFault> {
    let band = ends_of(words)?;
    let price = price_of(words)?;
    push_truth(answer, in_band(price, band))
}

/// `whole LOW HIGH`: whether it is the band of every price.
fn push_whole(answer: &mut String, words: &mut Words) -> Result<(), CaseFault> {
    let band = ends_of(words)?;
    push_truth(answer, band.is_whole())
}

/// `same_band LOW HIGH LOW HIGH`: whether two bands are the same.
fn push_same_band(answer: &mut String, words: &mut Words) -> Result<(), CaseFault> {
    let first = ends_of(words)?;
    let second = ends_of(words)?;
    push_truth(answer, first.is_same(second))
}

/// The name of a price's fault.
fn price_fault_name(fault: PriceFault) -> &'static str {
    match fault {
        PriceFault::Form => "Form",
        PriceFault::Range => "Range",
        PriceFault::Grid => "Grid",
    }
}

/// `read TEXT`: the price, or the fault.
fn push_reading(alloc: Global, answer: &mut String, text: &str) -> Result<(), CaseFault> {
    let text = bytes_of(alloc, text)?;
    match read_price(text.as_slice()) {
        Ok(price) => push_number(answer, u64::from(price.get())),
        Err(fault) => push_line(answer, price_fault_name(fault)),
    }
}

/// `fault TEXT`: what the fault says.
fn push_fault(alloc: Global, answer: &mut String, text: &str) -> Result<(), CaseFault> {
    let text = bytes_of(alloc, text)?;
    let fault = read_price(text.as_slice())
        .err()
        .ok_or(CaseFault::Condition)?;
    writeln!(answer, "{fault}")?;
    Ok(())
}

/// The grid that a number is.
pub(crate) fn grid_of(words: &mut Words) -> Result<Grid, CaseFault> {
    let steps = words.short_number()?;
    Grid::new(steps).ok_or(CaseFault::Condition)
}

/// `price NUMBER`: the number, where it is a price.
fn push_price(answer: &mut String, words: &mut Words) -> Result<(), CaseFault> {
    let number = words.short_number()?;
    match Ticks::new(number) {
        Some(price) => push_number(answer, u64::from(price.get())),
        None => push_line(answer, "none"),
    }
}

/// `text NUMBER`: the text in points.
fn push_text(answer: &mut String, words: &mut Words) -> Result<(), CaseFault> {
    let price = price_of(words)?;
    push_line(answer, price_text(price).as_str())
}

/// `said NUMBER`: the text in 32nds.
fn push_said(answer: &mut String, words: &mut Words) -> Result<(), CaseFault> {
    let price = price_of(words)?;
    push_line(answer, thirty_seconds(price).as_str())
}

/// `every_price`: how many prices are read back from their text.
fn push_every_price(answer: &mut String) -> Result<(), CaseFault> {
    let mut count: u64 = 0;
    for number in 1..=255_999 {
        if is_read_back(number) {
            count = count.wrapping_add(1);
        }
    }
    push_number(answer, count)
}

/// Whether a number is a price that is read back from its text.
fn is_read_back(number: u32) -> bool {
    let Some(price) = Ticks::new(number) else {
        return false;
    };
    read_price(price_text(price).as_str().as_bytes()) == Ok(price)
}

/// `below NUMBER NUMBER`: whether the first price is below the second.
fn push_below(answer: &mut String, words: &mut Words) -> Result<(), CaseFault> {
    let first = price_of(words)?;
    let second = price_of(words)?;
    push_truth(answer, first < second)
}

/// `same NUMBER NUMBER`: whether the prices are the same.
fn push_same(answer: &mut String, words: &mut Words) -> Result<(), CaseFault> {
    let first = price_of(words)?;
    let second = price_of(words)?;
    push_truth(answer, first == second)
}

/// `same_grid STEPS STEPS`: whether the grids are the same.
fn push_same_grid(answer: &mut String, words: &mut Words) -> Result<(), CaseFault> {
    let first = grid_of(words)?;
    let second = grid_of(words)?;
    push_truth(answer, first == second)
}

/// `on STEPS NUMBER`: whether a price is on a grid.
fn push_on(answer: &mut String, words: &mut Words) -> Result<(), CaseFault> {
    let grid = grid_of(words)?;
    let price = price_of(words)?;
    push_truth(answer, on_grid(price, grid))
}

/// `grid STEPS`: the steps, where they are a grid.
fn push_grid(answer: &mut String, words: &mut Words) -> Result<(), CaseFault> {
    let steps = words.short_number()?;
    match Grid::new(steps) {
        Some(grid) => push_number(answer, u64::from(grid.get())),
        None => push_line(answer, "none"),
    }
}
