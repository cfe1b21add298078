//! Dates and moments.

use crate::printing::push_number;
use case_lines::{Call, CaseFault, Words, bytes_of, push_line, push_truth};
use fix_fields::{Date, Moment, MomentFault, moment_text, read_moment, time_text};
use std::alloc::Global;
use std::str;

/// Makes a call of the place `moments`: dates, moments and their texts. A moment is a number of
/// milliseconds.
///
/// - `date TEXT`: its digits. `moment NUMBER`: the number, where it is a moment.
/// - `read DATE TEXT`: the moment, or the fault.
/// - `text DATE NUMBER`, `time NUMBER`: the texts of a moment.
/// - `earlier NUMBER NUMBER`: whether the first moment is before the second.
pub(crate) fn call_moments(call: &mut Call<'_>) -> Result<(), CaseFault> {
    match call.name {
        "date" => push_date(call.alloc, &mut call.answer, call.words.rest()),
        "moment" => push_moment(&mut call.answer, &mut call.words),
        "read" => push_reading(call.alloc, &mut call.answer, &mut call.words),
        "text" => push_text(&mut call.answer, &mut call.words),
        "time" => push_time(&mut call.answer, &mut call.words),
        "earlier" => push_earlier(&mut call.answer, &mut call.words),
        _ => Err(CaseFault::Form),
    }
}

/// `date TEXT`: its digits.
fn push_date(alloc: Global, answer: &mut String, text: &str) -> Result<(), CaseFault> {
    let text = bytes_of(alloc, text)?;
    let Some(date) = Date::new(text.as_slice()) else {
        return push_line(answer, "none");
    };
    let Ok(digits) = str::from_utf8(date.digits()) else {
        return push_line(answer, "no text");
    };
    push_line(answer, digits)
}

/// `moment NUMBER`: the number, where it is a moment.
fn push_moment(answer: &mut String, words: &mut Words) -> Result<(), CaseFault> {
    let number = words.short_number()?;
    match Moment::new(number) {
        Some(moment) => push_number(answer, u64::from(moment.get())),
        None => push_line(answer, "none"),
    }
}

/// `read DATE TEXT`: the moment, or the fault.
fn push_reading(alloc: Global, answer: &mut String, words: &mut Words) -> Result<(), CaseFault> {
    let date = date_of(words)?;
    let text = bytes_of(alloc, words.rest())?;
    match read_moment(&date, text.as_slice()) {
        Ok(moment) => push_number(answer, u64::from(moment.get())),
        Err(MomentFault::Form) => push_line(answer, "Form"),
        Err(MomentFault::OtherDay) => push_line(answer, "OtherDay"),
    }
}

/// The date that a word is.
fn date_of(words: &mut Words) -> Result<Date, CaseFault> {
    let word = words.word()?;
    Date::new(word.as_bytes()).ok_or(CaseFault::Condition)
}

/// The moment that a number is.
fn moment_of(words: &mut Words) -> Result<Moment, CaseFault> {
    let number = words.short_number()?;
    Moment::new(number).ok_or(CaseFault::Condition)
}

/// `text DATE NUMBER`: the text of a moment.
fn push_text(answer: &mut String, words: &mut Words) -> Result<(), CaseFault> {
    let date = date_of(words)?;
    let moment = moment_of(words)?;
    push_line(answer, moment_text(&date, moment).as_str())
}

/// `time NUMBER`: its part behind the date.
fn push_time(answer: &mut String, words: &mut Words) -> Result<(), CaseFault> {
    let moment = moment_of(words)?;
    push_line(answer, time_text(moment).as_str())
}

/// `earlier NUMBER NUMBER`: whether the first moment is before the second.
fn push_earlier(answer: &mut String, words: &mut Words) -> Result<(), CaseFault> {
    let first = moment_of(words)?;
    let second = moment_of(words)?;
    push_truth(answer, first < second)
}
