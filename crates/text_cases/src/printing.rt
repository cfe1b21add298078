//! Lines of answers.

use case_lines::{CaseFault, push_bytes, push_bytes_line, push_line};
use fix_fields::{Garbled, Moment, time_text};
use std::fmt::Write;

/// A line of bytes that may be empty: an equals sign, and the bytes.
pub(crate) fn push_value_line(answer: &mut String, value: &[u8]) -> Result<(), CaseFault> {
    answer.push_str("=")?;
    push_bytes_line(answer, value)
}

/// A line of bytes that may be absent.
pub(crate) fn push_value_or_none(
    answer: &mut String,
    value: Option<&[u8]>,
) -> Result<(), CaseFault> {
    match value {
        Some(value) => push_value_line(answer, value),
        None => push_line(answer, "none"),
    }
}

/// A line of a number.
pub(crate) fn push_number(answer: &mut String, number: u64) -> Result<(), CaseFault> {
    writeln!(answer, "{number}")?;
    Ok(())
}

/// A line of a number that may be absent.
pub(crate) fn push_number_or_none(
    answer: &mut String,
    number: Option<u64>,
) -> Result<(), CaseFault> {
    match number {
        Some(number) => push_number(answer, number),
        None => push_line(answer, "none"),
    }
}

/// A field: a tag, the value, and a bar.
pub(crate) fn push_field(answer: &mut String, tag: u32, value: &[u8]) -> Result<(), CaseFault> {
    write!(answer, "{tag}=")?;
    push_bytes(answer, value)?;
    answer.push_str("|")?;
    Ok(())
}

/// A field whose value is a number.
pub(crate) fn push_number_field(
    answer: &mut String,
    tag: u32,
    value: u64,
) -> Result<(), CaseFault> {
    write!(answer, "{tag}={value}|")?;
    Ok(())
}

/// A field whose value is the time of day of a moment.
pub(crate) fn push_time_field(
    answer: &mut String,
    tag: u32,
    moment: Moment,
) -> Result<(), CaseFault> {
    push_field(answer, tag, time_text(moment).as_bytes())
}

/// The name of a frame's fault.
pub(crate) fn garbled_name(fault: Garbled) -> &'static str {
    match fault {
        Garbled::TooLong => "TooLong",
        Garbled::Start => "Start",
        Garbled::Length => "Length",
        Garbled::Field => "Field",
        Garbled::End => "End",
        Garbled::Sum => "Sum",
    }
}
