//! Bytes written as text, and text read as bytes.
ghost use Rattle.std.specs.Prelude.{◌<◌, IfOk};

use crate::faults::CaseFault;
use std::alloc::Global;

/// The separator of fields.
const SOH: u8 = 1;

/// The bytes of a text, in which `\xHH` stands for any byte, and `\\` for a backslash.
pub fn bytes_of(alloc: Global, text: &str) -> Result<Vec<u8>, CaseFault> {
    bytes_with(alloc, text, b'|')
}

/// The same, where a bar stands for SOH, and `\x7c` for a bar.
pub fn piped_bytes_of(alloc: Global, text: &str) -> Result<Vec<u8>, CaseFault> {
    bytes_with(alloc, text, SOH)
}

/// The bytes of a text, in which a bar stands for the byte `bar`.
fn bytes_with(alloc: Global, text: &str, bar: u8) -> Result<Vec<u8>, CaseFault> {
    let mut bytes = Vec::new(alloc);
    let mut left = text.as_bytes();
    for _ in 0..text.len() {
        let Some((byte, behind)) = next_byte(left)? else {
            break;
        };
        let is_bar = left.first() == Some(&b'|');
        bytes.push(if is_bar { bar } else { byte })?;
        left = behind;
    }
    Ok(bytes)
}

/// The first byte that a text stands for, and the text behind it.
fn next_byte(text: &[u8]) -> Result<Option<(u8, &[u8])>, CaseFault> {
    match text {
        [] => Ok(None),
        [b'\\', b'\\', behind @ ..] => Ok(Some((b'\\', behind))),
        [b'\\', b'x', high, low, behind @ ..] => Ok(Some((hex_byte(*high, *low)?, behind))),
        [b'\\', ..] => Err(CaseFault::Form),
        [byte, behind @ ..] => Ok(Some((*byte, behind))),
    }
}

/// The byte that two hexadecimal digits spell.
fn hex_byte(high: u8, low: u8) -> Result<u8, CaseFault> {
    let high = hex_digit(high)?;
    let low = hex_digit(low)?;
    Ok(high * 16 + low)
}

/// The value of a hexadecimal digit.
fn hex_digit(digit: u8) -> Result<u8, CaseFault>
    ensures { IfOk result (λ n. n < 16) }
{
    match digit {
        b'0'..=b'9' => Ok(digit - b'0'),
        b'a'..=b'f' => Ok(digit - b'a' + 10),
        b'A'..=b'F' => Ok(digit - b'A' + 10),
        _ => Err(CaseFault::Form),
    }
}

/// Appends bytes as text: SOH as a bar, a bar and a backslash and bytes that are no printed
/// characters of ASCII escaped. [`piped_bytes_of`] reads them back.
pub fn push_bytes(answer: &mut String, bytes: &[u8]) -> Result<(), CaseFault> {
    for byte in bytes {
        match *byte {
            SOH => answer.push('|')?,
            b'|' => answer.push_str("\\x7c")?,
            other => push_escaped(answer, other)?,
        }
    }
    Ok(())
}

/// Appends bytes as text: a backslash and bytes that are no printed characters of ASCII escaped.
/// [`bytes_of`] reads them back.
pub fn push_text(answer: &mut String, bytes: &[u8]) -> Result<(), CaseFault> {
    for byte in bytes {
        push_escaped(answer, *byte)?;
    }
    Ok(())
}

/// Appends a byte, escaped where it is a backslash or no printed character of ASCII.
fn push_escaped(answer: &mut String, byte: u8) -> Result<(), CaseFault> {
    if byte == b'\\' {
        answer.push_str("\\\\")?;
        return Ok(());
    }
    if (b' '..=b'~').contains(&byte) {
        answer.push(char::from(byte))?;
        return Ok(());
    }
    answer.push_str("\\x")?;
    answer.push(digit_of(byte / 16))?;
    answer.push(digit_of(byte % 16))?;
    Ok(())
}

/// The hexadecimal digit of a number below 16.
fn digit_of(value: u8) -> char
    requires { value < 16 }
{
    if value < 10 {
        return char::from(b'0' + value);
    }
    char::from(b'a' + (value - 10))
}
