//! The parts of a field, found at the front of a text.
ghost use Rattle.std.specs.Prelude.{◌≡◌, ℕ, ◌+◌, ◌++◌, ◌==◌, ◌<◌, ◌≤◌, ◌↔◌, take, length, IsTrue};
ghost use Rattle.std.specs.Prelude.{MatchOption};
ghost use Rattle.std.specs.List.{prefix_len, position_or_len};
ghost use Rattle.std.specs.Char.{is_ascii_digit};
ghost use Rattle.std.specs.Simd.Lanes.{chunk};
ghost use Rattle.std.specs.Str.Parse.{digits_value};
ghost use Rattle.fix_fields.specs.Frame.{IsField, IsValue, Spells, field_text};
ghost use Rattle.fix_fields.specs.Scan.{BeginsWithField, HoldsFields, HoldsBody};

use crate::limits::BLOCK;
use std::simd::prelude::*;

/// SOH, the byte that ends each field.
pub(crate) const SOH: u8 = 1;

/// The number that the digits at the front of a text write, and how many digits they are: those
/// before the first other byte, and at most `most`.
#[inline(always)]
pub(crate) fn leading_number(text: &[u8], most: usize) -> (u32, usize)
    requires { most ≤ 9 }
    ensures few { result.1 ≤ most }
    ensures fits { result.1 ≤ length text.now }
    ensures count { result.1 ≡ prefix_len is_ascii_digit (take most text.now) }
    ensures value { result.0 ≡ digits_value 10 (take result.1 text.now) }
{
    let mut value = 0;
    let mut count = 0;
    while count < most && count < text.len() && text[count].is_ascii_digit() {
        value = value * 10 + (text[count] - b'0') as u32;
        count += 1;
    }
    (value, count)
}

/// How many bytes stand before the first SOH, or all where there is none.
#[inline(always)]
pub(crate) fn value_len(text: &[u8]) -> usize
    ensures fits { result ≤ length text.now }
    ensures place { result ≡ position_or_len (λ byte. byte == 1) text.now }
{
    let mut len = 0;
    while text.len() - len >= BLOCK {
        let before = len_in_block(text, len);
        if before != BLOCK {
            return len + before;
        }
        len += BLOCK;
    }
    len + short_value_len(&text[len..])
}

/// How many bytes of the block at a place stand before its first SOH: all where there is none.
#[inline(always)]
fn len_in_block(text: &[u8], at: usize) -> usize
    requires { at + BLOCK ≤ length text.now }
    ensures few { result ≤ BLOCK }
    ensures place { result ≡ position_or_len (λ byte. byte == 1) (chunk at 16 text.now) }
{
    let found = u8x16::from_slice(&text[at..])
        .simd_eq(u8x16::splat(SOH))
        .to_bitmask();
    if found == 0 {
        return BLOCK;
    }
    found.trailing_zeros() as usize
}

/// How many bytes stand before the first SOH, byte by byte: of the last ones, which are no block.
#[inline(never)]
fn short_value_len(text: &[u8]) -> usize
    ensures fits { result ≤ length text.now }
    ensures place { result ≡ position_or_len (λ byte. byte == 1) text.now }
{
    let mut len = 0;
    while len < text.len() {
        if text[len] == SOH {
            return len;
        }
        len += 1;
    }
    len
}

/// The tag and the value of the field at the front of a text, and what stands behind it.
#[inline(always)]
pub(crate) fn split_field(text: &[u8]) -> Option<(u32, &[u8], &[u8])>
    ensures { MatchOption result (¬ BeginsWithField text.now)
        (λ field. IsField (field.0, field.1.now)
        × (text.now ≡ field_text (field.0, field.1.now) ++ field.2.now)) }
{
    let (tag, digits) = leading_number(text, 9);
    if digits == 0 || digits == text.len() {
        return None;
    }
    if text[0] == b'0' || text[digits] != b'=' {
        return None;
    }
    if tag == 8 || tag == 9 || tag == 10 {
        return None;
    }
    let behind = &text[digits + 1..];
    let len = value_len(behind);
    if len == behind.len() {
        return None;
    }
    Some((tag, &behind[..len], &behind[len + 1..]))
}

/// The tag of the field that a text spells: all of a field as it is written, but for its SOH.
#[inline(always)]
pub(crate) fn spelled_tag(text: &[u8]) -> Option<u32>
    requires { IsValue text.now }
    ensures { MatchOption result ((tag : ℕ) → ¬ Spells text.now tag) (λ tag. Spells text.now tag) }
{
    let (tag, digits) = leading_number(text, 9);
    if digits == 0 || digits == text.len() {
        return None;
    }
    if text[0] == b'0' || text[digits] != b'=' {
        return None;
    }
    if tag == 8 || tag == 9 || tag == 10 {
        return None;
    }
    Some(tag)
}

/// The tag of the field that a text begins with, and how many digits it has. The field is lawful,
/// so nothing but the equals sign behind the tag is looked for.
#[inline(always)]
fn lawful_tag(text: &[u8]) -> (u32, usize)
    requires { BeginsWithField text.now }
    ensures inside { result.1 < length text.now }
    ensures count { result.1 ≡ prefix_len is_ascii_digit (take 9 text.now) }
    ensures value { result.0 ≡ digits_value 10 (take result.1 text.now) }
{
    let mut value = (text[0] - b'0') as u32;
    let mut count = 1;
    while text[count] != b'=' {
        value = value * 10 + (text[count] - b'0') as u32;
        count += 1;
    }
    (value, count)
}

/// How many bytes stand before the first SOH of a text that has one.
#[inline(always)]
pub(crate) fn len_before_soh(text: &[u8]) -> usize
    requires { position_or_len (λ byte. byte == 1) text.now < length text.now }
    ensures inside { result < length text.now }
    ensures place { result ≡ position_or_len (λ byte. byte == 1) text.now }
{
    value_len(text)
}

/// The tag and the value of the field that a text begins with, and what stands behind it. The field
/// is lawful, so it is not tested again.
#[inline(always)]
pub(crate) fn first_field(text: &[u8]) -> (u32, &[u8], &[u8])
    requires { BeginsWithField text.now }
    ensures lawful { IsField (result.0, result.1.now) }
    ensures text { text.now ≡ field_text (result.0, result.1.now) ++ result.2.now }
{
    let (tag, digits) = lawful_tag(text);
    let behind = &text[digits + 1..];
    let len = len_before_soh(behind);
    (tag, &behind[..len], &behind[len + 1..])
}

/// Whether a text is lawful fields, one behind the other.
pub(crate) fn are_fields(text: &[u8]) -> bool
    ensures { IsTrue result ↔ HoldsFields text.now }
{
    let mut rest = text;
    while !rest.is_empty() {
        let Some((_, _, behind)) = split_field(rest) else {
            return false;
        };
        rest = behind;
    }
    true
}

/// Whether a text is a body: lawful fields, the first with tag 35.
pub(crate) fn is_body(text: &[u8]) -> bool
    ensures { IsTrue result ↔ HoldsBody text.now }
{
    if !text.starts_with(b"35=") {
        return false;
    }
    are_fields(text)
}
