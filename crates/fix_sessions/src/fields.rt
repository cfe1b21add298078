//! The fields of a body, whatever stands in it.
ghost use Rattle.std.specs.Prelude.{◌≡◌, ◌≤◌, ◌==◌, true, length, take, drop, MatchOption, Some, None};
ghost use Rattle.std.specs.List.{list_all, position};
ghost use Rattle.std.specs.Char.{is_ascii_digit};
ghost use Rattle.std.specs.Option.{option_copied};
ghost use Rattle.fix_fields.specs.Frame.{value_of, times_of};
ghost use Rattle.fix_sessions.specs.Fields.{front_piece, behind_piece, fields_in};
ghost use Rattle.fix_sessions.specs.Texts.{has_text};
ghost use Rattle.fix_sessions.specs.Fields as spec;
ghost use Rattle.fix_sessions.specs.Flaws.{last_tag};

use crate::numbers::{are_digits, leading_number, number_of_digits};

/// SOH, the byte that ends a field.
const SOH: u8 = 1;

/// The first of some bytes.
pub(crate) fn near(bytes: &[u8], most: usize) -> &[u8]
    ensures value { result.now ≡ take most bytes.now }
    ensures shorter { length result.now ≤ length bytes.now }
{
    &bytes[..bytes.len().min(most)]
}

/// What stands behind the first of some bytes.
pub(crate) fn past(bytes: &[u8], count: usize) -> &[u8]
    ensures value { result.now ≡ drop count bytes.now }
    ensures shorter { length result.now ≤ length bytes.now }
{
    &bytes[bytes.len().min(count)..]
}

/// Where a byte stands first.
fn place_of(text: &[u8], byte: u8) -> Option<usize>
    ensures { result ≡ position (λ c. c == byte) text.now }
{
    text.iter().position(|c| *c == byte)
}

/// What stands before the first SOH of a body, and behind it.
#[tactic(auto, using(crate::proofs::CutLemmas::cut_there, crate::proofs::CutLemmas::cut_nowhere))]
pub(crate) fn split_piece(body: &[u8]) -> (&[u8], &[u8])
    ensures front { result.0.now ≡ front_piece body.now }
    ensures behind { result.1.now ≡ behind_piece body.now }
{
    let Some(place) = place_of(body, SOH) else {
        return (body, &[]);
    };
    (&body[..place], &body[place + 1..])
}

/// What stands before the first SOH of a body.
pub(crate) fn front_piece(body: &[u8]) -> &[u8]
    ensures { result.now ≡ front_piece body.now }
{
    let (front, _) = split_piece(body);
    front
}

/// The pieces that end with SOH, of bytes that are cut somewhere: what stands before the last SOH.
pub(crate) fn ended_pieces(bytes: &[u8]) -> &[u8]
    ensures { result.now ≡ spec.ended_pieces bytes.now }
{
    match bytes.iter().rposition(|byte| *byte == SOH) {
        Some(place) => &bytes[..place],
        None => &[],
    }
}

/// Whether a piece has an equals sign.
pub(crate) fn has_equals(piece: &[u8]) -> bool
    ensures { result ≡ spec.has_equals piece.now }
{
    place_of(piece, b'=').is_some()
}

/// The tag and the value of the field that a piece is.
pub(crate) fn piece_field(piece: &[u8]) -> Option<(u64, &[u8])>
    ensures { MatchOption result (spec.piece_field piece.now ≡ None)
        (λ field. spec.piece_field piece.now ≡ Some (field.0, field.1.now)) }
{
    let (tag, count) = leading_number(piece);
    if count == 0 || count == piece.len() || piece[0] == b'0' || piece[count] != b'=' {
        return any_field(piece);
    }
    Some((tag, &piece[count + 1..]))
}

/// The same of a piece with anything before its equals sign.
fn any_field(piece: &[u8]) -> Option<(u64, &[u8])>
    ensures { MatchOption result (spec.piece_field piece.now ≡ None)
        (λ field. spec.piece_field piece.now ≡ Some (field.0, field.1.now)) }
{
    let Some(place) = place_of(piece, b'=') else {
        return None;
    };
    let digits = &piece[..place];
    if !is_tag_text(digits) {
        return None;
    }
    Some((number_of_digits(digits), &piece[place + 1..]))
}

/// Whether a text is a tag: 1 to 9 digits, the first not 0.
fn is_tag_text(digits: &[u8]) -> bool
    ensures value { result ≡ spec.is_tag_text digits.now }
    ensures few { result ≡ true → length digits.now ≤ 16 }
    ensures all { result ≡ true → list_all is_ascii_digit digits.now ≡ true }
{
    if digits.is_empty() || digits.len() > 9 || digits[0] == b'0' {
        return false;
    }
    are_digits(digits)
}

/// The value of the first field with a tag.
#[tactic(auto, using(crate::proofs::FieldLemmas::value_past_none, crate::proofs::FieldLemmas::value_past_other, crate::proofs::FieldLemmas::value_here))]
pub(crate) fn value(body: &[u8], tag: u64) -> Option<&[u8]>
    ensures { option_copied result ≡ value_of tag (fields_in body.now) }
{
    let mut rest = body;
    while !rest.is_empty() {
        let (piece, behind) = split_piece(rest);
        if let Some((found, value)) = piece_field(piece) {
            if found == tag {
                return Some(value);
            }
        }
        rest = behind;
    }
    None
}

/// How many fields have a tag.
#[tactic(auto, using(crate::proofs::FieldLemmas::times_past_none, crate::proofs::FieldLemmas::times_past_other, crate::proofs::FieldLemmas::times_here, crate::proofs::FlawLemmas::behind_shorter))]
pub(crate) fn times(body: &[u8], tag: u64) -> usize
    ensures value { result ≡ times_of tag (fields_in body.now) }
    ensures few { result ≤ length body.now }
{
    let mut rest = body;
    let mut count = 0;
    while !rest.is_empty() {
        let (piece, behind) = split_piece(rest);
        if let Some((found, _)) = piece_field(piece) {
            if found == tag {
                count += 1;
            }
        }
        rest = behind;
    }
    count
}

/// The tag of the last field.
#[tactic(auto, using(crate::proofs::FlawLemmas::last_past_none, crate::proofs::FlawLemmas::last_past_some, crate::proofs::FlawLemmas::behind_shorter))]
pub(crate) fn last_tag(body: &[u8]) -> Option<u64>
    ensures { result ≡ last_tag (fields_in body.now) }
{
    let mut rest = body;
    let mut last = None;
    while !rest.is_empty() {
        let (piece, behind) = split_piece(rest);
        if let Some((found, _)) = piece_field(piece) {
            last = Some(found);
        }
        rest = behind;
    }
    last
}

/// Whether the first value of a tag is this text.
pub(crate) fn has(body: &[u8], tag: u64, text: &[u8]) -> bool
    ensures { result ≡ has_text tag text.now (fields_in body.now) }
{
    let Some(found) = value(body, tag) else {
        return false;
    };
    found == text
}
