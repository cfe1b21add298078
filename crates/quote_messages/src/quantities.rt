//! Quantities as they are written.
ghost use Rattle.std.specs.Prelude.{◌≡◌, ◌==◌, ◌+◌, ◌≤◌, length};
ghost use Rattle.std.specs.List.{list_all, position, before_first, after_first};
ghost use Rattle.quote_messages.specs.Texts.{is_point};
ghost use Rattle.quote_messages.specs.ValueForms.{quantity_of};

use crate::numbers::{are_digits, number_of_digits};
use crate::{Quantity, SessionRejectReason};

/// The quantity that 1 to 15 digits with at most one point write: of wrong form, not whole or out
/// of its limits is the reason given.
#[tactic(auto, unfolding(crate::specs::ValueForms::quantity_of))]
pub fn read_quantity(text: &[u8]) -> Result<Quantity, SessionRejectReason>
    ensures { result ≡ quantity_of text.now }
{
    let (whole, decimals) = cut_at_point(text);
    let digits = whole.len() + decimals.len();
    if digits < 1 || digits > 15 || !are_digits(whole) || !are_digits(decimals) {
        return Err(SessionRejectReason::IncorrectDataFormat);
    }
    if !are_zeros(decimals) {
        return Err(SessionRejectReason::ValueIncorrect);
    }
    let units = number_of_digits(whole);
    let Some(quantity) = Quantity::new(units) else {
        return Err(SessionRejectReason::ValueIncorrect);
    };
    Ok(quantity)
}

/// What stands before the first point of a text and what stands behind it, nothing where it has no
/// point.
#[tactic(auto, using(crate::proofs::TextLemmas::cut_at, crate::proofs::TextLemmas::cut_nowhere))]
fn cut_at_point(text: &[u8]) -> (&[u8], &[u8])
    ensures whole { result.0.now ≡ before_first is_point text.now }
    ensures decimals { result.1.now ≡ after_first is_point text.now }
    ensures shorter { length result.0.now + length result.1.now ≤ length text.now }
{
    let Some(point) = point_in(text) else {
        return (text, &[]);
    };
    (&text[..point], &text[point + 1..])
}

/// Whether each byte is the digit 0.
fn are_zeros(text: &[u8]) -> bool
    ensures { result ≡ list_all (λ c. c == 48) text.now }
{
    text.iter().all(|c| *c == b'0')
}

/// Where the first point of a text stands.
fn point_in(text: &[u8]) -> Option<usize>
    ensures { result ≡ position is_point text.now }
{
    text.iter().position(|c| is_point(*c))
}

/// Whether a byte is the point.
fn is_point(c: u8) -> bool
    ensures { result ≡ is_point c }
{
    c == b'.'
}
