//! The parts of a line, and what single parts spell.
ghost use Rattle.std.specs.Prelude.{◌≡◌, ◌<◌, ◌==◌, length};
ghost use Rattle.std.specs.List.{before_first, after_first, position};
ghost use Rattle.venue_rows.specs.Texts as texts;
ghost use Rattle.input_lines.specs.Lines as spec;

use arrayvec::ArrayVec;
use fix_fields::{Date, Moment, read_moment};
use memchr::memchr;
use quote_messages::Side;

/// What stands before the first `byte` of a text, and what stands behind it: all of the text and
/// nothing where it has none.
pub(crate) fn cut_at(text: &[u8], byte: u8) -> (&[u8], &[u8])
    ensures front { result.0.now ≡ before_first (λ c. c == byte) text.now }
    ensures behind { result.1.now ≡ after_first (λ c. c == byte) text.now }
    ensures shorter { 0 < length text.now → length result.1.now < length text.now }
{
    let Some(place) = memchr(byte, text) else {
        return (text, &[]);
    };
    (&text[..place], &text[place + 1..])
}

/// The same where the first `byte` is near: a plain walk is there before `memchr` begins.
#[tactic(auto, using(crate::proofs::CutLemmas::cut_there, crate::proofs::CutLemmas::cut_nowhere))]
pub(crate) fn cut_near(text: &[u8], byte: u8) -> (&[u8], &[u8])
    ensures front { result.0.now ≡ before_first (λ c. c == byte) text.now }
    ensures behind { result.1.now ≡ after_first (λ c. c == byte) text.now }
{
    let Some(place) = place_of(text, byte) else {
        return (text, &[]);
    };
    (&text[..place], &text[place + 1..])
}

/// Where the first `byte` of a text stands.
fn place_of(text: &[u8], byte: u8) -> Option<usize>
    ensures { result ≡ position (λ c. c == byte) text.now }
{
    text.iter().position(|c| *c == byte)
}

/// The first part of a line, and what stands behind the space that ends it.
pub fn cut_part(text: &[u8]) -> (&[u8], &[u8])
    ensures part { result.0.now ≡ spec.first_part text.now }
    ensures behind { result.1.now ≡ spec.behind_part text.now }
{
    cut_near(text, b' ')
}

/// Whether a further part stands behind the first part of a line.
pub fn has_part_behind(text: &[u8]) -> bool
    ensures { result ≡ spec.has_part_behind text.now }
{
    text.iter().any(|c| *c == b' ')
}

/// Whether a text is this one, byte by byte.
pub fn same_text(text: &[u8], other: &[u8]) -> bool
    ensures { result ≡ texts.same_text text.now other.now }
{
    text == other
}

/// SIDE, the side of the investor: `1` buys, `2` sells.
pub fn read_side(text: &[u8]) -> Option<Side>
    ensures { result ≡ spec.side_of text.now }
{
    if same_text(text, b"1") {
        return Some(Side::Buy);
    }
    if same_text(text, b"2") {
        return Some(Side::Sell);
    }
    None
}

/// TIME, a moment of the day, `HH:MM:SS` or `HH:MM:SS.sss`: read as the UTCTimestamp that it makes
/// behind the date and a dash.
pub fn read_time(date: &Date, text: &[u8]) -> Option<Moment>
    ensures { result ≡ spec.time_of date.now text.now }
{
    if text.len() > 12 {
        return None;
    }
    let mut timestamp = ArrayVec::<u8, 21>::new();
    timestamp.try_extend_from_slice(date.digits()).unwrap();
    timestamp.push(b'-');
    timestamp.try_extend_from_slice(text).unwrap();
    read_moment(date, timestamp.as_slice()).ok()
}
