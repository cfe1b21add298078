//! Names of firms and of traders.
ghost use Rattle.std.specs.Prelude.{◌≡◌, ◌≤◌, IsTrue, length, take};
ghost use Rattle.fix_fields.specs.Frame.{IsValue};
ghost use Rattle.venue_rows.specs.Texts as spec;

use crate::characters::are_capitals_or_digits;
use arrayvec::ArrayString;
use std::marker::Model;
use std::str;

/// How many characters a name has at most.
const LONGEST: usize = 8;

/// The name of a firm (SenderCompID 49, TargetCompID 56, PartyID 448) or of a trader (SenderSubID
/// 50): 1 to 8 capital letters and digits, the first a letter.
#[derive(Drop)]
pub struct Name {
    text: [u8; LONGEST],
    len: u8,
}

impl Model for Name {
    ghost use Rattle.std.specs.Prelude.{◌≤◌, ℕ, List, IsTrue, take};
    ghost use Rattle.venue_rows.specs.Texts.{is_name};

    ghost Value = { List ℕ };

    ghost view = { λ n. take n.len n.text };

    ghost invariant = { λ n. (n.len ≤ 8) × IsTrue (is_name (take n.len n.text)) };
}

impl Name {
    /// The name that these bytes spell, or none where they spell no name.
    pub fn new(text: &[u8]) -> Option<Self>
        ensures { result ≡ spec.text_if spec.is_name text.now }
    {
        if !is_name(text) {
            return None;
        }
        Some(Name::of(text))
    }

    /// The name of these bytes, which spell one.
    #[tactic(auto, using(crate::proofs::TextLemmas::name_is_short))]
    fn of(text: &[u8]) -> Self
        requires { IsTrue (spec.is_name text.now) }
        ensures { result ≡ text.now }
    {
        Name {
            text: padded(text),
            len: text.len() as u8,
        }
    }

    /// The name of a firm that these bytes spell: any name but `VENUE` and `CLOCK`, which are those
    /// of the venue itself and of its clock.
    pub fn of_firm(text: &[u8]) -> Option<Self>
        ensures { result ≡ spec.text_if spec.is_firm_name text.now }
    {
        if is_reserved(text) {
            return None;
        }
        Name::new(text)
    }

    /// The characters of the name.
    #[tactic(auto, using(crate::proofs::TextLemmas::name_is_value))]
    pub fn as_bytes(&self) -> &[u8]
        ensures value { result.now ≡ self.now }
        ensures named { IsTrue (spec.is_name self.now) }
        ensures field { IsValue self.now }
    {
        &self.text[..usize::from(self.len)]
    }

    /// The name as text.
    #[tactic(auto, using(crate::proofs::TextLemmas::name_is_utf8))]
    pub fn as_str(&self) -> &str
        ensures { result.now ≡ self.now }
    {
        let Ok(text) = str::from_utf8(self.as_bytes()) else {
            unreachable!();
        };
        text
    }

    /// The name that a text of fixed room is.
    pub(crate) fn of_text(text: ArrayString<8>) -> Self
        requires { IsTrue (spec.is_name text.bytes) }
        ensures { result ≡ text.bytes }
    {
        Name::of(text.as_bytes())
    }

    /// The characters as a text of fixed room.
    #[tactic(auto, using(crate::proofs::TextLemmas::name_is_utf8, crate::proofs::TextLemmas::name_is_short))]
    pub(crate) fn text(&self) -> ArrayString<8>
        ensures value { result.bytes ≡ self.now }
        ensures named { IsTrue (spec.is_name result.bytes) }
    {
        let text = str::from_utf8(self.as_bytes()).unwrap();
        ArrayString::from(text).unwrap()
    }

    /// The same name once more. It takes no memory.
    pub fn copy(&self) -> Self
        ensures { result ≡ self.now }
    {
        Name {
            text: self.text,
            len: self.len,
        }
    }
}

/// The characters of a name, and zeros behind them.
fn padded(text: &[u8]) -> [u8; LONGEST]
    requires { length text.now ≤ 8 }
    ensures { take (length text.now) result ≡ text.now }
{
    let mut padded = [0; LONGEST];
    padded[..text.len()].copy_from_slice(text);
    padded
}

/// Whether the bytes spell a name.
fn is_name(text: &[u8]) -> bool
    ensures { result ≡ spec.is_name text.now }
{
    let Some((first, rest)) = text.split_first() else {
        return false;
    };
    if !first.is_ascii_uppercase() || rest.len() > 7 {
        return false;
    }
    are_capitals_or_digits(rest)
}

/// Whether a text is a name that no firm has.
fn is_reserved(text: &[u8]) -> bool
    ensures { result ≡ spec.is_among spec.reserved_names text.now }
{
    b"VENUE".as_slice() == text || b"CLOCK".as_slice() == text
}
