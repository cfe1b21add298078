//! Identifiers of bonds.
ghost use Rattle.std.specs.Prelude.{◌≡◌, ℕ, List, IsTrue};
ghost use Rattle.fix_fields.specs.Frame.{IsValue};
ghost use Rattle.venue_rows.specs.Texts as spec;

use crate::characters::are_capitals_or_digits;
use std::marker::Model;
use std::str;

/// The identifier of a bond (SecurityID 48 with SecurityIDSource 22=4): 12 capital letters and
/// digits, the shape of an ISIN, whose check digit is not looked at.
#[derive(Clone, Copy)]
pub struct BondId {
    text: [u8; 12],
}

impl Model for BondId {
    ghost Value = { List ℕ };

    ghost view = { λ b. b.text };

    ghost invariant = { λ b. IsTrue (spec.is_bond_id b.text) };

    ghost inverse = { λ text. record { text = text } };
}

impl BondId {
    /// The identifier that these bytes spell, or none where they spell none.
    pub fn new(text: &[u8]) -> Option<Self>
        ensures { result ≡ spec.text_if spec.is_bond_id text.now }
    {
        if !are_capitals_or_digits(text) {
            return None;
        }
        let text = <[u8; 12]>::try_from(text).ok()?;
        Some(BondId { text })
    }

    /// The 12 characters.
    #[tactic(auto, using(crate::proofs::TextLemmas::bond_id_is_value))]
    pub fn as_bytes(&self) -> &[u8]
        ensures value { result.now ≡ self.now }
        ensures named { IsTrue (spec.is_bond_id self.now) }
        ensures field { IsValue self.now }
    {
        &self.text
    }

    /// The identifier as text.
    #[tactic(auto, using(crate::proofs::TextLemmas::bond_id_is_utf8))]
    pub fn as_str(&self) -> &str
        ensures { result.now ≡ self.now }
    {
        let Ok(text) = str::from_utf8(&self.text) else {
            unreachable!();
        };
        text
    }
}
