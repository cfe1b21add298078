//! The traders of a firm.
ghost use Rattle.std.specs.Prelude.{◌≡◌, ℕ, ◌≤◌, List, [], length, slice_get, IsTrue};
ghost use Rattle.std.specs.List.{find, list_any};
ghost use Rattle.std.specs.Option.{option_copied};
ghost use Rattle.venue_rows.specs.Texts as spec;

use crate::Name;
use arrayvec::{ArrayString, ArrayVec};
use std::marker::Model;

/// The traders of a firm (SenderSubID 50) in their order: at most 16 names.
#[derive(Drop)]
pub struct Traders {
    names: ArrayVec<ArrayString<8>, 16>,
}

impl Model for Traders {
    ghost use Rattle.std.specs.Prelude.{ℕ, List, map, IsTrue};
    ghost use Rattle.std.specs.List.{list_all};
    ghost use Rattle.venue_rows.specs.Texts.{is_name};

    ghost Value = { List (List ℕ) };

    ghost view = { λ t. map (λ name. name.bytes) t.names.items };

    ghost invariant = { λ t. IsTrue (list_all (λ name. is_name name.bytes) t.names.items) };
}

impl Traders {
    /// How many traders a firm has at most.
    pub const MOST: usize = 16;

    /// No trader yet.
    pub fn new() -> Self
        ensures { result ≡ [] }
    {
        Traders {
            names: ArrayVec::new(),
        }
    }

    /// How many there are.
    pub fn len(&self) -> usize
        ensures value { result ≡ length self.now }
        ensures most { result ≤ Self.MOST }
    {
        self.names.len()
    }

    /// The name of the trader at a place, from 0, or none behind the last one.
    pub fn get(&self, index: usize) -> Option<&[u8]>
        ensures { option_copied result ≡ slice_get self.now index }
    {
        let name = self.names.as_slice().get(index)?;
        Some(name.as_bytes())
    }

    /// Whether one of them has this name.
    pub fn contains(&self, name: &[u8]) -> bool
        ensures { result ≡ spec.is_among self.now name.now }
    {
        has_name(self.names.as_slice(), name)
    }

    /// The trader with this name (an accepted SenderSubID 50), or none where no trader has it.
    pub fn find(&self, name: &[u8]) -> Option<Name>
        ensures { result ≡ spec.text_if (spec.is_among self.now) name.now }
    {
        let own = find_name(self.names.as_slice(), name)?;
        Some(Name::of_text(own))
    }

    /// Adds a trader behind the others, or returns false and changes nothing where there are 16
    /// already.
    pub fn push(&mut self, name: &Name) -> bool
        ensures { (self.new, result) ≡ spec.trader_added self.old name.now }
    {
        if self.names.len() == Self::MOST {
            return false;
        }
        self.names.push(name.text());
        true
    }

    /// Whether these are the same traders in the same order.
    pub(crate) fn is_same(&self, other: &Self) -> bool
        ensures { result ≡ spec.same_texts self.now other.now }
    {
        self.names.as_slice() == other.names.as_slice()
    }

    /// The same traders once more. It takes no memory.
    pub fn copy(&self) -> Self
        ensures { result ≡ self.now }
    {
        let names = ArrayVec::try_from(self.names.as_slice()).unwrap();
        Traders { names }
    }
}

/// Whether one of the texts is this one.
fn has_name(names: &[ArrayString<8>], name: &[u8]) -> bool
    ensures { result ≡ list_any (λ own. spec.same_text own.bytes name.now) names.now }
{
    names.iter().any(|own| own.as_bytes() == name)
}

/// The first of the texts that is this one.
fn find_name(names: &[ArrayString<8>], name: &[u8]) -> Option<ArrayString<8>>
    ensures { result ≡ find (λ own. spec.same_text own.bytes name.now) names.now }
{
    names.iter().copied().find(|own| own.as_bytes() == name)
}
