//! The dealers that a request names.
ghost use Rattle.std.specs.Prelude.{◌≡◌};
ghost use Rattle.quote_messages.specs.PartyGroup.{named_dealers, entries_of, AreWhole};

use crate::Id;
use crate::party_group::next_dealer;
use fix_fields::Fields;
use std::marker::Model;

/// The dealers that the party group (453) of a QuoteRequest names, in their order: the PartyID
/// (448) of each entry with PartyIDSource 447=D and PartyRole 452=35. It is an iterator over them,
/// and borrows the bytes of the message.
#[derive(Drop)]
pub struct NamedDealers<'a> {
    fields: Fields<'a>,
}

impl<'a> Model for NamedDealers<'a> {
    ghost use Rattle.std.specs.Prelude.{ℕ, List};
    ghost use Rattle.quote_messages.specs.PartyGroup.{named_dealers, entries_of, AreWhole};

    ghost Value = { List (List ℕ) };

    ghost view = { λ dealers. named_dealers dealers.fields };

    ghost invariant = { λ dealers. AreWhole (entries_of dealers.fields) };
}

impl<'a> NamedDealers<'a> {
    /// The dealers that fields name, whose entries are whole.
    pub(crate) fn of(fields: Fields<'a>) -> Self
        requires { AreWhole (entries_of fields) }
        ensures { result ≡ named_dealers fields.entry }
    {
        NamedDealers { fields }
    }

    /// The same dealers once more, to be gone through apart.
    pub fn again(&self) -> Self
        ensures { result ≡ self.now }
    {
        NamedDealers {
            fields: self.fields.again(),
        }
    }
}

impl<'a> Iterator for NamedDealers<'a> {
    ghost use Rattle.std.specs.Iterator.{YieldsFirstBy, item_count};

    type Item = Id<'a>;

    ghost next_gives = { YieldsFirstBy (λ id. id) (λ rest. rest) };

    ghost remaining = { item_count (λ rest. rest) };

    fn next(&mut self) -> Option<Id<'a>> {
        let id = next_dealer(&mut self.fields)?;
        Id::new(id)
    }
}
