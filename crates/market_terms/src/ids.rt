//! Identifiers that firms choose.
ghost use Rattle.std.specs.Prelude.{◌≡◌, ℕ, List, Some, IsTrue, nat_eq, refl};
ghost use Rattle.std.specs.List.{list_all};
ghost use Rattle.std.specs.Ordering.{nat_cmp};
ghost use Rattle.std.specs.Cmp.{partial_equiv_from_equiv};
ghost use Rattle.std.specs.Cmp.Lexicographic.{pointwise, slice_cmp, texts_po, texts_ties};
ghost use Rattle.std.specs.Cmp.Lexicographic.{nat_list_eq_equiv, nat_list_cmp_total};
ghost use Rattle.fix_fields.specs.Frame.{IsValue};
ghost use Rattle.venue_rows.specs.Texts.{text_if};
ghost use Rattle.market_terms.specs.Texts.{is_id, is_id_character};

use arrayvec::ArrayString;
use std::cmp::Ordering;
use std::marker::Model;
use std::str;

/// How many characters an identifier has at most.
pub(crate) const LONGEST_ID: usize = 40;

/// An identifier as it stands in a message (QuoteID 117, QuoteReqID 131, QuoteRespID 693,
/// SecurityID 48, PartyID 448): 1 to 40 printing ASCII characters without the space and the
/// vertical bar.
#[derive(Drop)]
pub struct Id<'a> {
    text: &'a [u8],
}

impl<'a> Model for Id<'a> {
    ghost Value = { List ℕ };

    ghost view = { λ i. i.text.now };

    ghost invariant = { λ i. IsTrue (is_id i.text.now) };
}

impl<'a> Id<'a> {
    /// The identifier that these bytes are, or none where they are none.
    pub fn new(text: &'a [u8]) -> Option<Self>
        ensures { result ≡ text_if is_id text.now }
    {
        if text.is_empty() || text.len() > LONGEST_ID || !are_id_characters(text) {
            return None;
        }
        Some(Id { text })
    }

    /// The characters.
    #[tactic(auto, using(crate::proofs::IdTexts::id_is_value))]
    pub fn as_bytes(&self) -> &[u8]
        ensures value { result.now ≡ self.now }
        ensures id { IsTrue (is_id self.now) }
        ensures field { IsValue self.now }
    {
        self.text
    }
}

/// An identifier that a firm chose (QuoteID 117, QuoteReqID 131, QuoteRespID 693), kept beyond its
/// message.
///
/// A contract sees its characters. Identifiers are compared by them, so they may be the keys of an
/// ordered map.
#[derive(Drop)]
pub struct IdBuf {
    text: ArrayString<LONGEST_ID>,
}

impl Model for IdBuf {
    ghost Value = { List ℕ };

    ghost view = { λ i. i.text.bytes };

    ghost invariant = { λ i. IsTrue (is_id i.text.bytes) };
}

impl IdBuf {
    /// A copy of an identifier. It takes no memory.
    #[tactic(auto, using(crate::proofs::IdTexts::id_is_utf8, crate::proofs::IdTexts::id_is_short))]
    pub fn of(id: &Id) -> Self
        ensures { result ≡ id.now }
    {
        let text = str::from_utf8(id.as_bytes()).unwrap();
        let text = ArrayString::from(text).unwrap();
        IdBuf { text }
    }

    /// The same identifier once more. It takes no memory.
    pub fn copy(&self) -> Self
        ensures { result ≡ self.now }
    {
        IdBuf { text: self.text }
    }

    /// The identifier as a message bears it.
    pub fn as_id(&self) -> Id<'_>
        ensures { result ≡ self.now }
    {
        Id {
            text: self.text.as_bytes(),
        }
    }

    /// The characters.
    #[tactic(auto, using(crate::proofs::IdTexts::id_is_value))]
    pub fn as_bytes(&self) -> &[u8]
        ensures value { result.now ≡ self.now }
        ensures id { IsTrue (is_id self.now) }
        ensures field { IsValue self.now }
    {
        self.text.as_bytes()
    }
}

impl PartialEq for IdBuf {
    ghost eq = { λ one other. pointwise nat_eq one other };

    ghost laws = { partial_equiv_from_equiv nat_list_eq_equiv };

    fn eq(&self, other: &Self) -> bool {
        self.text == other.text
    }
}

impl Eq for IdBuf {
    ghost laws = { nat_list_eq_equiv };
}

impl PartialOrd for IdBuf {
    ghost partial_cmp = { λ one other. Some (slice_cmp nat_cmp one other) };

    ghost laws = { texts_po };

    fn partial_cmp(&self, other: &Self) -> Option<Ordering> {
        Some(self.cmp(other))
    }
}

impl Ord for IdBuf {
    ghost cmp = { λ one other. slice_cmp nat_cmp one other };

    ghost total = { nat_list_cmp_total };

    ghost matches_partial_cmp = { λ one other. refl };

    ghost matches_eq = { λ one other. texts_ties one other };

    fn cmp(&self, other: &Self) -> Ordering {
        self.text.cmp(&other.text)
    }
}

/// Whether each byte may stand in an identifier.
fn are_id_characters(text: &[u8]) -> bool
    ensures { result ≡ list_all is_id_character text.now }
{
    text.iter().all(|c| is_id_character(*c))
}

/// A printing character other than the space and the vertical bar.
fn is_id_character(c: u8) -> bool
    ensures { result ≡ is_id_character c }
{
    c.is_ascii_graphic() && c != b'|'
}
