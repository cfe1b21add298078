//! QuoteIDs as the keys of an ordered map. (A hash map has a fixed seed: a firm could choose IDs that
//! make its day slow.)
ghost use Rattle.std.specs.Prelude.{◌≡◌};
ghost use Rattle.dealer_desk.specs.DealerTable as spec;

use market_terms::IdBuf;

/// A QuoteID (117) as a key. Keys are compared by the last eight characters first, as one number:
/// the QuoteIDs of a dealer's day mostly differ there, and often begin alike. The greatest number
/// stands first: they mostly grow, too, and the map is walked from its front, where a new one is.
#[derive(PartialEq, Eq, PartialOrd, Ord, Drop)]
pub(crate) struct IdKey {
    rank: u64,
    id: IdBuf,
}

impl IdKey {
    /// The key of a QuoteID.
    pub(crate) fn of_id(id: IdBuf) -> Self
        ensures { result ≡ spec.key_of id }
    {
        IdKey {
            rank: rank_of(id.as_bytes()),
            id,
        }
    }
}

/// The place of a text among others by its last eight characters, the greatest first.
fn rank_of(text: &[u8]) -> u64
    ensures { result ≡ spec.rank_of text.now }
{
    u64::MAX - tail_of(text)
}

/// The last eight characters of a text as one number.
fn tail_of(text: &[u8]) -> u64
    ensures { result ≡ spec.tail_of text.now }
{
    let mut tail = 0;
    for c in text {
        tail = tail_with(tail, *c);
    }
    tail
}

/// The number of a text's last eight characters, with a character more.
fn tail_with(tail: u64, c: u8) -> u64
    ensures { result ≡ spec.tail_with tail c }
{
    tail.wrapping_mul(256).wrapping_add(u64::from(c))
}
