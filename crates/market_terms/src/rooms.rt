//! Which request of which investor, the dealers that it names, and how its quotes and responses are
//! named.
ghost use Rattle.std.specs.Prelude.{◌≡◌, ◌==◌, ◌≤◌, Some, None, length, IsTrue, if◌then◌else◌};
ghost use Rattle.std.specs.List.{list_any};
ghost use Rattle.market_terms.specs.Dealers.{are_askable, are_distinct};

use crate::IdBuf;
use arrayvec::ArrayVec;
use bond_prices::Ticks;
use fix_fields::Moment;
use std::marker::Model;
use venue_rows::Name;

/// The room of a request: that of the n-th accepted request of an investor.
#[derive(Clone, Copy, PartialEq, Eq, PartialOrd, Ord)]
pub struct RoomRef {
    /// The number of the investor among the firms of the configuration.
    pub investor: u16,
    /// Which of its accepted requests it is, from 1.
    pub n: u32,
}

/// How many dealers a request names at most.
pub(crate) const MOST_DEALERS: usize = 8;

/// The dealers that a request names (PartyID 448 with PartyRole 452=35), by their numbers among the
/// firms of the configuration and in the request's order: 1 to 8, none of them twice.
#[derive(Drop)]
pub struct AskedDealers {
    numbers: ArrayVec<u16, MOST_DEALERS>,
}

impl Model for AskedDealers {
    ghost use Rattle.std.specs.Prelude.{ℕ, List, IsTrue};
    ghost use Rattle.market_terms.specs.Dealers.{are_askable};

    ghost Value = { List ℕ };

    ghost view = { λ dealers. dealers.numbers.items };

    ghost invariant = { λ dealers. IsTrue (are_askable dealers.numbers.items) };
}

impl AskedDealers {
    /// How many dealers a request names at most.
    pub const MOST: usize = MOST_DEALERS;

    /// These dealers, or none where there is none, where there are more than
    /// [`AskedDealers::MOST`], and where one stands twice. It takes no memory.
    pub fn new(dealers: &[u16]) -> Option<Self>
        ensures { result ≡ (if are_askable dealers.now then Some dealers.now else None) }
    {
        if dealers.is_empty() || dealers.len() > MOST_DEALERS || !are_distinct(dealers) {
            return None;
        }
        let numbers = ArrayVec::try_from(dealers).unwrap();
        Some(AskedDealers { numbers })
    }

    /// Their numbers in order.
    pub fn as_slice(&self) -> &[u16]
        ensures value { result.now ≡ self.now }
        ensures some { 1 ≤ length result.now }
        ensures few { length result.now ≤ AskedDealers.MOST }
        ensures distinct { IsTrue (are_distinct result.now) }
    {
        self.numbers.as_slice()
    }

    /// Whether a dealer is one of them.
    pub fn names(&self, dealer: u16) -> bool
        ensures { result ≡ list_any (λ named. named == dealer) self.now }
    {
        names(self.numbers.as_slice(), dealer)
    }

    /// The same dealers once more. It takes no memory.
    pub fn copy(&self) -> Self
        ensures { result ≡ self.now }
    {
        let numbers = ArrayVec::try_from(self.numbers.as_slice()).unwrap();
        AskedDealers { numbers }
    }
}

/// What of a quote is posted in the room of its request, and its investor is shown.
#[derive(Drop)]
pub struct Offer {
    /// The dealer that quotes.
    pub dealer: Name,
    /// The quote's word.
    pub word: u32,
    /// Its price on the asked side.
    pub price: Ticks,
    /// The moment from which on it can't be hit (ValidUntilTime 62), where one was given.
    pub valid_until: Option<Moment>,
}

/// A response of an investor to a request (QuoteResponse 35=AJ), as its reply names it.
#[derive(Drop)]
pub struct ResponseRef {
    /// QuoteRespID (693) as it was received.
    pub id: IdBuf,
    /// Which of the quotes shown to the investor it hits, the number in QuoteID (117); none for a
    /// pass.
    pub k: Option<u64>,
}

/// Whether no dealer stands twice.
fn are_distinct(dealers: &[u16]) -> bool
    ensures { result ≡ are_distinct dealers.now }
{
    for i in 0..dealers.len() {
        if names(&dealers[i + 1..], dealers[i]) {
            return false;
        }
    }
    true
}

/// Whether a dealer is one of these.
fn names(dealers: &[u16], dealer: u16) -> bool
    ensures { result ≡ list_any (λ named. named == dealer) dealers.now }
{
    dealers.iter().any(|named| *named == dealer)
}
