//! The book of a room: the quotes that stand in it, the best first.
ghost use Rattle.std.specs.Prelude.{◌≡◌, ◌==◌, ◌<◌, ◌≤◌, not, length, filter, find, vec_len};
ghost use Rattle.std.specs.Prelude.{[], vec_capacity, IsOk, OnOk};
ghost use Rattle.std.specs.List.{list_any, position, position_or_len};
ghost use Rattle.std.specs.Option.{option_map};
ghost use Rattle.request_room.specs.Book as spec;
ghost use Rattle.request_room.specs.Kept as kept;

use crate::PostedQuote;
use bond_prices::Ticks;
use fix_fields::Memory;
use market_terms::Side;
use std::alloc::Global;

/// A quote as the book keeps it.
#[derive(Clone, Copy)]
pub(crate) struct RankedQuote {
    /// Which of the room's events posted it. Of two quotes the one with the lower number was posted
    /// earlier.
    pub(crate) posting: usize,
    /// The quote.
    pub(crate) quote: PostedQuote,
}

/// The quotes that stand in a room, the best first, of equal prices the earlier posted first. It
/// holds no events.
#[derive(Drop)]
pub(crate) struct RoomBook {
    /// The side of the investor, which says whether a low price or a high one is best.
    pub(crate) side: Side,
    /// The quotes in that order.
    pub(crate) quotes: Vec<RankedQuote>,
}

impl RoomBook {
    /// A book in which nothing stands. It takes no memory.
    pub(crate) fn empty(alloc: Global, side: Side) -> Self
        ensures side { result.side ≡ side }
        ensures quotes { result.quotes.items ≡ [] }
    {
        RoomBook {
            side,
            quotes: Vec::new(alloc),
        }
    }

    /// Room for one quote more.
    pub(crate) fn reserve(&mut self) -> Result<(), Memory>
        ensures side { self.new.side ≡ self.old.side }
        ensures quotes { self.new.quotes.items ≡ self.old.quotes.items }
        ensures room { OnOk result (vec_len self.new.quotes < vec_capacity self.new.quotes) }
    {
        self.quotes.reserve(1)?;
        Ok(())
    }

    /// Puts a quote that is posted now where it ranks, in the place of the one that its dealer has
    /// in the book. There is room for it.
    pub(crate) fn post(&mut self, posting: usize, quote: PostedQuote) -> Result<(), Memory>
        requires { vec_len self.old.quotes < vec_capacity self.old.quotes }
        ensures ok { IsOk result }
        ensures side { self.new.side ≡ self.old.side }
        ensures quotes { self.new.quotes.items
            ≡ kept.rank_in self.old.side
            (filter (λ one. not (one.quote.dealer == quote.dealer)) self.old.quotes.items)
            (record { posting = posting; quote = quote }) }
    {
        leave_others(&mut self.quotes, quote.dealer);
        let place = rank_of(self.side, &self.quotes, quote.price);
        self.quotes.insert(place, RankedQuote { posting, quote })?;
        Ok(())
    }

    /// Takes out the quote of this dealer with this word.
    pub(crate) fn unpost(&mut self, dealer: u16, w: u32)
        ensures side { self.new.side ≡ self.old.side }
        ensures quotes { self.new.quotes.items
            ≡ filter (λ one. not (kept.is_kept_of dealer w one)) self.old.quotes.items }
    {
        take_out(&mut self.quotes, dealer, w);
    }

    /// Whether that quote of that dealer stands in the book.
    pub(crate) fn stands(&self, dealer: u16, w: u32) -> bool
        ensures { result ≡ list_any (kept.is_kept_of dealer w) self.now.quotes.items }
    {
        self.quotes.iter().any(|one| is_kept_of(dealer, w, one))
    }

    /// The quote that a hit of this word means: the earliest posted of those that bear it.
    pub(crate) fn hit(&self, w: u32) -> Option<PostedQuote>
        ensures { result
            ≡ option_map (λ one. one.quote) (kept.earliest_of w self.now.quotes.items) }
    {
        let found = earliest_of(w, &self.quotes)?;
        Some(found.quote)
    }

    /// The dealer of the cover of an award to a dealer: the first other one.
    pub(crate) fn cover(&self, winner: u16) -> Option<u16>
        ensures { result ≡ option_map (λ one. one.quote.dealer)
            (find (λ one. not (one.quote.dealer == winner)) self.now.quotes.items) }
    {
        first_other(winner, &self.quotes)
    }
}

/// Leaves only the quotes of the other dealers.
fn leave_others(quotes: &mut Vec<RankedQuote>, dealer: u16)
    ensures items { quotes.new.items
        ≡ filter (λ one. not (one.quote.dealer == dealer)) quotes.old.items }
    ensures len { vec_len quotes.new ≤ vec_len quotes.old }
    ensures capacity { vec_capacity quotes.old ≤ vec_capacity quotes.new }
{
    quotes.retain(|one| one.quote.dealer != dealer);
}

/// Takes out the quote of this dealer with this word.
fn take_out(quotes: &mut Vec<RankedQuote>, dealer: u16, w: u32)
    ensures { quotes.new.items
        ≡ filter (λ one. not (kept.is_kept_of dealer w one)) quotes.old.items }
{
    quotes.retain(|one| !is_kept_of(dealer, w, one));
}

/// Whether a quote is that of this dealer with this word.
fn is_kept_of(dealer: u16, w: u32, one: &RankedQuote) -> bool
    ensures { result ≡ kept.is_kept_of dealer w one.now }
{
    one.quote.dealer == dealer && one.quote.word == w
}

/// Where a price ranks: behind each than which it is not better.
#[tactic(auto, using(crate::proofs::RankLemmas::place_or_end, crate::proofs::RankLemmas::within))]
fn rank_of(side: Side, quotes: &[RankedQuote], price: Ticks) -> usize
    ensures place { result
        ≡ position_or_len (λ one. spec.is_better side price one.quote.price) quotes.now }
    ensures within { result ≤ length quotes.now }
{
    first_worse(side, quotes, price).unwrap_or(quotes.len())
}

/// Where the first quote stands than which a price is better.
fn first_worse(side: Side, quotes: &[RankedQuote], price: Ticks) -> Option<usize>
    ensures { result ≡ position (λ one. spec.is_better side price one.quote.price) quotes.now }
{
    quotes
        .iter()
        .position(|one| is_better(side, price, one.quote.price))
}

/// Whether a price is better than another for an investor of this side.
fn is_better(side: Side, price: Ticks, other: Ticks) -> bool
    ensures { result ≡ spec.is_better side price other }
{
    match side {
        Side::Buy => price < other,
        Side::Sell => other < price,
    }
}

/// The earliest posted of the quotes that bear a word.
fn earliest_of(w: u32, quotes: &[RankedQuote]) -> Option<RankedQuote>
    ensures { result ≡ kept.earliest_of w quotes.now }
{
    let mut found = None;
    for one in quotes {
        if comes_first(w, &found, one) {
            found = Some(*one);
        }
    }
    found
}

/// Whether a quote bears a word and was posted before the one found so far.
fn comes_first(w: u32, found: &Option<RankedQuote>, one: &RankedQuote) -> bool
    ensures { result ≡ kept.comes_first w found.now one.now }
{
    let Some(found) = found else {
        return one.quote.word == w;
    };
    one.quote.word == w && one.posting < found.posting
}

/// The dealer of the first quote that is another's.
fn first_other(winner: u16, quotes: &[RankedQuote]) -> Option<u16>
    ensures { result ≡ option_map (λ one. one.quote.dealer)
        (find (λ one. not (one.quote.dealer == winner)) quotes.now) }
{
    for one in quotes {
        if one.quote.dealer != winner {
            return Some(one.quote.dealer);
        }
    }
    None
}
