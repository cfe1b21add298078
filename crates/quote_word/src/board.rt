//! A board of words that threads share.
ghost use Rattle.std.specs.Prelude.{◌≡◌, ◌<◌, [], Some, IfOk};
ghost use mathlib.Core.List.{IsPrefix};
ghost use Rattle.quote_word.specs.PlainWords.{settlement_of};
ghost use Rattle.quote_word.specs.Rule.{code_of, entry_of_code};
ghost use Rattle.quote_word.specs.Board.{SettlesOnBoard};
ghost use Rattle.quote_word.specs.SettleLog.{entry_of, IsLegal};

use crate::rule::{Exchange, Law, Look, Nothing};
use crate::tokens::{BoardSeen, Met, Receipt};
use crate::{Settled, Settlement};
use logbook::{Offer, Seen, Start, Word};
use std::alloc::{AllocError, Global};
use std::marker::Model;

/// What a step asks for, with which nothing is handed over.
type Asked = Offer<Settlement, u64, Law, Nothing>;

/// A row of words that threads share. Contracts see which board it is and how many words it has.
#[derive(Drop)]
pub struct Board {
    words: Vec<Word<Settlement, u64, Law>>,
    opening: BoardSeen,
}

impl Model for Board {
    ghost use Rattle.quote_word.specs.Board.{BoardName};

    ghost Value = { BoardName };

    ghost use Rattle.quote_word.specs.Rule.{AreWords};

    ghost view = { λ b. b.opening.board };

    ghost invariant = { λ b. AreWords b.words.items b.opening.board };
}

/// The number that stands in an open word.
const OPEN: u64 = 0;

/// The number that stands in a word that is settled so.
fn code(wish: Settled) -> u64
    ensures { result ≡ code_of (Some wish) }
{
    match wish {
        Settled::Withdrawn => 1,
        Settled::Lifted => 2,
    }
}

/// What a number in a word says.
fn entry_found(found: u64) -> Option<Settled>
    ensures { result ≡ entry_of_code found }
{
    match found {
        0 => None,
        1 => Some(Settled::Withdrawn),
        _ => Some(Settled::Lifted),
    }
}

/// The settlement by an exchange that found this number.
fn settlement_of(found: u64, wish: Settled) -> Settled
    ensures { result ≡ settlement_of (entry_of_code found) wish }
{
    match entry_found(found) {
        None => wish,
        Some(settled) => settled,
    }
}

impl Board {
    /// A board of n open words, and the token that has seen no settlement. n may be 0. It fails
    /// only for memory.
    pub fn open(alloc: Global, n: u32) -> Result<(Board, BoardSeen), AllocError>
        ensures board { IfOk result (λ r. (r.0 ≡ r.1.board) × (r.1.board.words ≡ n)) }
        ensures empty { IfOk result (λ r. r.1.log ≡ []) }
    {
        let mut words = Vec::with_capacity(alloc, n as usize)?;
        let (seen, mut pens) = Seen::open_row::<u32, Law>(&n, Start::alone(), n as usize);
        for _ in 0..n {
            words.push(Word::tracked(OPEN, &mut pens.take()))?;
        }
        let opening = BoardSeen { seen };
        let seen = opening.again();
        Ok((Board { words, opening }, seen))
    }

    /// How many words there are.
    pub fn len(&self) -> u32
        ensures { result ≡ self.now.words }
    {
        self.words.len() as u32
    }

    /// Withdraws a word that is open; the receipt has what the word is from then on.
    pub fn withdraw(&self, seen: BoardSeen, w: u32) -> Receipt
        requires ours { seen.board ≡ self.now }
        requires word { w < self.now.words }
        ensures word { result.word ≡ w }
        ensures settles { SettlesOnBoard seen w Settled.Withdrawn result.settlement result.seen }
        ensures later { IsPrefix seen.log result.seen.log }
        ensures legal { IsLegal result.seen.log }
    {
        self.settle(seen, w, Settled::Withdrawn)
    }

    /// Lifts a word that is open; the receipt has what the word is from then on.
    pub fn lift(&self, seen: BoardSeen, w: u32) -> Receipt
        requires ours { seen.board ≡ self.now }
        requires word { w < self.now.words }
        ensures word { result.word ≡ w }
        ensures settles { SettlesOnBoard seen w Settled.Lifted result.settlement result.seen }
        ensures later { IsPrefix seen.log result.seen.log }
        ensures legal { IsLegal result.seen.log }
    {
        self.settle(seen, w, Settled::Lifted)
    }

    /// What the word is, if it is settled, and a token that has seen that. It loads the word and
    /// settles nothing.
    pub fn look(&self, seen: BoardSeen, w: u32) -> (Option<Settled>, BoardSeen)
        requires ours { seen.board ≡ self.now }
        requires word { w < self.now.words }
        ensures ours { result.1.board ≡ self.now }
        ensures later { IsPrefix seen.log result.1.log }
        ensures legal { IsLegal result.1.log }
        ensures entry { result.0 ≡ entry_of w result.1.log }
    {
        let BoardSeen { mut seen } = seen;
        let asked = Settlement {
            word: w,
            settled: Settled::Withdrawn,
        };
        let mut offer: Asked = seen.plain::<Nothing, Settlement, Exchange>(&asked);
        let word = &self.words[w as usize];
        let found = word.load::<Look, Nothing>(&mut seen, &mut offer);
        (entry_found(found), BoardSeen { seen })
    }

    /// A token that is later than both: it has seen what each has seen.
    pub fn both(&self, first: BoardSeen, second: BoardSeen) -> BoardSeen
        requires first { first.board ≡ self.now }
        requires second { second.board ≡ self.now }
        ensures ours { result.board ≡ self.now }
        ensures legal { IsLegal result.log }
        ensures first { IsPrefix first.log result.log }
        ensures second { IsPrefix second.log result.log }
    {
        let BoardSeen { mut seen } = first;
        let BoardSeen { seen: other } = second;
        seen.learn(&other);
        BoardSeen { seen }
    }

    /// Brings two receipts together: a token that is later than both, and both settlements. Two
    /// receipts of one word have one settlement.
    pub fn meet(&self, first: Receipt, second: Receipt) -> Met
        requires first { first.seen.board ≡ self.now }
        requires second { second.seen.board ≡ self.now }
        ensures ours { result.front.board ≡ self.now }
        ensures legal { IsLegal result.front.log }
        ensures first { IsPrefix first.seen.log result.front.log }
        ensures first_settlement { result.first ≡ first.settlement }
        ensures first_entry { entry_of first.word result.front.log ≡ Some result.first }
        ensures second { IsPrefix second.seen.log result.front.log }
        ensures second_settlement { result.second ≡ second.settlement }
        ensures second_entry { entry_of second.word result.front.log ≡ Some result.second }
        ensures one_settlement { first.word ≡ second.word → result.first ≡ result.second }
    {
        let one = first.settled();
        let two = second.settled();
        let front = self.both(first.seen(), second.seen());
        Met {
            front,
            first: one,
            second: two,
        }
    }

    /// One exchange: the word becomes the wish where it is open, and the receipt has what it is.
    fn settle(&self, seen: BoardSeen, w: u32, wish: Settled) -> Receipt
        requires ours { seen.board ≡ self.now }
        requires word { w < self.now.words }
        ensures word { result.word ≡ w }
        ensures settles { SettlesOnBoard seen w wish result.settlement result.seen }
        ensures later { IsPrefix seen.log result.seen.log }
        ensures legal { IsLegal result.seen.log }
    {
        let BoardSeen { mut seen } = seen;
        let asked = Settlement {
            word: w,
            settled: wish,
        };
        let mut offer: Asked = seen.plain::<Nothing, Settlement, Exchange>(&asked);
        let mut pen = seen.no_pen();
        let word = &self.words[w as usize];
        let found = word.compare_exchange::<Exchange, Nothing>(
            OPEN,
            code(wish),
            &mut seen,
            &mut offer,
            &mut pen,
        );
        let settled = settlement_of(found, wish);
        Receipt {
            word: w,
            settled,
            seen: BoardSeen { seen },
        }
    }
}
