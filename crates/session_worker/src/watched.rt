//! The words of a board as one action asks them: the gate is told before the exchange, and each word
//! that is asked is noted. Nobody outside of this module can ask a word of a venue's board.
ghost use Rattle.std.specs.Prelude.{◌≡◌};
ghost use Rattle.quote_word.specs.SettleLog.{IsLegal};
ghost use Rattle.session_worker.specs.Watched as spec;
ghost use Rattle.session_worker.specs.declared.watched.WordsAsked.TheVariants as all_asked;
ghost use mathlib.Core.List.{IsPrefix};

use crate::gates::{Gate, Point};
use quote_word::{Board, BoardPass, BoardSeen, Settled, Words};
use std::marker::Model;
use step_replay::Actor;

/// The board of a venue, which lends its words to one action at a time.
#[derive(Drop)]
pub(crate) struct VenueBoard {
    board: Board,
}

impl Model for VenueBoard {
    ghost use Rattle.quote_word.specs.Board.{BoardName};

    ghost Value = { BoardName };

    ghost view = { λ venue. venue.board };
}

impl VenueBoard {
    /// A board, for a venue.
    pub(crate) fn new(board: Board) -> VenueBoard
        ensures { result ≡ board }
    {
        VenueBoard { board }
    }

    /// What an action of an actor needs to ask a word: it may do so once.
    pub(crate) fn acting<'a, G: Gate>(&'a self, action: (Actor, u64), gate: &'a G) -> Acting<'a, G>
        ensures by { result.by ≡ action.0 }
        ensures number { result.number ≡ action.1 }
        ensures board { result.board.now ≡ self.entry.now }
    {
        Acting {
            by: action.0,
            number: action.1,
            board: &self.board,
            gate,
        }
    }

    /// A token that is later than both: it has seen what each has seen.
    pub(crate) fn both(&self, first: BoardSeen, second: BoardSeen) -> BoardSeen
        requires first { first.board ≡ self.now }
        requires second { second.board ≡ self.now }
        ensures ours { result.board ≡ self.now }
        ensures legal { IsLegal result.log }
        ensures first { IsPrefix first.log result.log }
        ensures second { IsPrefix second.log result.log }
    {
        self.board.both(first, second)
    }
}

/// Who does an action, and which of its actions it is, from 1; with the board, which is this
/// module's own, and the gate of the day. It is used up where the action asks for words.
#[derive(Drop)]
pub(crate) struct Acting<'a, G: Gate> {
    pub(crate) by: Actor,
    pub(crate) number: u64,
    board: &'a Board,
    gate: &'a G,
}

/// The words that an action asked, with their settlements. No action asks more than one.
#[derive(Clone, Copy)]
pub(crate) enum WordsAsked {
    /// None.
    Nothing,
    /// This one, which was settled so.
    One(u32, Settled),
    /// More than one.
    Several,
}

impl WordsAsked {
    /// These and one more.
    fn and(self, word: u32, settled: Settled) -> WordsAsked
        ensures { result ≡ spec.and_asked self word settled }
    {
        match self {
            WordsAsked::Nothing => WordsAsked::One(word, settled),
            WordsAsked::One(_, _) => WordsAsked::Several,
            WordsAsked::Several => WordsAsked::Several,
        }
    }

    /// The word, where there is one alone.
    pub(crate) fn word(self) -> Option<(u32, Settled)>
        ensures { result ≡ spec.word_in self }
    {
        match self {
            WordsAsked::Nothing => None,
            WordsAsked::One(word, settled) => Some((word, settled)),
            WordsAsked::Several => None,
        }
    }
}

/// A board with the token of the lock that the action holds. Contracts see it as that token, with
/// all the words that were asked.
#[derive(Drop)]
pub(crate) struct WatchedWords<'a, G: Gate> {
    pass: BoardPass<'a>,
    by: Actor,
    gate: &'a G,
    asked: WordsAsked,
}

impl<'a, G: Gate> Model for WatchedWords<'a, G> {
    ghost use Rattle.session_worker.specs.Watched.{Watched};

    ghost Value = { Watched };

    ghost view = { λ words. record { front = words.pass; asked = words.asked } };
}

impl<'a, G: Gate> WatchedWords<'a, G> {
    /// The words of the board, of which the lock has seen so much. They use up what the action has,
    /// so it has no others.
    pub(crate) fn new(acting: Acting<'a, G>, seen: BoardSeen) -> WatchedWords<'a, G>
        requires { seen.board ≡ acting.board.now }
        ensures { result ≡ record { front = seen; asked = all_asked.Nothing } }
    {
        let Acting {
            by,
            board,
            gate,
            ..
        } = acting;
        WatchedWords {
            pass: BoardPass::new(board, seen),
            by,
            gate,
            asked: WordsAsked::Nothing,
        }
    }

    /// The token, which has seen how each was settled, and all the words that the action asked.
    pub(crate) fn into_parts(self) -> (BoardSeen, WordsAsked)
        ensures seen { result.0 ≡ self.entry.front }
        ensures asked { result.1 ≡ self.entry.asked }
    {
        let Self { pass, asked, .. } = self;
        (pass.into_seen(), asked)
    }
}

impl<'a, G: Gate> Words for WatchedWords<'a, G> {
    ghost count = { λ watched. watched.front.board.words };

    ghost entry = { spec.entry_watched };

    ghost settles = { spec.SettlesWatched };

    ghost count_stays = { spec.watched_keeps_count };

    ghost answer_is_entry = { spec.watched_answers_entry };

    ghost entry_stays = { spec.watched_keeps_entries };

    fn len(&self) -> u32 {
        self.pass.len()
    }

    fn withdraw(&mut self, w: u32) -> Settled {
        self.gate.at(Point::Asked(self.by));
        let settled = self.pass.withdraw(w);
        self.asked = self.asked.and(w, settled);
        settled
    }

    fn lift(&mut self, w: u32) -> Settled {
        self.gate.at(Point::Asked(self.by));
        let settled = self.pass.lift(w);
        self.asked = self.asked.and(w, settled);
        settled
    }
}
