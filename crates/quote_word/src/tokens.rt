//! What a thread has seen of a board, and the settlements that it got.
ghost use Rattle.std.specs.Prelude.{◌≡◌, Some};
ghost use Rattle.quote_word.specs.SettleLog.{entry_of, IsLegal};

use crate::rule::Law;
use crate::{Settled, Settlement};
use logbook::Seen;
use std::marker::Model;

/// A token: it stands for as much of a board's settle log as was seen. It takes no bytes, and a
/// copy says the same.
#[derive(Drop)]
pub struct BoardSeen {
    pub(crate) seen: Seen<Settlement, u64, Law>,
}

impl Model for BoardSeen {
    ghost use Rattle.quote_word.specs.Board.{Front};

    ghost Value = { Front };

    ghost use Rattle.quote_word.specs.Rule.{front_of, settle_log, IsBegun};
    ghost use Rattle.quote_word.specs.SettleLog.{IsLegal};

    ghost view = { λ s. front_of s.seen.book s.seen.log };

    ghost invariant = { λ s. IsBegun s.seen.log × IsLegal (settle_log s.seen.log) };
}

impl BoardSeen {
    /// A copy, which has seen the same.
    pub fn again(&self) -> BoardSeen
        ensures same { result ≡ self.now }
        ensures legal { IsLegal result.log }
    {
        BoardSeen {
            seen: self.seen.again(),
        }
    }
}

/// The settlement that a call on a word gave, with what its caller has seen since.
#[derive(Drop)]
pub struct Receipt {
    pub(crate) word: u32,
    pub(crate) settled: Settled,
    pub(crate) seen: BoardSeen,
}

impl Model for Receipt {
    ghost use Rattle.std.specs.Prelude.{◌≡◌, Some};
    ghost use Rattle.quote_word.specs.Board.{Answered};
    ghost use Rattle.quote_word.specs.SettleLog.{entry_of};

    ghost Value = { Answered };

    ghost view = { λ r. record { word = r.word; settlement = r.settled; seen = r.seen } };

    ghost invariant = { λ r. entry_of r.word r.seen.log ≡ Some r.settled };
}

impl Receipt {
    /// The word that was asked.
    pub fn word(&self) -> u32
        ensures { result ≡ self.now.word }
    {
        self.word
    }

    /// What the word is from that call on: its entry in the log that was then seen.
    pub fn settled(&self) -> Settled
        ensures settlement { result ≡ self.now.settlement }
        ensures entry { entry_of self.now.word self.now.seen.log ≡ Some result }
    {
        self.settled
    }

    /// A copy of the token: the log as it was seen after the call.
    pub fn seen(&self) -> BoardSeen
        ensures { result ≡ self.now.seen }
    {
        self.seen.again()
    }
}

/// Two receipts that met: one log that extends what both had seen, with the settlements of both.
#[derive(Drop)]
pub struct Met {
    pub(crate) front: BoardSeen,
    pub(crate) first: Settled,
    pub(crate) second: Settled,
}

impl Model for Met {
    ghost use Rattle.quote_word.specs.Board.{Meeting};

    ghost Value = { Meeting };

    ghost view = { λ m. record { front = m.front; first = m.first; second = m.second } };
}

impl Met {
    /// A copy of the token that is later than both.
    pub fn front(&self) -> BoardSeen
        ensures { result ≡ self.now.front }
    {
        self.front.again()
    }

    /// What the first receipt's word is.
    pub fn first(&self) -> Settled
        ensures { result ≡ self.now.first }
    {
        self.first
    }

    /// What the second receipt's word is.
    pub fn second(&self) -> Settled
        ensures { result ≡ self.now.second }
    {
        self.second
    }
}
