//! The words of a board, as one of its callers sees them.
ghost use Rattle.std.specs.Prelude.{◌≡◌};
ghost use Rattle.quote_word.specs.Board.{SettlesOnBoard};
ghost use Rattle.quote_word.specs.SettleLog.{entry_of};
ghost use Rattle.quote_word.specs.BoardLaws as laws;

use crate::board::Board;
use crate::tokens::{BoardSeen, Receipt};
use crate::{Settled, Words};
use std::marker::Model;

/// A borrowed board, with the latest token of the caller: what [`Words`] needs of a board.
/// Contracts see it as that token.
#[derive(Drop)]
pub struct BoardPass<'a> {
    board: &'a Board,
    seen: BoardSeen,
}

impl<'a> Model for BoardPass<'a> {
    ghost use Rattle.std.specs.Prelude.{◌≡◌};
    ghost use Rattle.quote_word.specs.Board.{Front};

    ghost Value = { Front };

    ghost view = { λ p. p.seen };

    ghost invariant = { λ p. p.seen.board ≡ p.board.now };
}

impl<'a> BoardPass<'a> {
    /// The words of a board, with a token of the caller's.
    pub fn new(board: &'a Board, seen: BoardSeen) -> BoardPass<'a>
        requires { seen.board ≡ board.now }
        ensures { result ≡ seen }
    {
        BoardPass { board, seen }
    }

    /// Keeps the token of a receipt, and returns its settlement.
    fn keep(&mut self, receipt: Receipt) -> Settled
        requires { receipt.seen.board ≡ self.old.board }
        ensures token { self.new ≡ receipt.seen }
        ensures settlement { result ≡ receipt.settlement }
    {
        self.seen = receipt.seen();
        receipt.settled()
    }

    /// The token: what was seen by the last call.
    pub fn into_seen(self) -> BoardSeen
        ensures { result ≡ self.entry }
    {
        self.seen
    }
}

impl Words for BoardPass<'_> {
    ghost count = { λ front. front.board.words };

    ghost entry = { λ front w. entry_of w front.log };

    ghost settles = { SettlesOnBoard };

    ghost count_stays = { laws.board_keeps_count };

    ghost answer_is_entry = { laws.board_answers_entry };

    ghost entry_stays = { laws.board_keeps_entries };

    fn len(&self) -> u32 {
        self.board.len()
    }

    fn withdraw(&mut self, w: u32) -> Settled {
        let receipt = self.board.withdraw(self.seen.again(), w);
        self.keep(receipt)
    }

    fn lift(&mut self, w: u32) -> Settled {
        let receipt = self.board.lift(self.seen.again(), w);
        self.keep(receipt)
    }
}
