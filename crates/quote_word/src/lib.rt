//! The words of quotes.
//!
//! Each accepted quote has one *word*: it is open, and from its settlement on it is withdrawn or
//! lifted for good. (A settlement of a word is its withdrawal or its lift, and not that of a
//! trade.) The dealer's withdrawal and the investor's hit race for the word, and the word alone
//! decides: who comes second is told what the word is, and changes nothing.
//!
//! [`Words`] is what every row of words promises: an entry that stands stays, and a settlement is
//! the word's entry from then on. Two kinds of rows keep it.
//!
//! - [`PlainWords`] keeps its words in a list and is for one thread. What it promises is exact:
//!   where the word was open it becomes the wish, and no other word changes.
//! - [`Board`] is shared by threads. A call on it is one compare-and-exchange, made once: it waits
//!   for nobody, and an exchange that fails has found a word that is settled for good.
//!   [`BoardPass`] is a board with its caller's token.
//!
//! ```text
//! let mut words = PlainWords::new(alloc, 2)?;
//! words.withdraw(0)   // Settled::Withdrawn
//! words.lift(0)       // Settled::Withdrawn, as before
//! ```
//!
//! The settlements of a board stand in one log, which only grows and has no word twice. The log is
//! in the proofs alone; a [`BoardSeen`] stands for as much of it as was seen, and takes no bytes. A
//! call takes a token and gives a [`Receipt`], whose token has seen more. Where the receipts of two
//! threads meet and are of the same word, their settlements are the same.
//!
//! ```text
//! let (board, opening) = Board::open(alloc, 2)?;
//! let mine = board.withdraw(opening.again(), 0);      // in one thread
//! let yours = board.lift(opening, 0);                 // in another
//! let met = board.meet(mine, yours);
//! met.first() == met.second()
//! ```
#![tactic(auto)]

mod board;
mod laws;
mod pass;
mod plain;
mod rule;
mod settled;
mod tokens;

pub use board::Board;
pub use laws::{
    an_exchange_adds_one_settlement, an_exchange_changes_one_word,
    an_exchange_on_a_board_is_seen_later,
};
pub use pass::BoardPass;
pub use plain::PlainWords;
pub use settled::{Settled, Settlement, Words};
pub use tokens::{BoardSeen, Met, Receipt};
