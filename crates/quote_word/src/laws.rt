//! Laws of exchanges: each function does nothing, and its clauses hold of all words and logs.
ghost use Rattle.std.specs.Prelude.{◌≡◌, ◌≢◌, ℕ, ◌<◌, List, length, Option, Some, None};
ghost use mathlib.Core.List.{IsPrefix};
ghost use Rattle.quote_word.specs.Board.{Front, SettlesOnBoard};
ghost use Rattle.quote_word.specs.PlainWords.{entry_in, Exchanges};
ghost use Rattle.quote_word.specs.SettleLog.{SettleLog, entry_of, IsLegal, log_after};
ghost use Rattle.quote_word.specs.declared.settled.Settled.{Settled};

/// Words in a list: the word that is asked becomes the wish where it was open, and no other word
/// changes.
pub fn an_exchange_changes_one_word()
    ensures open { (before after : List (Option Settled)) (w : ℕ) (wish settlement : Settled)
        → w < length before → Exchanges before w wish settlement after
        → entry_in before w ≡ None → entry_in after w ≡ Some wish }
    ensures others { (before after : List (Option Settled)) (w v : ℕ) (wish settlement : Settled)
        → Exchanges before w wish settlement after → v ≢ w → entry_in after v ≡ entry_in before v }
{}

/// A settle log: the word that is asked has the wish as its entry where it had none, a settled word
/// adds nothing, no other word's entry changes, and a legal log stays legal.
pub fn an_exchange_adds_one_settlement()
    ensures open { (log : SettleLog) (w : ℕ) (wish : Settled)
        → entry_of w log ≡ None → entry_of w (log_after log w wish) ≡ Some wish }
    ensures settled { (log : SettleLog) (w : ℕ) (wish was : Settled)
        → entry_of w log ≡ Some was → log_after log w wish ≡ log }
    ensures others { (log : SettleLog) (w v : ℕ) (wish : Settled)
        → v ≢ w → entry_of v (log_after log w wish) ≡ entry_of v log }
    ensures legal { (log : SettleLog) (w : ℕ) (wish : Settled)
        → IsLegal log → IsLegal (log_after log w wish) }
{}

/// A board, by whatever call: the log that is seen after an exchange begins with what was seen
/// before it, and is legal.
pub fn an_exchange_on_a_board_is_seen_later()
    ensures later { (before after : Front) (w : ℕ) (wish settlement : Settled)
        → SettlesOnBoard before w wish settlement after → IsPrefix before.log after.log }
    ensures legal { (before after : Front) (w : ℕ) (wish settlement : Settled)
        → SettlesOnBoard before w wish settlement after → IsLegal after.log }
{}
