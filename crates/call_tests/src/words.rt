//! The words of a board that is shared, and of a list.
use quote_word::{Board, BoardPass, BoardSeen, Met, PlainWords, Receipt, Settled, Words};
use std::process::Abort;
use std::test::Fail;

/// Makes four exchanges of two words that are open, and looks at what each answers: who comes
/// second is told what the first one made of the word.
fn are_settled_in_turn<W: Words>(rt: &impl Abort, words: &mut W) {
    assert!(rt; words.len() == 2);
    let first = words.withdraw(0);
    assert!(rt; words.len() == 2);
    let second = words.lift(0);
    assert!(rt; words.len() == 2);
    let third = words.lift(1);
    assert!(rt; words.len() == 2);
    let fourth = words.withdraw(1);
    assert!(rt; first == Settled::Withdrawn && second == Settled::Withdrawn);
    assert!(rt; third == Settled::Lifted && fourth == Settled::Lifted);
}

#[test]
fn plain_words_are_called(rt: HostRuntime) -> Result<(), Fail> {
    let mut words = PlainWords::new(rt.alloc(), 2)?;
    are_settled_in_turn(&rt, &mut words);
    Ok(())
}

#[test]
fn a_pass_is_called(rt: HostRuntime) -> Result<(), Fail> {
    let (board, seen) = Board::open(rt.alloc(), 2)?;
    let mut pass = BoardPass::new(&board, seen);
    are_settled_in_turn(&rt, &mut pass);
    Ok(())
}

#[test]
fn a_board_is_called(rt: HostRuntime) -> Result<(), Fail> {
    let (board, opening): (Board, BoardSeen) = Board::open(rt.alloc(), 2)?;
    assert_eq!(rt; board.len(), 2);
    let dealer: Receipt = board.withdraw(opening.again(), 0);
    let investor: Receipt = board.lift(opening.again(), 0);
    let later = board.both(dealer.seen(), investor.seen());
    let (found, latest): (Option<Settled>, BoardSeen) = board.look(later, 1);
    assert!(rt; found.is_none());
    let lift = board.lift(latest, 1);
    assert!(rt; (lift.word(), lift.settled()) == (1, Settled::Lifted));
    let met: Met = board.meet(dealer, investor);
    assert!(rt; met.first() == Settled::Withdrawn && met.second() == Settled::Withdrawn);
    let (found, _) = board.look(met.front(), 0);
    assert!(rt; found == Some(Settled::Withdrawn));
    Ok(())
}
