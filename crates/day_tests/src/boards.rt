//! Two threads on one board.
ghost use Rattle.std.specs.Prelude.{◌≡◌, ◌<◌, IfOk, All};
ghost use Rattle.quote_word.specs.Board.{Answered};

use fix_fields::Memory;
use quote_word::{Board, BoardSeen, Receipt, Settled};
use std::alloc::Global;
use std::process::Abort;
use std::sync::atomic::{AtomicU64, Ordering};
use std::test::Fail;
use std::thread::join;

const WORDS: u32 = 1000;

// How often a thread looks whether the other has begun, before it goes on alone.
const MOST_LOOKS: u32 = 1_000_000;

/// Says that this thread is here, and waits a while for the other.
fn begins(here: &AtomicU64) {
    here.fetch_add(1, Ordering::SeqCst);
    for _ in 0..MOST_LOOKS {
        if here.load(Ordering::SeqCst) >= 2 {
            return;
        }
    }
}

/// Withdraws or lifts each word, from the first to the last.
fn settles_all(
    alloc: Global,
    board: &Board,
    seen: BoardSeen,
    wish: Settled,
    here: &AtomicU64,
) -> Result<Vec<Receipt>, Memory>
    requires { seen.board ≡ board.now }
    ensures { IfOk result (λ v. All (λ (r : Answered). r.seen.board ≡ board.now) v.items) }
{
    let mut receipts = Vec::with_capacity(alloc, board.len() as usize)?;
    begins(here);
    for w in 0..board.len() {
        receipts.push(settles(board, seen.again(), wish, w))?;
    }
    Ok(receipts)
}

/// Withdraws or lifts a word.
fn settles(board: &Board, seen: BoardSeen, wish: Settled, w: u32) -> Receipt
    requires seen { seen.board ≡ board.now }
    requires word { w < board.now.words }
    ensures { result.seen.board ≡ board.now }
{
    match wish {
        Settled::Withdrawn => board.withdraw(seen, w),
        Settled::Lifted => board.lift(seen, w),
    }
}

/// Brings the receipts of each word together, and counts the withdrawals and the lifts.
fn counts_answers<R: Abort>(
    rt: &R,
    board: &Board,
    withdrawals: Vec<Receipt>,
    lifts: Vec<Receipt>,
) -> (u32, u32)
    requires withdrawals { All (λ (r : Answered). r.seen.board ≡ board.now) withdrawals.items }
    requires lifts { All (λ (r : Answered). r.seen.board ≡ board.now) lifts.items }
{
    let mut withdrawn = 0u32;
    let mut lifted = 0u32;
    for (first, second) in withdrawals.into_iter().zip(lifts) {
        assert_eq!(rt; first.word(), second.word());
        let met = board.meet(first, second);
        assert_eq!(rt; met.first(), met.second());
        match met.first() {
            Settled::Withdrawn => withdrawn = withdrawn.saturating_add(1),
            Settled::Lifted => lifted = lifted.saturating_add(1),
        }
    }
    (withdrawn, lifted)
}

// One thread withdraws each word and the other lifts each: whoever comes first, both are told one
// answer.
#[test]
fn a_word_has_one_answer_for_two_threads(rt: HostRuntime) -> Result<(), Fail> {
    let (board, opening) = Board::open(rt.alloc(), WORDS)?;
    let (dealer, investor) = (opening.again(), opening);
    let here = AtomicU64::new(0);
    let alloc = rt.alloc();
    let (withdrawals, lifts) = join(
        &rt,
        || settles_all(alloc, &board, dealer, Settled::Withdrawn, &here),
        || settles_all(alloc, &board, investor, Settled::Lifted, &here),
    );
    let (withdrawals, lifts) = (withdrawals?, lifts?);
    assert_eq!(rt;
        (withdrawals.len(), lifts.len()),
        (WORDS as usize, WORDS as usize)
    );
    let (withdrawn, lifted) = counts_answers(&rt, &board, withdrawals, lifts);
    assert_eq!(rt; withdrawn.saturating_add(lifted), WORDS);
    Ok(())
}
