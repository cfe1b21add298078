//! Rows of words.
use fix_fields::Memory;
use quote_word::{Board, BoardSeen, PlainWords, Words};
use std::alloc::Global;
use std::test::Fail;

/// Opens a board, and again where memory was refused.
fn opened_at_last(alloc: Global, n: u32) -> Result<(Board, BoardSeen), Memory> {
    match Board::open(alloc, n) {
        Ok(opened) => Ok(opened),
        Err(_) => Board::open(alloc, n),
    }
}

/// Makes words in a list, and again where memory was refused.
fn made_at_last(alloc: Global, n: u32) -> Result<PlainWords, Memory> {
    match PlainWords::new(alloc, n) {
        Ok(words) => Ok(words),
        Err(_) => PlainWords::new(alloc, n),
    }
}

// Whichever allocation is refused, the call says so, leaves nothing behind and can be made again.
#[test]
fn refused_memory_is_asked_for_again(rt: HostRuntime) -> Result<(), Fail> {
    let (board, opening) = opened_at_last(rt.alloc(), 3)?;
    assert_eq!(rt; board.len(), 3);
    let _ = opening;
    let words = made_at_last(rt.alloc(), 3)?;
    assert_eq!(rt; words.len(), 3);
    Ok(())
}
