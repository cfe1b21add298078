//! A stream that is cut.
use fix_fields::{Messages, Splitter, StreamFault};
use std::process::Abort;
use std::test::Fail;

/// A Quote of 133 bytes.
const QUOTE: &[u8; 133] = b"8=FIXT.1.1\x019=109\x0135=S\x0149=DLR1\x0156=VENUE\x0134=1\x01\
    52=20250314-09:00:10.000\x0150=T1\x01117=a1\x01131=R1\x0148=BONDA0000001\x0122=4\x01\
    133=99.50390625\x0110=039\x01";

/// Feeds a piece, and where memory was refused feeds it again.
fn feeds(splitter: &mut Splitter, piece: &[u8]) -> Result<Messages, Fail> {
    match splitter.feed(piece) {
        Ok(messages) => return Ok(messages),
        Err(StreamFault::Memory) => {}
        Err(fault) => return Err(fault.into()),
    }
    let messages = splitter.feed(piece)?;
    Ok(messages)
}

/// Feeds a piece that ends this many Quotes.
fn ends(rt: &impl Abort, splitter: &mut Splitter, piece: &[u8], count: usize) -> Result<(), Fail> {
    let messages = feeds(splitter, piece)?.into_vec();
    assert_eq!(rt; messages.len(), count);
    for message in &messages {
        assert!(rt; message.as_slice() == QUOTE.as_slice());
    }
    Ok(())
}

/// Feeds a Quote in two pieces, cut behind this many bytes.
fn ends_in_two(rt: &impl Abort, splitter: &mut Splitter, count: usize) -> Result<(), Fail> {
    let (front, behind) = QUOTE.split_at(count.min(QUOTE.len()));
    ends(rt, splitter, front, 0)?;
    ends(rt, splitter, behind, 1)
}

/// Two Quotes and the front of a third.
const QUOTES: &[u8] = b"8=FIXT.1.1\x019=109\x0135=S\x0149=DLR1\x0156=VENUE\x0134=1\x01\
    52=20250314-09:00:10.000\x0150=T1\x01117=a1\x01131=R1\x0148=BONDA0000001\x0122=4\x01\
    133=99.50390625\x0110=039\x01\
    8=FIXT.1.1\x019=109\x0135=S\x0149=DLR1\x0156=VENUE\x0134=1\x01\
    52=20250314-09:00:10.000\x0150=T1\x01117=a1\x01131=R1\x0148=BONDA0000001\x0122=4\x01\
    133=99.50390625\x0110=039\x01\
    8=FIXT.1.1\x019=109\x0135=S\x01";

#[test]
fn a_refused_piece_is_fed_again(rt: HostRuntime) -> Result<(), Fail> {
    let mut splitter = Splitter::new(rt.alloc());
    ends_in_two(&rt, &mut splitter, 10)?;
    ends(&rt, &mut splitter, QUOTES, 2)?;
    let (_, behind) = QUOTE.split_at(22);
    ends(&rt, &mut splitter, behind, 1)?;
    ends(&rt, &mut splitter, QUOTES, 2)?;
    Ok(())
}

#[test]
fn a_refused_piece_with_a_fault_is_fed_again(rt: HostRuntime) -> Result<(), Fail> {
    let mut splitter = Splitter::new(rt.alloc());
    ends_in_two(&rt, &mut splitter, 100)?;
    ends(&rt, &mut splitter, b"8=FIXT.1.1\x019=x", 0)?;
    assert!(rt; matches!(splitter.feed(QUOTE), Err(StreamFault::Length)));
    assert!(rt; matches!(splitter.feed(b""), Err(StreamFault::Length)));
    Ok(())
}
