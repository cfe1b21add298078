//! An investor's desk.
use super::values::{at, name, offer, response};
use case_lines::VENUE;
use fix_fields::Memory;
use investor_desk::InvestorDesk;
use market_terms::{HitRefusal, Reply};
use std::alloc::Global;
use std::process::Abort;
use std::test::Fail;
use venue_config::read_config;

/// A call of a desk.
enum Call {
    /// A message of INV1's own, and whether something is left to be done.
    Take(&'static [u8], bool),
    /// DLR1 quotes.
    QuoteCame(u32),
    /// A quote is taken back.
    QuoteGone(u32),
    /// DLR2 declines.
    Declined,
    /// The room replies to the hit of Q2.
    Answered(Reply),
    /// The request expires.
    Closed,
}

/// The calls of a day, and how many messages each sends: a request of two dealers, a hit of Q2 that
/// comes twice, and a pass that comes twice.
const CALLS: &[(Call, usize)] = &[
    (
        Call::Take(
            b"8=FIXT.1.1\x019=169\x0135=R\x0149=INV1\x0156=VENUE\x0134=1\x01\
        52=20250314-09:00:00\x0150=T8\x01131=A\x01146=1\x0148=BONDA0000001\x0122=4\x01\
        54=1\x0138=1\x01126=20250314-09:05:00\x01453=2\x01448=DLR1\x01447=D\x01452=35\x01\
        448=DLR2\x01447=D\x01452=35\x0110=103\x01",
            true,
        ),
        1,
    ),
    (Call::QuoteCame(7), 1),
    // in the place of the first one
    (Call::QuoteCame(8), 2),
    (
        Call::Take(
            b"8=FIXT.1.1\x019=74\x0135=AJ\x0149=INV1\x0156=VENUE\x0134=2\x01\
        52=20250314-09:00:00\x0150=T8\x01693=h\x01117=Q2\x01694=1\x0110=049\x01",
            true,
        ),
        0,
    ),
    (Call::Answered(Reply::Refused(HitRefusal::Withdrawn)), 1),
    (Call::QuoteGone(7), 0),
    (Call::QuoteGone(8), 1),
    (Call::Declined, 1),
    (Call::Answered(Reply::Awarded), 1),
    (
        Call::Take(
            b"8=FIXT.1.1\x019=73\x0135=AJ\x0149=INV1\x0156=VENUE\x0134=3\x01\
        52=20250314-09:00:00\x0150=T8\x01693=p\x01131=A\x01694=6\x0110=248\x01",
            true,
        ),
        0,
    ),
    (Call::Closed, 1),
    (
        Call::Take(
            b"8=FIXT.1.1\x019=73\x0135=AJ\x0149=INV1\x0156=VENUE\x0134=3\x01\
        52=20250314-09:00:00\x0150=T8\x01693=p\x01131=A\x01694=6\x0110=248\x01",
            false,
        ),
        1,
    ),
];

/// The desk of INV1 at the start of the day, or none where memory is refused.
pub(crate) fn try_desk(alloc: Global) -> Option<InvestorDesk> {
    let config = read_config(alloc, VENUE).ok()?;
    if config.investor(2).is_none() {
        return None;
    }
    InvestorDesk::new(alloc, &config, 2).ok()
}

/// The desk, at the second try where memory is refused at the first.
fn new_desk(alloc: Global) -> Option<InvestorDesk> {
    if let Some(desk) = try_desk(alloc) {
        return Some(desk);
    }
    try_desk(alloc)
}

#[test]
fn a_refused_call_leaves_the_desk(rt: HostRuntime) -> Result<(), Fail> {
    let mut desk = new_desk(rt.alloc()).ok_or("a desk")?;
    let mut messages: usize = 0;
    for (call, sends) in CALLS {
        messages = messages.wrapping_add(*sends);
        makes_again(&rt, &mut desk, call)?;
        assert_eq!(rt; desk.sent().len(), messages, "the messages");
    }
    assert_eq!(rt; desk.events().len(), CALLS.len(), "the events");
    assert_eq!(rt; desk.lines().len(), 1, "the request");
    Ok(())
}

/// What the readers of a desk answer: how many events, messages and lines, and whether it knows Q1
/// and Q2.
fn seen(desk: &InvestorDesk) -> (usize, usize, usize, bool, bool) {
    let events = desk.events().len();
    let messages = desk.sent().len();
    let lines = desk.lines().len();
    (
        events,
        messages,
        lines,
        desk.knows(1, Some(1)),
        desk.knows(1, Some(2)),
    )
}

/// Makes a call, and where memory was refused looks at the desk and makes it again.
fn makes_again(rt: &impl Abort, desk: &mut InvestorDesk, call: &Call) -> Result<(), Fail> {
    let before = seen(desk);
    if makes(rt, desk, call).is_ok() {
        return Ok(());
    }
    assert!(rt; seen(desk) == before, "a refused call changed the desk");
    makes(rt, desk, call)?;
    Ok(())
}

/// Makes a call.
fn makes(rt: &impl Abort, desk: &mut InvestorDesk, call: &Call) -> Result<(), Memory> {
    let moment = at(rt, 32_410_000);
    match call {
        Call::Take(bytes, leaves) => {
            let left = desk.take(moment, bytes)?;
            assert!(rt; left.is_some() == *leaves, "what a message leaves");
            Ok(())
        }
        Call::QuoteCame(word) => desk.quote_came(1, &offer(rt, "DLR1", *word, 256), moment),
        Call::QuoteGone(word) => desk.quote_gone(1, *word, moment),
        Call::Declined => desk.dealer_declined(1, name(rt, "DLR2"), moment),
        Call::Answered(reply) => desk.answered(1, &response(rt, "h", 2), *reply, moment),
        Call::Closed => desk.closed(1, moment),
    }
}
