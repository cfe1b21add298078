//! A dealer's desk.
use super::values::{ask, at};
use case_lines::{CaseFault, frame_of, piped_bytes_of};
use dealer_desk::DealerDesk;
use fix_fields::{Date, Memory};
use market_terms::{Close, RoomRef};
use quote_word::Settled;
use std::alloc::Global;
use std::process::Abort;
use std::test::Fail;
use venue_rows::{DealerRow, Name, Traders};

/// The rooms of two requests of one investor.
const FIRST_ROOM: RoomRef = RoomRef { investor: 7, n: 1 };

const SECOND_ROOM: RoomRef = RoomRef { investor: 7, n: 2 };

/// A call of a desk.
enum Call {
    /// The request of this room is shown.
    Show(RoomRef),
    /// Bytes that are no frame.
    Bytes(&'static [u8]),
    /// A message: its type, its number, and the fields behind its header.
    Take(&'static str, u32, &'static str),
    /// The next of so many quotes is dropped.
    Drop(u32),
    /// The request of this room was hit.
    Tell(RoomRef),
}

/// A call, the own number of the quote whose word it asks, or 0, whether something is left to be
/// done or a notice was due, and the exposure behind it.
type Called = (Call, u32, bool, u64);

/// A day: its calls, the exposure that it allows, the number of the quote whose word is lifted, and
/// how many events and messages there are at its end.
struct Day {
    calls: &'static [Called],
    exposure: u64,
    lifted: u32,
    events: usize,
    messages: usize,
}

/// A quote on the first request.
const QUOTE: &str = "117=a1|131=R1|48=BONDA0000001|22=4|133=99.50390625";

/// One that replaces it.
const REPLACEMENT: &str = "117=a2|131=R1|48=BONDA0000001|22=4|133=99";

/// One on the second request.
const SECOND_QUOTE: &str = "117=a3|131=R2|48=BONDA0000001|22=4|133=99";

/// Two that are cancelled at once.
const FIRST_OF_TWO: &str = "117=a1|131=R1|48=BONDA0000001|22=4|133=99";

const SECOND_OF_TWO: &str = "117=a2|131=R2|48=BONDA0000001|22=4|133=99";

/// Two requests, eight messages and two notices, each of them once. The cancel of the second quote
/// finds it lifted.
const MESSAGES: Day = Day {
    calls: &[
        (Call::Show(FIRST_ROOM), 0, false, 0),
        (Call::Show(SECOND_ROOM), 0, false, 0),
        (Call::Bytes(b"8=FIXT.1.1\x019=1\x01"), 0, false, 0),
        // no type of a dealer
        (Call::Take("R", 1, "131=a1"), 0, false, 0),
        (Call::Take("S", 2, QUOTE), 0, true, 2_000_000),
        (Call::Take("S", 3, REPLACEMENT), 1, true, 2_000_000),
        (Call::Take("Z", 4, "298=5|117=a2"), 2, true, 0),
        (Call::Take("AG", 5, "131=R1|658=10"), 0, true, 0),
        (Call::Take("S", 6, SECOND_QUOTE), 0, true, 2_000_000),
        (Call::Take("Z", 7, "298=5|117=a3"), 3, false, 2_000_000),
        (Call::Tell(FIRST_ROOM), 0, true, 2_000_000),
        (Call::Tell(FIRST_ROOM), 0, false, 2_000_000),
        (Call::Tell(SECOND_ROOM), 0, true, 0),
        (Call::Tell(SECOND_ROOM), 0, false, 0),
    ],
    exposure: 10_000_000,
    lifted: 3,
    events: 12,
    messages: 11,
};

/// The last message of that day.
const NOTICE: &[u8] = b"8=FIXT.1.1\x019=134\x0135=AJ\x0149=VENUE\x0156=DLR1\x0134=11\x01\
    52=20250314-09:00:00.000\x01693=N2\x01131=R2\x01117=a3\x01694=1\x0155=[N/A]\x01\
    48=BONDA0000001\x0122=4\x0154=1\x0138=2000000\x01133=99\x0110=255\x01";

/// Two quotes are cancelled at once: the first is withdrawn, the second lifted, and then none is
/// left.
const DROPS: Day = Day {
    calls: &[
        (Call::Show(FIRST_ROOM), 0, false, 0),
        (Call::Show(SECOND_ROOM), 0, false, 0),
        (Call::Take("S", 1, FIRST_OF_TWO), 0, true, 2_000_000),
        (Call::Take("S", 2, SECOND_OF_TWO), 0, true, 4_000_000),
        (Call::Take("Z", 3, "298=4"), 0, true, 4_000_000),
        (Call::Drop(2), 1, true, 2_000_000),
        (Call::Drop(2), 2, false, 2_000_000),
        (Call::Drop(2), 0, false, 2_000_000),
    ],
    exposure: 4_000_000,
    lifted: 2,
    events: 8,
    messages: 6,
};

/// The bytes of a call that brings some: a message is one of T1, and is framed.
fn bytes_of(alloc: Global, call: &Call) -> Result<Vec<u8>, CaseFault> {
    match call {
        Call::Bytes(bytes) => {
            let bytes = Vec::from_slice(alloc, bytes)?;
            Ok(bytes)
        }
        Call::Take(msg_type, number, fields) => message_of(alloc, msg_type, *number, fields),
        _ => Ok(Vec::new(alloc)),
    }
}

/// The frame of a message of T1.
fn message_of(
    alloc: Global,
    msg_type: &str,
    number: u32,
    fields: &str,
) -> Result<Vec<u8>, CaseFault> {
    let head = format!(in alloc; "35={msg_type}|49=DLR1|56=VENUE|34={number}")?;
    let head = head.as_str();
    let text = format!(in alloc; "{head}|52=20250314-09:00:10.000|50=T1|{fields}|")?;
    let body = piped_bytes_of(alloc, text.as_str())?;
    frame_of(alloc, body.as_slice())
}

/// The bytes of a call; where memory was refused, made once more.
fn bytes_at_last(alloc: Global, call: &Call) -> Result<Vec<u8>, CaseFault> {
    if let Ok(bytes) = bytes_of(alloc, call) {
        return Ok(bytes);
    }
    bytes_of(alloc, call)
}

/// The row of DLR1 with the trader T1 and 4 quotes.
fn row(rt: &impl Abort, exposure: u64) -> DealerRow {
    let mut traders = Traders::new();
    let trader = Name::new(b"T1").expect(rt, "a name");
    assert!(rt; traders.push(&trader), "no room for T1");
    assert!(rt; traders.len() >= 1);
    assert!(rt; exposure >= 1 && exposure <= DealerRow::MOST_EXPOSURE);
    let name = Name::new(b"DLR1").expect(rt, "a name");
    DealerRow {
        name,
        traders,
        quotes: 4,
        exposure,
    }
}

/// What the readers of a desk answer: how many events, how many messages, the sum of their bytes,
/// the exposure, whether the two rooms were shown, and the quote that a drop would ask for.
type Seen = (usize, usize, u32, u64, bool, bool, u32);

fn seen(desk: &DealerDesk) -> Seen {
    let mut bytes: u32 = 0;
    for message in desk.sent() {
        bytes = bytes.wrapping_add(sum(message.as_bytes()));
    }
    (
        desk.events().len(),
        desk.sent().len(),
        bytes,
        desk.exposure(),
        desk.was_shown(FIRST_ROOM),
        desk.was_shown(SECOND_ROOM),
        desk.question_drop(2).unwrap_or(0),
    )
}

/// The sum of bytes.
fn sum(bytes: &[u8]) -> u32 {
    let mut sum: u32 = 0;
    for c in bytes {
        sum = sum.wrapping_add(u32::from(*c));
    }
    sum
}

/// What the word of a quote answers to a withdrawal.
fn settlement_of(quote: u32, lifted: u32) -> Settled {
    if quote == lifted {
        Settled::Lifted
    } else {
        Settled::Withdrawn
    }
}

/// A call with the bytes that it brings, and the number of the quote whose word is lifted.
#[derive(Drop)]
struct Coming<'a> {
    call: &'a Call,
    bytes: &'a [u8],
    lifted: u32,
}

/// What came of a call: the quote whose word it asks, or 0, and whether something is left.
type Made = (u32, bool);

/// Takes bytes.
fn takes(rt: &impl Abort, desk: &mut DealerDesk, coming: &Coming<'_>) -> Result<Made, Memory> {
    let moment = at(rt, 32_410_000);
    let Some(quote) = desk.question(moment, coming.bytes) else {
        let left = desk.take(moment, coming.bytes, None)?;
        return Ok((0, left.is_some()));
    };
    let settlement = settlement_of(quote, coming.lifted);
    let left = desk.take(moment, coming.bytes, Some(settlement))?;
    Ok((quote, left.is_some()))
}

/// Drops the next quote up to `last`.
fn drops(rt: &impl Abort, desk: &mut DealerDesk, last: u32, lifted: u32) -> Result<Made, Memory> {
    let moment = at(rt, 32_430_000);
    let Some(quote) = desk.question_drop(last) else {
        let (unpost, _) = desk.drop_one(last, moment, None)?;
        return Ok((0, unpost.is_some()));
    };
    let (unpost, _) = desk.drop_one(last, moment, Some(settlement_of(quote, lifted)))?;
    Ok((quote, unpost.is_some()))
}

/// Makes a call.
fn makes(rt: &impl Abort, desk: &mut DealerDesk, coming: &Coming<'_>) -> Result<Made, Memory> {
    let morning = at(rt, 32_400_000);
    match coming.call {
        Call::Show(room) => {
            desk.show(*room, ask(rt), morning)?;
            Ok((0, false))
        }
        Call::Drop(last) => drops(rt, desk, *last, coming.lifted),
        Call::Tell(room) => {
            let told = desk.tell(*room, Close::Hit, morning)?;
            Ok((0, told))
        }
        _ => takes(rt, desk, coming),
    }
}

/// The quote whose word a call asks, or 0.
fn asked_by(rt: &impl Abort, desk: &DealerDesk, coming: &Coming<'_>) -> u32 {
    match coming.call {
        Call::Show(_) | Call::Tell(_) => 0,
        Call::Drop(last) => desk.question_drop(*last).unwrap_or(0),
        _ => desk.question(at(rt, 32_410_000), coming.bytes).unwrap_or(0),
    }
}

/// Makes a call, and where memory was refused looks at the desk and makes it again.
fn makes_again(
    rt: &impl Abort,
    desk: &mut DealerDesk,
    coming: &Coming<'_>,
) -> Result<Made, Memory> {
    let before = seen(desk);
    let asked = asked_by(rt, desk, coming);
    if let Ok(made) = makes(rt, desk, coming) {
        return Ok(made);
    }
    assert!(rt; seen(desk) == before, "a refused call changed the desk");
    assert!(rt;
        asked_by(rt, desk, coming) == asked,
        "a refused call changed its question"
    );
    makes(rt, desk, coming)
}

/// The desk of DLR1 behind a day.
fn behind(rt: &impl Abort, alloc: Global, day: &Day) -> Result<DealerDesk, Fail> {
    let date = Date::new(b"20250314").expect(rt, "a date");
    let mut desk = DealerDesk::new(alloc, date, row(rt, day.exposure))?;
    for (call, asked, left, exposure) in day.calls {
        let bytes = bytes_at_last(alloc, call)?;
        let coming = Coming {
            call,
            bytes: bytes.as_slice(),
            lifted: day.lifted,
        };
        let made = makes_again(rt, &mut desk, &coming)?;
        assert!(rt; made == (*asked, *left));
        assert!(rt; desk.exposure() == *exposure);
    }
    assert!(rt; desk.events().len() == day.events);
    assert!(rt; desk.sent().len() == day.messages);
    Ok(desk)
}

#[test]
fn a_refused_call_leaves_the_desk(rt: HostRuntime) -> Result<(), Fail> {
    let desk = behind(&rt, rt.alloc(), &MESSAGES)?;
    let last = desk.sent().last().expect(&rt, "a notice");
    assert!(rt; last.as_bytes() == NOTICE);
    Ok(())
}

#[test]
fn a_refused_drop_leaves_the_desk(rt: HostRuntime) -> Result<(), Fail> {
    let _desk = behind(&rt, rt.alloc(), &DROPS)?;
    Ok(())
}
