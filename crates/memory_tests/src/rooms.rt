//! A room.
use super::values::{DEADLINE, ask, at};
use bond_prices::Ticks;
use fix_fields::{Memory, Moment};
use market_terms::{AskedDealers, Reply};
use quote_word::Settled;
use request_room::{End, EndKind, Room};
use std::alloc::Global;
use std::process::Abort;
use std::test::Fail;

/// A call of a room.
#[derive(Drop)]
enum Call {
    Open,
    Ready,
    Post(u16, u32),
    Unpost(u16, u32),
    Decline(u16),
    Hit(u32),
    Pass,
    Expire,
}

/// Calls, and whether each takes effect.
type Calls = &'static [(Call, bool)];

/// The quote of the dealer 2 is hit, and that of the dealer 0 is the cover.
const HIT: Calls = &[
    (Call::Decline(1), false),
    (Call::Open, true),
    (Call::Post(0, 10), true),
    (Call::Post(1, 20), true),
    (Call::Pass, false),
    (Call::Ready, true),
    (Call::Post(0, 11), true),
    (Call::Unpost(0, 10), false),
    (Call::Unpost(1, 20), true),
    (Call::Post(2, 30), true),
    (Call::Hit(20), false),
    (Call::Hit(30), true),
    (Call::Expire, false),
];

const PASSED: Calls = &[(Call::Open, true), (Call::Ready, true), (Call::Pass, true)];

const EXPIRED: Calls = &[
    (Call::Open, true),
    (Call::Ready, true),
    (Call::Expire, true),
];

/// The end by a pass or an expiry.
fn ended(kind: EndKind) -> End {
    End {
        kind,
        winner: None,
        cover: None,
    }
}

/// The end by a hit of this dealer's quote.
fn awarded(dealer: u16, w: u32, cover: u16) -> End {
    End {
        kind: EndKind::Awarded,
        winner: Some((dealer, w)),
        cover: Some(cover),
    }
}

/// A room behind these calls, each of which is an event.
fn behind(rt: &impl Abort, alloc: Global, calls: Calls) -> Result<Room, Memory> {
    let mut room = Room::vacant(alloc);
    for (call, effect) in calls {
        assert!(rt; makes_again(rt, &mut room, call)? == *effect);
    }
    assert_eq!(rt; room.events().len(), calls.len());
    Ok(room)
}

#[test]
fn a_refused_call_leaves_the_room(rt: HostRuntime) -> Result<(), Fail> {
    let days: [(Calls, End); 3] = [
        (HIT, awarded(2, 30, 0)),
        (PASSED, ended(EndKind::Passed)),
        (EXPIRED, ended(EndKind::Expired)),
    ];
    for (calls, end) in days {
        let room = behind(&rt, rt.alloc(), calls)?;
        assert!(&rt; room.end() == Some(end));
    }
    Ok(())
}

#[test]
fn a_hundred_posts_are_refused_in_turn(rt: HostRuntime) -> Result<(), Fail> {
    let mut room = Room::vacant(rt.alloc());
    assert!(rt; makes_again(&rt, &mut room, &Call::Open)?);
    assert!(rt; makes_again(&rt, &mut room, &Call::Ready)?);
    for w in 0..100 {
        assert!(rt; makes_again(&rt, &mut room, &Call::Post((w % 3) as u16, w))?);
    }
    assert_eq!(rt; room.events().len(), 102);
    assert!(rt; room.question_hit(96, at(&rt, 1)).is_err());
    assert!(rt; makes_again(&rt, &mut room, &Call::Hit(98))?);
    assert!(rt; room.end() == Some(awarded(2, 98, 1)));
    Ok(())
}

/// Makes a call, and where memory was refused looks at the room and makes it again.
fn makes_again(rt: &impl Abort, room: &mut Room, call: &Call) -> Result<bool, Memory> {
    let before = seen(room, at(rt, 1));
    if let Ok(effect) = makes(rt, room, call) {
        return Ok(effect);
    }
    assert!(rt;
        seen(room, at(rt, 1)) == before,
        "a refused call changed the room"
    );
    makes(rt, room, call)
}

/// Makes a call, and answers whether it took effect.
fn makes(rt: &impl Abort, room: &mut Room, call: &Call) -> Result<bool, Memory> {
    match call {
        Call::Open => opens(rt, room),
        Call::Ready => {
            assert!(rt; room.is_opening(), "the room is opening");
            room.ready()?;
            Ok(true)
        }
        Call::Post(dealer, w) => {
            let price = Ticks::new(25_476).expect(rt, "a price");
            assert!(rt; room.is_vacant() || room.named(*dealer));
            room.post(*dealer, *w, price, None)
        }
        Call::Unpost(dealer, w) => {
            assert!(rt; room.is_vacant() || room.named(*dealer));
            room.unpost(*dealer, *w)
        }
        other => ends(rt, room, other),
    }
}

/// Makes a call of a dealer that declines, or that may end the room.
fn ends(rt: &impl Abort, room: &mut Room, call: &Call) -> Result<bool, Memory> {
    match call {
        Call::Decline(dealer) => {
            assert!(rt; room.is_vacant() || room.named(*dealer));
            room.decline(*dealer)
        }
        Call::Hit(w) => {
            let reply = hits(room, *w, at(rt, 1))?;
            Ok(reply == Reply::Awarded)
        }
        Call::Pass => room.pass(at(rt, 1)),
        _ => room.expire(at(rt, DEADLINE)),
    }
}

/// Opens a vacant room for the dealers 0, 1 and 2.
fn opens(rt: &impl Abort, room: &mut Room) -> Result<bool, Memory> {
    assert!(rt; room.is_vacant(), "the room is vacant");
    let dealers = AskedDealers::new(&[0, 1, 2]).expect(rt, "three dealers");
    room.open(ask(rt), dealers)?;
    Ok(true)
}

/// A hit of this word, which is lifted where it is asked.
fn hits(room: &mut Room, w: u32, moment: Moment) -> Result<Reply, Memory> {
    if room.question_hit(w, moment).is_err() {
        return room.hit(w, moment, None);
    }
    room.hit(w, moment, Some(Settled::Lifted))
}

/// What the readers of a room answer: how many events, whether it is vacant, whether it is opening,
/// whether it ended, and the sum of the words that may be hit.
fn seen(room: &Room, moment: Moment) -> (usize, bool, bool, bool, u32) {
    let mut words: u32 = 0;
    for w in [10, 11, 20, 30] {
        if room.question_hit(w, moment).is_ok() {
            words = words.wrapping_add(w);
        }
    }
    (
        room.events().len(),
        room.is_vacant(),
        room.is_opening(),
        room.end().is_some(),
        words,
    )
}
