//! The room of a request.
use super::values::{ask, behind_nine, offer};
use fix_fields::{Memory, Moment};
use market_terms::{AskedDealers, HitRefusal, Reply};
use quote_word::Settled;
use request_room::{End, EndKind, Room};
use std::alloc::Global;
use std::process::Abort;
use std::test::Fail;

/// A room that is open for the dealers 0 and 1.
///
/// "A condition that a type can keep is the type's": the dealers are `AskedDealers`, 1 to 8 and
/// none twice.
fn open_room(rt: &impl Abort, alloc: Global) -> Result<Room, Memory> {
    let mut room: Room = Room::vacant(alloc);
    assert!(rt; room.is_vacant());
    let dealers = AskedDealers::new(&[0, 1]).expect(rt, "two dealers");
    room.open(ask(rt), dealers)?;
    assert!(rt; room.is_opening());
    room.ready()?;
    Ok(room)
}

/// A quote that may be hit is, and its word was lifted.
fn is_hit(room: &mut Room, moment: Moment) -> Result<Reply, Fail> {
    let asked: Result<u32, HitRefusal> = room.question_hit(0, moment);
    if asked.is_err() {
        return Err(Fail::from("a quote that may be hit"));
    }
    let reply: Reply = room.hit(0, moment, Some(Settled::Lifted))?;
    Ok(reply)
}

#[test]
fn a_room_is_awarded(rt: HostRuntime) -> Result<(), Fail> {
    let mut room = open_room(&rt, rt.alloc())?;
    let price = offer(&rt, 0).price;
    assert!(rt; room.named(0) && room.named(1) && !room.named(2));
    assert!(rt; room.post(0, 0, price, None)?, "it takes effect");
    assert!(rt; room.named(0) && room.named(1));
    assert!(rt; room.decline(1)?, "it takes effect");
    let reply = is_hit(&mut room, behind_nine(&rt, 60))?;
    assert!(rt; reply == Reply::Awarded);
    let end: Option<End> = room.end();
    assert!(rt;
        end.is_some_and(|end| {
            end.kind == EndKind::Awarded && end.winner == Some((0, 0)) && end.cover.is_none()
        })
    );
    Ok(())
}

#[test]
fn a_room_expires(rt: HostRuntime) -> Result<(), Fail> {
    let mut room = open_room(&rt, rt.alloc())?;
    assert!(rt; room.named(0));
    assert!(rt; !room.unpost(0, 0)?, "no quote stands");
    assert!(rt;
        !room.expire(behind_nine(&rt, 299))?,
        "the deadline has not come"
    );
    assert!(rt; room.expire(behind_nine(&rt, 300))?, "it has come");
    assert!(rt; !room.pass(behind_nine(&rt, 301))?, "the room has ended");
    assert_eq!(rt; room.events().len(), 6);
    Ok(())
}
