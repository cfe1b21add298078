//! The closing notices of one dealer, put under their rooms.
ghost use Rattle.std.specs.Prelude.{◌≡◌, IfOk, OnOk};
ghost use Rattle.std.specs.BTreeMap.{get};
ghost use Rattle.day_checks.specs.DayChecks as spec;
ghost use Rattle.day_checks.specs.ToldRooms as kept;
ghost use Rattle.day_checks.specs.ToldRooms.{room_cmp};

use crate::notices::Notice;
use fix_fields::Memory;
use market_terms::{Close, RoomRef};
use std::alloc::Global;
use std::collections::BTreeMap;

/// What a dealer was told of a room.
#[derive(Clone, Copy)]
pub(crate) enum Told {
    /// Once, that it ended so.
    Once(Close),
    /// More than once.
    Often,
}

/// What was told of each room by these notices.
pub(crate) fn by_room(alloc: Global, notices: &[Notice]) -> Result<BTreeMap<RoomRef, Told>, Memory>
    ensures { IfOk result (λ by_room. (room : RoomRef) (close : Close)
        → kept.is_once (get room_cmp by_room room) close
        ≡ spec.is_told_once notices.now room close) }
{
    let mut by_room = BTreeMap::new(alloc);
    let mut rest = notices;
    while let Some((notice, later)) = rest.split_first() {
        put_notice(&mut by_room, notice)?;
        rest = later;
    }
    Ok(by_room)
}

/// Puts a notice under its room, where it is of one.
fn put_notice(by_room: &mut BTreeMap<RoomRef, Told>, notice: &Notice) -> Result<(), Memory>
    ensures { OnOk result ((room : RoomRef) → get room_cmp by_room.new room
        ≡ kept.told_after room notice.now (get room_cmp by_room.old room)) }
{
    let Some(room) = notice.room else {
        return Ok(());
    };
    let told = told_more(by_room.get(&room).copied(), notice.close);
    by_room.insert(room, told)?;
    Ok(())
}

/// What was told of a room, with a notice more that it ended so.
fn told_more(was: Option<Told>, close: Close) -> Told
    ensures { result ≡ kept.told_more was close }
{
    if was.is_some() {
        return Told::Often;
    }
    Told::Once(close)
}

/// Whether exactly one notice was of this room, and it said this.
pub(crate) fn is_once(by_room: &BTreeMap<RoomRef, Told>, room: RoomRef, close: Close) -> bool
    ensures { result ≡ kept.is_once (get room_cmp by_room.now room) close }
{
    let Some(told) = by_room.get(&room).copied() else {
        return false;
    };
    let Told::Once(said) = told else {
        return false;
    };
    said.code() == close.code()
}
