//! Whether each room was swept as the clock was told: the sweeps are put under their rooms once,
//! and each room is then looked at once.
ghost use Rattle.std.specs.Prelude.{◌≡◌, find, not, IfOk, OnOk};
ghost use Rattle.std.specs.Option.{option_copied};
ghost use Rattle.std.specs.Str.{bytes_eq};
ghost use Rattle.market_terms.specs.declared.rooms.RoomRef.{RoomRef};
ghost use Rattle.day_checks.specs.DayChecks as spec;
ghost use Rattle.day_checks.specs.SweptRooms as kept;

use crate::day_rooms::DayRoom;
use fix_fields::{Memory, Moment};
use market_terms::RoomRef;
use recorded_days::Sweep;
use request_room::RoomEvent;
use std::alloc::Global;
use std::collections::BTreeMap;

/// The first room, in the order of the list, that was not swept as the clock was told: the moments
/// of its sweeps, by its events, are not those of the sweeps of that room, in their order. It fails
/// for memory alone.
pub(crate) fn sweep_fault(
    alloc: Global,
    rooms: &[DayRoom],
    sweeps: &[Sweep],
) -> Result<Option<RoomRef>, Memory>
    ensures { IfOk result (λ fault. fault ≡ spec.first_unswept sweeps.now rooms.now) }
{
    let by_room = times_by_room(alloc, sweeps)?;
    let Some(room) = first_unswept(&by_room, rooms) else {
        return Ok(None);
    };
    Ok(Some(room.at()))
}

/// The moments at which the clock was to sweep each room, in their order.
fn times_by_room(alloc: Global, sweeps: &[Sweep]) -> Result<BTreeMap<RoomRef, Vec<Moment>>, Memory>
    ensures { IfOk result (λ by_room. (room : RoomRef)
        → kept.list_of by_room room ≡ spec.times_for room sweeps.now) }
{
    let mut by_room = BTreeMap::new(alloc);
    let mut rest = sweeps;
    while let Some((sweep, later)) = rest.split_first() {
        put_sweep(alloc, &mut by_room, *sweep)?;
        rest = later;
    }
    Ok(by_room)
}

/// Puts the moment of a sweep under its room, behind the others.
fn put_sweep(
    alloc: Global,
    by_room: &mut BTreeMap<RoomRef, Vec<Moment>>,
    sweep: Sweep,
) -> Result<(), Memory>
    ensures { OnOk result ((room : RoomRef) → kept.list_of by_room.new room
        ≡ kept.times_after room sweep (kept.list_of by_room.old room)) }
{
    let times = by_room.entry(sweep.room)?.or_insert(Vec::new(alloc));
    times.push(sweep.moment)?;
    Ok(())
}

/// The first of these rooms that was not swept at the moments that stand under it.
fn first_unswept<'a>(
    by_room: &BTreeMap<RoomRef, Vec<Moment>>,
    rooms: &'a [DayRoom],
) -> Option<&'a DayRoom>
    ensures { option_copied result
        ≡ find (λ room. not (kept.is_swept_by by_room.now room)) rooms.entry.now }
{
    rooms.iter().find(|room| !is_swept(by_room, room))
}

/// Whether a room was swept at the moments that stand under it.
fn is_swept(by_room: &BTreeMap<RoomRef, Vec<Moment>>, room: &DayRoom) -> bool
    ensures { result ≡ kept.is_swept_by by_room.now room.now }
{
    let Some(times) = by_room.get(&room.at()) else {
        return are_swept(room.events(), &[]);
    };
    are_swept(room.events(), times.as_slice())
}

/// Whether the moments of the sweeps among these events of a room are these.
fn are_swept(events: &[RoomEvent], times: &[Moment]) -> bool
    ensures { result ≡ bytes_eq (spec.times_swept events.now) times.now }
{
    let mut events = events;
    let mut times = times;
    while let Some((event, later)) = events.split_first() {
        events = later;
        let RoomEvent::Expire { moment } = event else {
            continue;
        };
        let Some((time, behind)) = times.split_first() else {
            return false;
        };
        if moment != time {
            return false;
        }
        times = behind;
    }
    times.is_empty()
}
