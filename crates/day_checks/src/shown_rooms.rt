//! The requests that a dealer was shown, put under their rooms.
ghost use Rattle.std.specs.Prelude.{◌≡◌, IfOk, OnOk};
ghost use Rattle.std.specs.BTreeMap.{get};
ghost use Rattle.day_checks.specs.ShownRequests as spec;
ghost use Rattle.day_checks.specs.ShownRooms as kept;
ghost use Rattle.day_checks.specs.ToldRooms.{room_cmp};

use dealer_desk::DealerEvent;
use fix_fields::Memory;
use market_terms::{Ask, RoomRef};
use std::alloc::Global;
use std::collections::BTreeMap;

/// What a dealer was shown of a room.
#[derive(Drop)]
pub(crate) enum Shown {
    /// Its request, once: what is asked for.
    Once(Ask),
    /// Its request, more than once.
    Often,
}

/// What was shown of each room by these events at a dealer's desk.
pub(crate) fn shown_by_room(
    alloc: Global,
    events: &[DealerEvent],
) -> Result<BTreeMap<RoomRef, Shown>, Memory>
    ensures { IfOk result (λ by_room. (room : RoomRef) (ask : Ask)
        → kept.is_once (get room_cmp by_room room) ask
        ≡ spec.is_shown_once events.now room ask) }
{
    let mut by_room = BTreeMap::new(alloc);
    let mut rest = events;
    while let Some((event, later)) = rest.split_first() {
        put_shown(&mut by_room, event)?;
        rest = later;
    }
    Ok(by_room)
}

/// Puts a request under its room, where an event shows one.
fn put_shown(by_room: &mut BTreeMap<RoomRef, Shown>, event: &DealerEvent) -> Result<(), Memory>
    ensures { OnOk result ((room : RoomRef) → get room_cmp by_room.new room
        ≡ kept.shown_after room event.now (get room_cmp by_room.old room)) }
{
    let DealerEvent::Shown { room, ask, .. } = event else {
        return Ok(());
    };
    let shown = shown_more(by_room.get(room).is_some(), ask);
    by_room.insert(*room, shown)?;
    Ok(())
}

/// What was shown of a room by an event that shows its request so, where another did before or not.
fn shown_more(again: bool, ask: &Ask) -> Shown
    ensures { result ≡ kept.shown_more again ask.now }
{
    if again {
        return Shown::Often;
    }
    Shown::Once(ask.copy())
}

/// Whether exactly one event showed the request of this room, and as one for this.
pub(crate) fn is_shown_once(by_room: &BTreeMap<RoomRef, Shown>, room: RoomRef, ask: &Ask) -> bool
    ensures { result ≡ kept.is_once (get room_cmp by_room.now room) ask.now }
{
    let Some(shown) = by_room.get(&room) else {
        return false;
    };
    let Shown::Once(own) = shown else {
        return false;
    };
    is_same_ask(ask, own)
}

/// Whether two requests ask for the same.
#[tactic(auto, unfolding(crate::specs::ShownRequests::same_ask))]
fn is_same_ask(one: &Ask, other: &Ask) -> bool
    ensures { result ≡ spec.same_ask one.now other.now }
{
    if one.investor.as_bytes() != other.investor.as_bytes() {
        return false;
    }
    if one.bond.as_bytes() != other.bond.as_bytes() {
        return false;
    }
    if one.side.code() != other.side.code() {
        return false;
    }
    if one.quantity.get() != other.quantity.get() {
        return false;
    }
    if one.deadline != other.deadline {
        return false;
    }
    if one.grid.get() != other.grid.get() {
        return false;
    }
    one.band.is_same(other.band)
}
