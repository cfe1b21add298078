//! Whether each dealer was shown the requests that name it, and no others.
ghost use Rattle.std.specs.Prelude.{◌≡◌, ◌≤◌, count_by, length, IfOk};
ghost use Rattle.std.specs.BTreeMap.{get};
ghost use Rattle.std.specs.List.{list_all};
ghost use Rattle.day_checks.specs.ShownRequests as spec;
ghost use Rattle.day_checks.specs.ShownRooms as kept;
ghost use Rattle.day_checks.specs.ToldRooms.{room_cmp};

use crate::day_rooms::DayRoom;
use crate::shown_rooms::{Shown, is_shown_once, shown_by_room};
use dealer_desk::DealerEvent;
use fix_fields::Memory;
use market_terms::RoomRef;
use recorded_days::DealerDay;
use std::alloc::Global;
use std::collections::BTreeMap;
use venue_rows::VenueConfig;

/// The first dealer, in the order of their numbers, that was not shown what it is to be shown: once
/// the request of each room that names it, as it was asked, and nothing else. The rooms are those
/// of the day, each once. It fails for memory alone.
pub(crate) fn shown_fault(
    alloc: Global,
    dealers: &[DealerDay],
    rooms: &[DayRoom],
) -> Result<Option<u16>, Memory>
    requires { length dealers.now ≤ VenueConfig.MOST_DEALERS }
    ensures { IfOk result (λ fault. fault ≡ spec.first_unshown rooms.now dealers.now) }
{
    let mut number = 0;
    let mut rest = dealers;
    while let Some((dealer, later)) = rest.split_first() {
        if !is_shown(alloc, &dealer.events, number, rooms)? {
            return Ok(Some(number));
        }
        number += 1;
        rest = later;
    }
    Ok(None)
}

/// Whether a dealer was shown what it is to be shown, by the events at its desk. Each room looks
/// for its own request by the room's name.
fn is_shown(
    alloc: Global,
    events: &[DealerEvent],
    dealer: u16,
    rooms: &[DayRoom],
) -> Result<bool, Memory>
    ensures { IfOk result (λ shown. shown ≡ spec.is_shown rooms.now dealer events.now) }
{
    if count_shown(events) != count_asked(dealer, rooms) {
        return Ok(false);
    }
    let by_room = shown_by_room(alloc, events)?;
    let shown = are_shown(&by_room, dealer, rooms);
    Ok(shown)
}

/// How many requests a dealer was shown.
fn count_shown(events: &[DealerEvent]) -> usize
    ensures { result ≡ count_by spec.is_showing events.now }
{
    events.iter().filter(|event| is_showing(event)).count()
}

/// Whether an event shows a request.
fn is_showing(event: &DealerEvent) -> bool
    ensures { result ≡ spec.is_showing event.now }
{
    match event {
        DealerEvent::Shown { .. } => true,
        _ => false,
    }
}

/// How many of these rooms have a request that names a dealer.
fn count_asked(dealer: u16, rooms: &[DayRoom]) -> usize
    ensures { result ≡ count_by (spec.is_asked dealer) rooms.now }
{
    rooms.iter().filter(|room| room.named(dealer)).count()
}

/// Whether the dealer was shown once the request of each of these rooms that it is to be shown.
fn are_shown(by_room: &BTreeMap<RoomRef, Shown>, dealer: u16, rooms: &[DayRoom]) -> bool
    ensures { result ≡ list_all (λ room. kept.is_shown_by
        (get room_cmp by_room.now room.at) (spec.ask_due dealer room)) rooms.now }
{
    rooms.iter().all(|room| is_shown_of(by_room, dealer, room))
}

/// Whether the dealer was shown the request of this room once, where it is to be shown.
fn is_shown_of(by_room: &BTreeMap<RoomRef, Shown>, dealer: u16, room: &DayRoom) -> bool
    ensures { result ≡ kept.is_shown_by
        (get room_cmp by_room.now room.now.at) (spec.ask_due dealer room.now) }
{
    let Some(request) = room.request() else {
        return true;
    };
    if !request.names(dealer) {
        return true;
    }
    is_shown_once(by_room, room.at(), &request.ask)
}
