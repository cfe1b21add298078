//! The closing notices that a dealer was told.
ghost use Rattle.std.specs.Prelude.{◌≡◌, IfOk};
ghost use Rattle.std.specs.List.{filter_map};
ghost use Rattle.day_checks.specs.DayChecks as spec;

use dealer_desk::DealerEvent;
use fix_fields::Memory;
use market_terms::{Close, RoomRef};
use std::alloc::Global;

/// A closing notice (QuoteResponse 35=AJ) that a dealer was told.
#[derive(Clone, Copy)]
pub(crate) struct Notice {
    /// The room of the request, unless the dealer was never shown that request.
    pub(crate) room: Option<RoomRef>,
    /// How it ended for the dealer.
    pub(crate) close: Close,
}

/// The closing notices among the events at a dealer's desk, in their order.
pub(crate) fn notices_told(alloc: Global, events: &[DealerEvent]) -> Result<Vec<Notice>, Memory>
    ensures { IfOk result (λ notices. notices.items ≡ spec.notices_told events.now) }
{
    let rooms = rooms_shown(alloc, events)?;
    let notices = notices_of(alloc, &rooms, events)?;
    Ok(notices)
}

/// The same of a dealer that was shown the requests of these rooms.
fn notices_of(
    alloc: Global,
    rooms: &[RoomRef],
    events: &[DealerEvent],
) -> Result<Vec<Notice>, Memory>
    ensures { IfOk result (λ notices.
        notices.items ≡ filter_map (spec.notice_in rooms.now) events.now) }
{
    events
        .iter()
        .filter_map(|event| notice_in(rooms, event))
        .collect(alloc)
}

/// The rooms of the requests that a dealer was shown, in their order.
fn rooms_shown(alloc: Global, events: &[DealerEvent]) -> Result<Vec<RoomRef>, Memory>
    ensures { IfOk result (λ rooms. rooms.items ≡ spec.rooms_shown events.now) }
{
    events
        .iter()
        .filter_map(|event| room_shown(event))
        .collect(alloc)
}

/// The room of a request that the dealer is shown by an event.
fn room_shown(event: &DealerEvent) -> Option<RoomRef>
    ensures { result ≡ spec.room_shown event.now }
{
    match event {
        DealerEvent::Shown { room, .. } => Some(*room),
        _ => None,
    }
}

/// The closing notice that an event is.
fn notice_in(rooms: &[RoomRef], event: &DealerEvent) -> Option<Notice>
    ensures { result ≡ spec.notice_in rooms.now event.now }
{
    match event {
        DealerEvent::Told { request, close, .. } => Some(Notice {
            room: room_of_request(rooms, *request),
            close: *close,
        }),
        _ => None,
    }
}

/// The room of the request with this number, from 1.
fn room_of_request(rooms: &[RoomRef], request: u64) -> Option<RoomRef>
    ensures { result ≡ spec.room_of_request rooms.now request }
{
    let place = request.checked_sub(1)?;
    rooms.get(place as usize).copied()
}
