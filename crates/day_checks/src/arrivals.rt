//! What came to the desks of investors from the rooms of their requests, put under the rooms.
ghost use Rattle.std.specs.Prelude.{◌≡◌, ◌+◌, ◌<◌, ◌^◌, ◌++◌, length, IfOk, OnOk};
ghost use Rattle.day_checks.specs.Arrivals as spec;
ghost use Rattle.day_checks.specs.NextItems.{with_next};
ghost use Rattle.day_checks.specs.SweptRooms.{list_of};

use crate::room_outputs::RoomReply;
use fix_fields::{Memory, Moment};
use investor_desk::InvestorEvent;
use market_terms::{Offer, RoomRef};
use recorded_days::InvestorDay;
use std::alloc::Global;
use std::collections::BTreeMap;
use venue_rows::VenueConfig;

/// What came to the desk of an investor from the room of its request.
#[derive(Drop)]
pub(crate) enum Arrival {
    /// A quote.
    Quote(Offer),
    /// The reply to a hit or a pass.
    Reply(RoomReply),
    /// That the request expired, by a sweep at this moment.
    Expired(Moment),
}

/// A law: the firms of a venue are few enough for their numbers. It does nothing.
pub(crate) fn firms_are_few(config: &VenueConfig)
    ensures { length config.now.dealers + length config.now.investors < 2 ^ 16 }
{
    config.investors();
}

/// What came from each room to these investors, who are numbered onward from this number.
pub(crate) fn arrivals_by_room(
    alloc: Global,
    first: u16,
    investors: &[InvestorDay],
) -> Result<BTreeMap<RoomRef, Vec<Arrival>>, Memory>
    requires { first + length investors.now < 2 ^ 16 }
    ensures { IfOk result (λ by_room. (room : RoomRef)
        → list_of by_room room ≡ spec.arrivals_from room first investors.now) }
{
    let mut by_room = BTreeMap::new(alloc);
    let mut firm = first;
    let mut rest = investors;
    while let Some((investor, later)) = rest.split_first() {
        put_events(alloc, &mut by_room, firm, &investor.events)?;
        firm += 1;
        rest = later;
    }
    Ok(by_room)
}

/// Puts what came by these events at the desk of the investor with this number under the rooms,
/// behind the rest.
fn put_events(
    alloc: Global,
    by_room: &mut BTreeMap<RoomRef, Vec<Arrival>>,
    firm: u16,
    events: &[InvestorEvent],
) -> Result<(), Memory>
    ensures { OnOk result ((room : RoomRef) → list_of by_room.new room
        ≡ list_of by_room.old room ++ spec.arrivals_at room firm events.now) }
{
    let mut rest = events;
    while let Some((event, later)) = rest.split_first() {
        put_event(alloc, by_room, firm, event)?;
        rest = later;
    }
    Ok(())
}

/// The same of one event.
fn put_event(
    alloc: Global,
    by_room: &mut BTreeMap<RoomRef, Vec<Arrival>>,
    firm: u16,
    event: &InvestorEvent,
) -> Result<(), Memory>
    ensures { OnOk result ((room : RoomRef) → list_of by_room.new room
        ≡ with_next (list_of by_room.old room) (spec.arrival_from room firm event.now)) }
{
    match event {
        InvestorEvent::QuoteCame { request, offer, .. } => {
            let what = Arrival::Quote(copy_of(offer));
            put(alloc, by_room, room_named(firm, *request), what)
        }
        InvestorEvent::Answered {
            request,
            response,
            reply,
            moment,
        } => {
            let what = Arrival::Reply(RoomReply {
                to_hit: response.response().k.is_some(),
                moment: *moment,
                reply: *reply,
            });
            put(alloc, by_room, room_named(firm, *request), what)
        }
        InvestorEvent::Closed { request, moment } => {
            let what = Arrival::Expired(*moment);
            put(alloc, by_room, room_named(firm, *request), what)
        }
        _ => Ok(()),
    }
}

/// The room of a request of the investor with this number.
fn room_named(investor: u16, request: u32) -> RoomRef
    ensures { result ≡ spec.room_named investor request }
{
    RoomRef {
        investor,
        n: request,
    }
}

/// What came from a room, put under it.
pub(crate) fn arrivals_of(by_room: &BTreeMap<RoomRef, Vec<Arrival>>, room: RoomRef) -> &[Arrival]
    ensures { result.now ≡ list_of by_room.now room }
{
    let Some(arrivals) = by_room.get(&room) else {
        return &[];
    };
    arrivals.as_slice()
}

/// The same quote once more.
fn copy_of(offer: &Offer) -> Offer
    ensures { result ≡ offer.now }
{
    Offer {
        dealer: offer.dealer.copy(),
        word: offer.word,
        price: offer.price,
        valid_until: offer.valid_until,
    }
}

/// Puts what came from a room under it, behind the rest.
fn put(
    alloc: Global,
    by_room: &mut BTreeMap<RoomRef, Vec<Arrival>>,
    from: RoomRef,
    what: Arrival,
) -> Result<(), Memory>
    ensures { OnOk result ((room : RoomRef) → list_of by_room.new room
        ≡ with_next (list_of by_room.old room) (spec.where_same room from what)) }
{
    let list = by_room.entry(from)?.or_insert(Vec::new(alloc));
    list.push(what)?;
    Ok(())
}
