//! What is checked of the desks of a day once its threads have ended: that each firm's own messages
//! are its inbox, and that each dealer was told how its requests ended.
ghost use Rattle.std.specs.Prelude.{◌≡◌, ◌≤◌, ◌↔◌, count_by, length, IsTrue, IfOk};
ghost use Rattle.std.specs.BTreeMap.{get};
ghost use Rattle.std.specs.List.{list_all};
ghost use Rattle.day_checks.specs.DayChecks as spec;
ghost use Rattle.day_checks.specs.ToldRooms as kept;
ghost use Rattle.day_checks.specs.ToldRooms.{room_cmp};

use crate::day_rooms::DayRoom;
use crate::notices::{Notice, notices_told};
use crate::told_rooms::{Told, by_room, is_once};
use dealer_desk::DealerEvent;
use fix_fields::{Memory, Moment};
use investor_desk::InvestorEvent;
use market_terms::{Close, RoomRef};
use quote_messages::Message;
use recorded_days::{DealerDay, Inbound};
use std::alloc::Global;
use std::collections::BTreeMap;
use venue_rows::VenueConfig;
use venue_steps::close_for;

/// Whether the messages that came from a dealer, by the events at its desk, are this inbox: all of
/// it, in its order, and each message once. Moments and bytes are compared.
pub fn is_inbox_of_dealer(events: &[DealerEvent], inbox: &[Inbound]) -> bool
    ensures { IsTrue result ↔ (spec.came_from_dealer events.now ≡ inbox.now) }
{
    let mut events = events;
    let mut inbox = inbox;
    while let Some((event, later)) = events.split_first() {
        events = later;
        let DealerEvent::Received {
            moment,
            message,
            ..
        } = event
        else {
            continue;
        };
        let Some((first, rest)) = inbox.split_first() else {
            return false;
        };
        if !is_message(first, *moment, message) {
            return false;
        }
        inbox = rest;
    }
    inbox.is_empty()
}

/// Whether the messages that came from an investor, by the events at its desk, are this inbox: all
/// of it, in its order, and each message once. Moments and bytes are compared.
pub fn is_inbox_of_investor(events: &[InvestorEvent], inbox: &[Inbound]) -> bool
    ensures { IsTrue result ↔ (spec.came_from_investor events.now ≡ inbox.now) }
{
    let mut events = events;
    let mut inbox = inbox;
    while let Some((event, later)) = events.split_first() {
        events = later;
        let InvestorEvent::Received { moment, message } = event else {
            continue;
        };
        let Some((first, rest)) = inbox.split_first() else {
            return false;
        };
        if !is_message(first, *moment, message) {
            return false;
        }
        inbox = rest;
    }
    inbox.is_empty()
}

/// Whether a message is the one with these bytes at this moment.
fn is_message(inbound: &Inbound, moment: Moment, message: &Message) -> bool
    ensures { IsTrue result ↔ (inbound.now ≡ record { moment = moment; bytes = message.now }) }
{
    if inbound.moment != moment {
        return false;
    }
    inbound.bytes.as_bytes() == message.as_bytes()
}

/// The first dealer, in the order of their numbers, that was not told what it is to be told: of
/// each room that ended and names it once how it ended, and nothing else. The rooms are those of
/// the day, each once. It fails for memory alone.
pub(crate) fn told_fault(
    alloc: Global,
    dealers: &[DealerDay],
    rooms: &[DayRoom],
) -> Result<Option<u16>, Memory>
    requires { length dealers.now ≤ VenueConfig.MOST_DEALERS }
    ensures { IfOk result (λ fault. fault ≡ spec.first_untold rooms.now dealers.now) }
{
    let mut number = 0;
    let mut rest = dealers;
    while let Some((dealer, later)) = rest.split_first() {
        if !is_told(alloc, &dealer.events, number, rooms)? {
            return Ok(Some(number));
        }
        number += 1;
        rest = later;
    }
    Ok(None)
}

/// Whether a dealer was told what it is to be told, by the events at its desk.
fn is_told(
    alloc: Global,
    events: &[DealerEvent],
    dealer: u16,
    rooms: &[DayRoom],
) -> Result<bool, Memory>
    ensures { IfOk result (λ told. told ≡ spec.is_told rooms.now dealer events.now) }
{
    let notices = notices_told(alloc, events)?;
    let told = are_due(alloc, &notices, dealer, rooms)?;
    Ok(told)
}

/// Whether these closing notices are what a dealer is to be told. Each room looks for its own by
/// the room's name.
fn are_due(
    alloc: Global,
    notices: &[Notice],
    dealer: u16,
    rooms: &[DayRoom],
) -> Result<bool, Memory>
    ensures { IfOk result (λ due. due ≡ spec.are_due notices.now dealer rooms.now) }
{
    if notices.len() != count_due(dealer, rooms) {
        return Ok(false);
    }
    let by_room = by_room(alloc, notices)?;
    let settled = are_settled(&by_room, dealer, rooms);
    Ok(settled)
}

/// How many of these rooms a dealer is to be told the end of.
fn count_due(dealer: u16, rooms: &[DayRoom]) -> usize
    ensures { result ≡ count_by (spec.owes dealer) rooms.now }
{
    rooms
        .iter()
        .filter(|room| close_due(dealer, room).is_some())
        .count()
}

/// Whether the dealer was told once of each of these rooms whose end it is to be told.
fn are_settled(by_room: &BTreeMap<RoomRef, Told>, dealer: u16, rooms: &[DayRoom]) -> bool
    ensures { result ≡ list_all (λ room. kept.is_settled_by
        (get room_cmp by_room.now room.at) (spec.close_due dealer room)) rooms.now }
{
    rooms.iter().all(|room| is_settled(by_room, dealer, room))
}

/// Whether the dealer was told once how this room ended for it, where it is to be told.
fn is_settled(by_room: &BTreeMap<RoomRef, Told>, dealer: u16, room: &DayRoom) -> bool
    ensures { result ≡ kept.is_settled_by
        (get room_cmp by_room.now room.now.at) (spec.close_due dealer room.now) }
{
    is_told_of(by_room, room.at(), close_due(dealer, room))
}

/// Whether the dealer was told once that a room ended so for it, where it is to be told.
fn is_told_of(by_room: &BTreeMap<RoomRef, Told>, room: RoomRef, due: Option<Close>) -> bool
    ensures { result ≡ kept.is_settled_by (get room_cmp by_room.now room) due }
{
    let Some(close) = due else {
        return true;
    };
    is_once(by_room, room, close)
}

/// How a room ended for a dealer, where it ended and its request names the dealer.
fn close_due(dealer: u16, room: &DayRoom) -> Option<Close>
    ensures { result ≡ spec.close_due dealer room.now }
{
    if !room.named(dealer) {
        return None;
    }
    let end = room.end()?;
    Some(close_for(&end, dealer))
}
