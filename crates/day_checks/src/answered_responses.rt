//! Whether the hits and passes of each room were answered as the room replied, and its investor was
//! told where it expired.
ghost use Rattle.std.specs.Prelude.{◌≡◌, ◌∷◌, [], length, IfOk, IfNone, IfSome};
ghost use Rattle.std.specs.List.{filter_map};
ghost use Rattle.day_checks.specs.AnsweredResponses as spec;
ghost use Rattle.day_checks.specs.SweptRooms.{list_of};

use crate::arrivals::{Arrival, arrivals_by_room, arrivals_of, firms_are_few};
use crate::day_rooms::DayRoom;
use crate::room_outputs::{RoomOutput, RoomReply, outputs_of};
use fix_fields::{Memory, Moment};
use market_terms::{HitRefusal, Reply, RoomRef};
use recorded_days::InvestorDay;
use std::alloc::Global;
use std::collections::BTreeMap;
use venue_rows::VenueConfig;

/// The first room whose hits and passes were not answered as the room replied, each in its order
/// and with that reply at its moment, and nothing else, or whose investor was not told once that it
/// expired, where a sweep ended it. The rooms are those of the day, each once, and the investors
/// those of the venue. It fails for memory alone.
pub(crate) fn answer_fault(
    alloc: Global,
    config: &VenueConfig,
    investors: &[InvestorDay],
    rooms: &[DayRoom],
) -> Result<Option<RoomRef>, Memory>
    requires { length investors.now ≡ length config.now.investors }
    ensures { IfOk result (λ fault. fault ≡ spec.first_unanswered
        (length config.now.dealers) investors.now rooms.now) }
{
    firms_are_few(config);
    let by_room = arrivals_by_room(alloc, config.dealer_count(), investors)?;
    let mut rest = rooms;
    while let Some((room, later)) = rest.split_first() {
        if !is_answered(alloc, &by_room, room)? {
            return Ok(Some(room.at()));
        }
        rest = later;
    }
    Ok(None)
}

/// Whether the hits and passes of a room were answered as the room replied, and its expiry told.
fn is_answered(
    alloc: Global,
    by_room: &BTreeMap<RoomRef, Vec<Arrival>>,
    room: &DayRoom,
) -> Result<bool, Memory>
    ensures { IfOk result (λ answered. answered
        ≡ spec.is_answered (list_of by_room.now room.now.at) room.now) }
{
    let Some(outputs) = outputs_of(alloc, room.events())? else {
        return Ok(false);
    };
    let answered = are_answered(&outputs, arrivals_of(by_room, room.at()));
    Ok(answered)
}

/// Whether the replies and the expiry that a room left are those that came.
fn are_answered(outputs: &[RoomOutput], arrivals: &[Arrival]) -> bool
    ensures { result ≡ spec.are_answered outputs.now arrivals.now }
{
    if !have_replies(outputs, arrivals) {
        return false;
    }
    have_expiries(outputs, arrivals)
}

/// Whether the replies that a room left are, one by one, those that came.
fn have_replies(outputs: &[RoomOutput], arrivals: &[Arrival]) -> bool
    ensures { result ≡ spec.have_replies outputs.now arrivals.now }
{
    let mut outputs = outputs;
    let mut arrivals = arrivals;
    while let Some((output, later)) = outputs.split_first() {
        outputs = later;
        let RoomOutput::Reply(reply) = output else {
            continue;
        };
        let Some((own, behind)) = next_reply(arrivals) else {
            return false;
        };
        if !is_same_reply(reply, &own) {
            return false;
        }
        arrivals = behind;
    }
    next_reply(arrivals).is_none()
}

/// The next reply that came, and what came behind it.
fn next_reply<'a>(arrivals: &'a [Arrival]) -> Option<(RoomReply, &'a [Arrival])>
    ensures none { IfNone result (filter_map spec.reply_arrived arrivals.entry.now ≡ []) }
    ensures next { IfSome result (λ next. filter_map spec.reply_arrived arrivals.entry.now
        ≡ next.0 ∷ filter_map spec.reply_arrived next.1.now) }
{
    let mut rest = arrivals;
    while let Some((arrival, later)) = rest.split_first() {
        rest = later;
        let Arrival::Reply(reply) = arrival else {
            continue;
        };
        return Some((*reply, later));
    }
    None
}

/// Whether the expiries that a room left are, one by one, those that came.
fn have_expiries(outputs: &[RoomOutput], arrivals: &[Arrival]) -> bool
    ensures { result ≡ spec.have_expiries outputs.now arrivals.now }
{
    let mut outputs = outputs;
    let mut arrivals = arrivals;
    while let Some((output, later)) = outputs.split_first() {
        outputs = later;
        let RoomOutput::Expired(moment) = output else {
            continue;
        };
        let Some((own, behind)) = next_expiry(arrivals) else {
            return false;
        };
        if *moment != own {
            return false;
        }
        arrivals = behind;
    }
    next_expiry(arrivals).is_none()
}

/// The moment of the next expiry that came, and what came behind it.
fn next_expiry<'a>(arrivals: &'a [Arrival]) -> Option<(Moment, &'a [Arrival])>
    ensures none { IfNone result (filter_map spec.expiry_arrived arrivals.entry.now ≡ []) }
    ensures next { IfSome result (λ next. filter_map spec.expiry_arrived arrivals.entry.now
        ≡ next.0 ∷ filter_map spec.expiry_arrived next.1.now) }
{
    let mut rest = arrivals;
    while let Some((arrival, later)) = rest.split_first() {
        rest = later;
        let Arrival::Expired(moment) = arrival else {
            continue;
        };
        return Some((*moment, later));
    }
    None
}

/// Whether two replies are the same, and to responses of one kind and moment.
fn is_same_reply(one: &RoomReply, other: &RoomReply) -> bool
    ensures { result ≡ spec.same_reply one.now other.now }
{
    if one.to_hit != other.to_hit {
        return false;
    }
    if one.moment != other.moment {
        return false;
    }
    reply_code(one.reply) == reply_code(other.reply)
}

/// A number for each reply.
fn reply_code(reply: Reply) -> u8
    ensures { result ≡ spec.reply_code reply }
{
    match reply {
        Reply::Awarded => 0,
        Reply::Passed => 1,
        Reply::Refused(refusal) => refusal_code(refusal),
    }
}

/// A number for each refusal.
fn refusal_code(refusal: HitRefusal) -> u8
    ensures { result ≡ spec.refusal_code refusal }
{
    match refusal {
        HitRefusal::NotOpen => 2,
        HitRefusal::Deadline => 3,
        HitRefusal::Gone => 4,
        HitRefusal::Expired => 5,
        HitRefusal::Withdrawn => 6,
    }
}
