//! Whether a record is of a day of a venue.
ghost use Rattle.std.specs.Prelude.{◌≡◌, ◌<◌, ◌≤◌, ℕ, true, false, not, count_by, length, Some};
ghost use Rattle.std.specs.Prelude.{IfNone, IfOk, IfSome, slice_get};
ghost use Rattle.std.specs.List.{list_any};
ghost use Rattle.day_weaving.specs.DayForm as spec;
ghost use Rattle.day_weaving.specs.OrderPlaces as noted;
ghost use Rattle.recorded_days.specs.Records.{FirmLists, InvestorLists, firm_in};
ghost use Rattle.venue_steps.specs.declared.actors.Actor.{Actor};
ghost use Rattle.venue_rows.specs.Rows.{Configuration};

use crate::day_reading::action_in;
use crate::name_checks::{Places, places_of};
use crate::weave_plan::firms_of;
use fix_fields::Memory;
use recorded_days::{Action, DayRecord, Kind};
use std::alloc::Global;
use step_replay::Actor;
use venue_rows::VenueConfig;

/// Where each action of a record stands, where it is of a day of a venue; none where it is
/// malformed.
pub(crate) fn well_formed_places(
    alloc: Global,
    config: &VenueConfig,
    day: &DayRecord,
) -> Result<Option<Places>, Memory>
    ensures yes { IfOk result (λ found. IfSome found (λ places. spec.IsWellFormed config.now day.now
        × noted.AreTrue day.now places
        × ((by : Actor) → noted.AreNotedBy day.now places by))) }
    ensures no { IfOk result (λ found. IfNone found (spec.IsMalformed config.now day.now)) }
{
    if !has_firms_of(config, day) {
        return Ok(None);
    }
    if !are_firms_days(config, day) {
        return Ok(None);
    }
    if !has_no_message_of_clock(day) {
        return Ok(None);
    }
    let places = places_of(alloc, config, day)?;
    Ok(places)
}

/// Whether the record has the firms of a venue, as many dealers and as many investors, and of no
/// investor more rooms than it may make requests.
fn has_firms_of(config: &VenueConfig, day: &DayRecord) -> bool
    ensures yes { result ≡ true → spec.HasFirmsOf config.now day.now }
    ensures no { result ≡ false → spec.IsMalformed config.now day.now }
{
    if day.dealers().len() != config.dealers().len() {
        return false;
    }
    if day.investors().len() != config.investors().len() {
        return false;
    }
    for (at, row) in config.investors().iter().enumerate() {
        if has_more_rooms(day, at, row.requests) {
            return false;
        }
    }
    true
}

/// Whether the record has more rooms than so many of the investor at this place among the
/// investors.
fn has_more_rooms(day: &DayRecord, at: usize, requests: u32) -> bool
    ensures yes { result ≡ true → (investor : InvestorLists)
        × (slice_get day.now.investors at ≡ Some investor)
        × (requests < length investor.rooms) }
    ensures no { result ≡ false → (investor : InvestorLists)
        → slice_get day.now.investors at ≡ Some investor
        → length investor.rooms ≤ requests }
{
    let Some(investor) = day.investors().get(at) else {
        return false;
    };
    investor.rooms.len() > requests as usize
}

/// Whether of each firm the record is as it must be.
fn are_firms_days(config: &VenueConfig, day: &DayRecord) -> bool
    requires { spec.HasFirmsOf config.now day.now }
    ensures yes { result ≡ true → (firm : ℕ) (lists : FirmLists)
        → firm_in day.now firm ≡ Some lists → spec.IsFirmsDay day.now lists }
    ensures no { result ≡ false → spec.IsMalformed config.now day.now }
{
    for firm in 0..firms_of(config) {
        if !is_firms_day(day, firm) {
            return false;
        }
    }
    true
}

/// Whether the inbox of a firm has one message for each that came to its desk, it sweeps no room,
/// and its desk is not swept.
fn is_firms_day(day: &DayRecord, firm: u16) -> bool
    ensures yes { result ≡ true → (lists : FirmLists) → firm_in day.now firm ≡ Some lists
        → spec.IsFirmsDay day.now lists }
    ensures no { result ≡ false → (config : Configuration) → spec.IsMalformed config day.now }
{
    let Some(actions) = day.actions(Actor::Firm(firm)) else {
        return true;
    };
    let Some(inbox) = day.inbox(firm) else {
        return true;
    };
    let Some(order) = day.desk_order(firm) else {
        return true;
    };
    if messages_in(actions) != inbox.len() {
        return false;
    }
    if sweeps_any(actions) {
        return false;
    }
    !is_swept(day, order)
}

/// Whether no message comes from the clock.
fn has_no_message_of_clock(day: &DayRecord) -> bool
    ensures { result ≡ not (list_any spec.takes_message day.now.clock) }
{
    let Some(actions) = day.actions(Actor::Clock) else {
        return true;
    };
    let any = takes_any_message(actions);
    !any
}

/// Whether one of these actions is a message that came.
fn takes_any_message(actions: &[Action]) -> bool
    ensures { result ≡ list_any spec.takes_message actions.now }
{
    actions.iter().any(takes_message)
}

/// How many messages came, of these actions.
fn messages_in(actions: &[Action]) -> usize
    ensures { result ≡ count_by spec.takes_message actions.now }
{
    actions
        .iter()
        .filter(|action| takes_message(action))
        .count()
}

/// Whether a room was swept by one of these actions.
fn sweeps_any(actions: &[Action]) -> bool
    ensures { result ≡ list_any spec.sweeps actions.now }
{
    actions.iter().any(sweeps)
}

/// Whether a sweep stands in the order of a desk.
fn is_swept(day: &DayRecord, order: &[(Actor, u64)]) -> bool
    ensures { result ≡ list_any (spec.names_sweep day.now) order.now }
{
    order.iter().any(|action| names_sweep(day, *action))
}

/// Whether an order names a sweep.
fn names_sweep(day: &DayRecord, action: (Actor, u64)) -> bool
    ensures { result ≡ spec.names_sweep day.now action }
{
    let Some(action) = action_in(day, action) else {
        return false;
    };
    sweeps(action)
}

/// Whether an action is a message that came to a desk.
fn takes_message(action: &Action) -> bool
    ensures { result ≡ spec.takes_message action.now }
{
    matches!(action.kind, Kind::In)
}

/// Whether an action is a sweep of a room.
fn sweeps(action: &Action) -> bool
    ensures { result ≡ spec.sweeps action.now }
{
    matches!(action.kind, Kind::Expire)
}
