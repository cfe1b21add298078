//! Whether the orders of the desks and rooms of a recorded day name each action exactly once, and
//! nothing else.
ghost use Rattle.std.specs.Prelude.{◌≡◌, ◌<◌, ℕ, ◌+◌, true, false, IfOk, OnOk, IfSome, IfNone};
ghost use Rattle.day_weaving.specs.DayForm as form;
ghost use Rattle.day_weaving.specs.DayOrder as spec;
ghost use Rattle.day_weaving.specs.OrderPlaces as noted;
ghost use Rattle.day_weaving.specs.declared.sites.Site.{Site};
ghost use Rattle.day_weaving.specs.declared.sites.Site.TheVariants as site;
ghost use Rattle.venue_steps.specs.declared.actors.Actor.{Actor};

use crate::day_reading::{action_at, action_in, is_same_site, order_at};
use crate::order_counts::key_of;
use crate::sites::Site;
use crate::weave_plan::firms_of;
use fix_fields::Memory;
use market_terms::RoomRef;
use recorded_days::DayRecord;
use std::alloc::Global;
use std::collections::HashMap;
use step_replay::Actor;
use venue_rows::VenueConfig;

/// Where actions stand, by the numbers of their actors and their own.
pub(crate) type Places = HashMap<(u64, u64), (Site, usize)>;

/// Where each action stands, where the orders of a day name each action exactly once and nothing
/// else; none where they do not. An action is noted with the place where it stands, so that a second
/// place is seen.
pub(crate) fn places_of(
    alloc: Global,
    config: &VenueConfig,
    day: &DayRecord,
) -> Result<Option<Places>, Memory>
    requires { form.HasFirmsOf config.now day.now }
    ensures yes { IfOk result (λ found. IfSome found (λ places. form.AreNamedOnce day.now
        × noted.AreTrue day.now places
        × ((by : Actor) → noted.AreNotedBy day.now places by))) }
    ensures no { IfOk result (λ found. IfNone found (form.AreMisnamed day.now)) }
{
    let mut places = HashMap::new(alloc);
    for firm in 0..firms_of(config) {
        let once = note_firm(config, day, &mut places, firm)?;
        if !once {
            return Ok(None);
        }
    }
    if !are_all_noted(config, day, &places) {
        return Ok(None);
    }
    Ok(Some(places))
}

/// Notes what stands in the orders of the desk and the rooms of a firm; false where something there
/// is no action of the day, or stands elsewhere too.
fn note_firm(
    config: &VenueConfig,
    day: &DayRecord,
    places: &mut Places,
    firm: u16,
) -> Result<bool, Memory>
    requires { noted.AreTrue day.now places.old }
    ensures all { IfOk result (λ once. once ≡ true
        → noted.AreNotedOf config.now day.now places.new firm) }
    ensures sound { IfOk result (λ once. once ≡ true → noted.AreTrue day.now places.new) }
    ensures grow { IfOk result (λ once. once ≡ true → noted.Grow places.old places.new) }
    ensures no { IfOk result (λ once. once ≡ false → form.AreMisnamed day.now) }
{
    let at_desk = note_site(day, places, Site::Desk(firm))?;
    if !at_desk {
        return Ok(false);
    }
    let Some(row) = config.investor(firm) else {
        return Ok(true);
    };
    let in_rooms = note_rooms(day, places, firm, row.requests)?;
    Ok(in_rooms)
}

/// The same of so many rooms of an investor.
fn note_rooms(
    day: &DayRecord,
    places: &mut Places,
    investor: u16,
    requests: u32,
) -> Result<bool, Memory>
    requires { noted.AreTrue day.now places.old }
    ensures all { IfOk result (λ once. once ≡ true → (n : ℕ) → n < requests
        → noted.AreNoted day.now places.new
        (site.Room (record { investor = investor; n = n + 1 }))) }
    ensures sound { IfOk result (λ once. once ≡ true → noted.AreTrue day.now places.new) }
    ensures grow { IfOk result (λ once. once ≡ true → noted.Grow places.old places.new) }
    ensures no { IfOk result (λ once. once ≡ false → form.AreMisnamed day.now) }
{
    for index in 0..requests {
        let room = RoomRef {
            investor,
            n: index + 1,
        };
        let once = note_site(day, places, Site::Room(room))?;
        if !once {
            return Ok(false);
        }
    }
    Ok(true)
}

/// The same of one desk or room.
fn note_site(day: &DayRecord, places: &mut Places, site: Site) -> Result<bool, Memory>
    requires { noted.AreTrue day.now places.old }
    ensures all { IfOk result (λ once. once ≡ true → noted.AreNoted day.now places.new site) }
    ensures sound { IfOk result (λ once. once ≡ true → noted.AreTrue day.now places.new) }
    ensures grow { IfOk result (λ once. once ≡ true → noted.Grow places.old places.new) }
    ensures no { IfOk result (λ once. once ≡ false → form.AreMisnamed day.now) }
{
    let Some(order) = order_at(day, site) else {
        return Ok(true);
    };
    for spot in 0..order.len() {
        let once = note_spot(day, places, site, spot)?;
        if !once {
            return Ok(false);
        }
    }
    Ok(true)
}

/// The same of one place in the order there.
fn note_spot(day: &DayRecord, places: &mut Places, site: Site, spot: usize) -> Result<bool, Memory>
    requires { noted.AreTrue day.now places.old }
    ensures all { IfOk result (λ once. once ≡ true
        → noted.IsNotedAt day.now places.new site spot) }
    ensures sound { IfOk result (λ once. once ≡ true → noted.AreTrue day.now places.new) }
    ensures grow { IfOk result (λ once. once ≡ true → noted.Grow places.old places.new) }
    ensures no { IfOk result (λ once. once ≡ false → form.AreMisnamed day.now) }
{
    let Some(action) = action_at(day, site, spot) else {
        return Ok(true);
    };
    let once = note(day, places, *action, (site, spot))?;
    Ok(once)
}

/// Notes an action that stands here; false where the day does not have it, or it stands elsewhere
/// too.
fn note(
    day: &DayRecord,
    places: &mut Places,
    action: (Actor, u64),
    place: (Site, usize),
) -> Result<bool, Memory>
    requires sound { noted.AreTrue day.now places.old }
    requires stands { spec.StandsAt day.now place.0 place.1 action }
    ensures all { IfOk result (λ once. once ≡ true
        → noted.IsNoted day.now places.new action place) }
    ensures sound { IfOk result (λ once. once ≡ true → noted.AreTrue day.now places.new) }
    ensures grow { IfOk result (λ once. once ≡ true → noted.Grow places.old places.new) }
    ensures no { IfOk result (λ once. once ≡ false → form.AreMisnamed day.now) }
{
    let Some(_action) = action_in(day, action) else {
        return Ok(false);
    };
    let Some(standing) = place_of(places, action) else {
        put_place(places, action, place)?;
        return Ok(true);
    };
    let same = is_same_place(standing, place);
    Ok(same)
}

/// Whether two places are one.
fn is_same_place(one: (Site, usize), other: (Site, usize)) -> bool
    ensures yes { result ≡ true → one ≡ other }
    ensures no { result ≡ false → (one.0 ≡ other.0) × (one.1 ≡ other.1) → ⊥ }
{
    if one.1 != other.1 {
        return false;
    }
    is_same_site(one.0, other.0)
}

/// Whether each action of each actor is noted.
fn are_all_noted(config: &VenueConfig, day: &DayRecord, places: &Places) -> bool
    requires firms { form.HasFirmsOf config.now day.now }
    requires all { (at : Site) → noted.AreNoted day.now places.now at }
    ensures yes { result ≡ true → (actor : Actor) → noted.AreNotedBy day.now places.now actor }
    ensures no { result ≡ false → form.AreMisnamed day.now }
{
    for firm in 0..firms_of(config) {
        if !are_noted(day, places, Actor::Firm(firm)) {
            return false;
        }
    }
    are_noted(day, places, Actor::Clock)
}

/// Whether each action of an actor is noted.
fn are_noted(day: &DayRecord, places: &Places, actor: Actor) -> bool
    requires { (at : Site) → noted.AreNoted day.now places.now at }
    ensures yes { result ≡ true → noted.AreNotedBy day.now places.now actor }
    ensures no { result ≡ false → form.AreMisnamed day.now }
{
    let Some(actions) = day.actions(actor) else {
        return true;
    };
    for index in 0..actions.len() {
        let Some(_place) = place_of(places, (actor, index as u64 + 1)) else {
            return false;
        };
    }
    true
}

/// Where an action stands, as far as it is noted.
pub(crate) fn place_of(places: &Places, action: (Actor, u64)) -> Option<(Site, usize)>
    ensures { result ≡ noted.place_in places.now action }
{
    places.get(&(key_of(action.0), action.1)).copied()
}

/// Notes where an action stands.
fn put_place(places: &mut Places, action: (Actor, u64), place: (Site, usize)) -> Result<(), Memory>
    ensures { OnOk result (noted.SetsPlace places.old places.new action place) }
{
    places.insert((key_of(action.0), action.1), place)?;
    Ok(())
}
