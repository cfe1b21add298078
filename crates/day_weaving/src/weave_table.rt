//! The actions of a recorded day in one list, and which of them a word was granted.
ghost use Rattle.std.specs.Prelude.{◌≡◌, ◌≢◌, ◌<◌, ℕ, true, is_some, length, IfOk, OnOk};
ghost use Rattle.day_weaving.specs.DayForm as form;
ghost use Rattle.day_weaving.specs.DayOrder as spec;
ghost use Rattle.day_weaving.specs.OrderPlaces as noted;
ghost use Rattle.day_weaving.specs.OrderSearch as sought;
ghost use Rattle.venue_steps.specs.declared.actors.Actor.{Actor};

use crate::day_reading::{action_in, granted_word};
use crate::name_checks::{Places, place_of};
use crate::order_counts::{count_of, key_of, put_count};
use crate::weave_plan::{Slot, firms_of};
use fix_fields::Memory;
use recorded_days::{Action, DayRecord};
use std::alloc::Global;
use std::collections::HashMap;
use step_replay::Actor;
use venue_rows::VenueConfig;

/// The actions of a day, actor by actor.
#[derive(Drop)]
pub(crate) struct Table {
    /// Each action, with where it came to.
    pub(crate) slots: Vec<Slot>,
    /// Of each actor the place of its first action in that list.
    pub(crate) firsts: HashMap<u64, u64>,
    /// Of each action that was granted a word the place behind the last one before it that was
    /// granted the same word, or 0.
    pub(crate) below: Vec<u64>,
    /// Of each word the place behind the last action that was granted it, or 0.
    pub(crate) last: HashMap<u64, u64>,
}

/// The actions of a day whose orders name each of them at a place that is noted.
pub(crate) fn table_of(
    alloc: Global,
    config: &VenueConfig,
    day: &DayRecord,
    places: &Places,
) -> Result<Table, Memory>
    requires firms { form.HasFirmsOf config.now day.now }
    requires once { form.AreNamedOnce day.now }
    requires sound { noted.AreTrue day.now places.now }
    requires noted { (by : Actor) → noted.AreNotedBy day.now places.now by }
    ensures { IfOk result (λ table. sought.IsTable day.now table) }
{
    let mut table = Table {
        slots: Vec::new(alloc),
        firsts: HashMap::new(alloc),
        below: Vec::new(alloc),
        last: HashMap::new(alloc),
    };
    for firm in 0..firms_of(config) {
        put_actor(day, places, &mut table, Actor::Firm(firm))?;
    }
    put_actor(day, places, &mut table, Actor::Clock)?;
    Ok(table)
}

/// Puts the actions of an actor behind the others.
fn put_actor(
    day: &DayRecord,
    places: &Places,
    table: &mut Table,
    actor: Actor,
) -> Result<(), Memory>
    requires sound { noted.AreTrue day.now places.now }
    requires noted { noted.AreNotedBy day.now places.now actor }
    requires built { sought.IsBuilt day.now table.old }
    ensures built { OnOk result (sought.IsBuilt day.now table.new) }
    ensures has { OnOk result (sought.HasActor day.now table.new actor) }
    ensures others { OnOk result ((other : Actor) → other ≢ actor
        → sought.HasActor day.now table.old other → sought.HasActor day.now table.new other) }
{
    let Some(actions) = day.actions(actor) else {
        return Ok(());
    };
    put_count(&mut table.firsts, key_of(actor), table.slots.len() as u64)?;
    for index in 0..actions.len() {
        put_action(day, places, table, (actor, index as u64 + 1))?;
    }
    Ok(())
}

/// Puts an action behind the others.
fn put_action(
    day: &DayRecord,
    places: &Places,
    table: &mut Table,
    action: (Actor, u64),
) -> Result<(), Memory>
    requires sound { noted.AreTrue day.now places.now }
    requires is_action { sought.IsAction day.now action }
    requires noted { is_some (noted.place_in places.now action) ≡ true }
    requires built { sought.IsBuilt day.now table.old }
    ensures built { OnOk result (sought.IsBuilt day.now table.new) }
    ensures puts { OnOk result (sought.Puts table.old table.new action) }
{
    let Some((site, spot)) = place_of(places, action) else {
        return Ok(());
    };
    let Some(done) = action_in(day, action) else {
        return Ok(());
    };
    let below = put_grant(&mut table.last, done, table.slots.len() as u64 + 1)?;
    table.below.push(below)?;
    table.slots.push(Slot { action, site, spot })?;
    Ok(())
}

/// Notes an action as the last one that was granted its word, where it was granted one, with the
/// place behind it; and returns where the last one before it stands.
fn put_grant(last: &mut HashMap<u64, u64>, action: &Action, behind: u64) -> Result<u64, Memory>
    ensures { IfOk result (λ below. sought.Links last.old last.new action.now behind below) }
{
    let Some(word) = granted_word(action) else {
        return Ok(0);
    };
    let below = count_of(last, word);
    put_count(last, word, behind)?;
    Ok(below)
}

impl Table {
    /// Where an action stands in the list.
    pub(crate) fn index_of(&self, action: (Actor, u64)) -> usize
        requires { sought.index_in self.now.firsts action < length self.now.slots.items }
        ensures { result ≡ sought.index_in self.now.firsts action }
    {
        let first = count_of(&self.firsts, key_of(action.0));
        (first + action.1.saturating_sub(1)) as usize
    }
}
