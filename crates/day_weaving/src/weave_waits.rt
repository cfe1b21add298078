//! What an action of a recorded day waits for, while an order is searched.
ghost use Rattle.std.specs.Prelude.{◌≡◌, ◌<◌, ◌≤◌, ℕ, ◌+◌, ◌-◌, List, IfSome, IfNone, true};
ghost use Rattle.day_weaving.specs.DayOrder as spec;
ghost use Rattle.day_weaving.specs.OrderCounts as kept;
ghost use Rattle.day_weaving.specs.OrderSearch as sought;
ghost use Rattle.recorded_days.specs.Records.{ActionRef};
ghost use Rattle.day_weaving.specs.declared.weave_plan.Slot.{Slot};

use crate::day_reading::{action_at, action_in, refused_word};
use crate::order_counts::{count_of, has_come};
use crate::weave_plan::Slot;
use crate::weave_table::Table;
use recorded_days::DayRecord;
use std::collections::HashMap;
use step_replay::Actor;

/// An action that has not come and is directly before this one; none where this one may come.
pub(crate) fn left_before(
    day: &DayRecord,
    table: &Table,
    done: &HashMap<u64, u64>,
    slot: &Slot,
) -> Option<(Actor, u64)>
    requires table { sought.IsTable day.now table.now }
    requires slot { sought.IsSlot day.now slot.now }
    ensures some { IfSome result (λ one.
        sought.IsLeftBefore day.now done.now one slot.now.action) }
    ensures none { IfNone result (sought.IsReady day.now done.now slot.now) }
{
    if let Some(one) = left_of_actor(done, slot.action) {
        return Some(one);
    }
    if let Some(one) = left_at_site(day, done, slot) {
        return Some(one);
    }
    left_of_word(day, table, done, slot.action)
}

/// The action before this one of its actor, where it has not come.
fn left_of_actor(done: &HashMap<u64, u64>, action: (Actor, u64)) -> Option<(Actor, u64)>
    ensures some { IfSome result (λ one. (one.0 ≡ action.0) × (one.1 + 1 ≡ action.1) × (0 < one.1)
        × sought.IsLeft done.now one) }
    ensures none { IfNone result (action.1 ≤ kept.count_in done.now (kept.key_of action.0) + 1) }
{
    if action.1 < 2 {
        return None;
    }
    let one = (action.0, action.1 - 1);
    if has_come(done, one) {
        return None;
    }
    Some(one)
}

/// The action before this one at its desk or in its room, where it has not come.
fn left_at_site(day: &DayRecord, done: &HashMap<u64, u64>, slot: &Slot) -> Option<(Actor, u64)>
    requires { spec.StandsAt day.now slot.now.site slot.now.spot slot.now.action }
    ensures some { IfSome result (λ one. spec.StandsAt day.now slot.now.site (slot.now.spot - 1) one
        × (0 < slot.now.spot) × sought.IsLeft done.now one) }
    ensures none { IfNone result ((before : List Slot) → kept.AreOfActors done.now before
        → spec.IsNextAtSite day.now before slot.now) }
{
    if slot.spot == 0 {
        return None;
    }
    let one = *action_at(day, slot.site, slot.spot - 1)?;
    if has_come(done, one) {
        return None;
    }
    Some(one)
}

/// Where a word refused this action, one that it was granted and that has not come.
fn left_of_word(
    day: &DayRecord,
    table: &Table,
    done: &HashMap<u64, u64>,
    action: (Actor, u64),
) -> Option<(Actor, u64)>
    requires { sought.IsTable day.now table.now }
    ensures some { IfSome result (λ one. spec.OfOneWord day.now one action
        × sought.IsAction day.now one × sought.IsLeft done.now one) }
    ensures none { IfNone result ((word : ℕ) → sought.refuses_to day.now word action ≡ true
        → (one : ActionRef) → sought.grants_to day.now word one ≡ true
        → sought.HasCome done.now one) }
{
    let word = refused_word(action_in(day, action)?)?;
    let mut bound = count_of(&table.last, word);
    for _ in 0..table.slots.len() {
        let place = bound.checked_sub(1)? as usize;
        let one = table.slots[place].action;
        if !has_come(done, one) {
            return Some(one);
        }
        bound = table.below[place];
    }
    None
}
