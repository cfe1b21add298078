//! The steps of an order of a recorded day.
ghost use Rattle.std.specs.Prelude.{◌≡◌, ℕ, List, ◌∷◌, [], ◌++◌, Some, IfOk, OnOk};
ghost use Rattle.std.specs.List.{AllZip};
ghost use Rattle.day_weaving.specs.DayForm as form;
ghost use Rattle.day_weaving.specs.DayOrder as order;
ghost use Rattle.day_weaving.specs.OrderCounts as kept;
ghost use Rattle.day_weaving.specs.OrderSearch as sought;
ghost use Rattle.day_weaving.specs.Weaving as spec;
ghost use Rattle.recorded_days.specs.declared.actions.Inbound.{Inbound};
ghost use Rattle.day_weaving.specs.declared.sites.Site.TheVariants as site;
ghost use Rattle.day_weaving.specs.declared.weave_plan.Slot.{Slot};
ghost use Rattle.market_terms.specs.declared.rooms.RoomRef.{RoomRef};
ghost use Rattle.venue_steps.specs.declared.actors.Actor.TheVariants as actor;
ghost use Rattle.step_replay.specs.declared.steps.Step.{Step};
ghost use Rattle.venue_rows.specs.Rows.{Configuration};

use crate::day_reading::action_in;
use crate::order_counts::{count_of, put_count};
use crate::sites::Site;
use crate::weave_plan::Slot;
use fix_fields::{Memory, Moment};
use quote_messages::Message;
use recorded_days::{DayRecord, Kind};
use std::alloc::Global;
use std::collections::HashMap;
use step_replay::{Actor, Step};

/// The steps of an order.
pub(crate) fn steps_of(alloc: Global, day: &DayRecord, slots: &[Slot]) -> Result<Vec<Step>, Memory>
    requires well_formed { (config : Configuration) × form.IsWellFormed config day.now }
    requires keeps { order.KeepsOrder day.now slots.now }
    ensures { IfOk result (λ steps. AllZip (spec.IsStepOf day.now) slots.now steps.items) }
{
    let mut steps = Vec::with_capacity(alloc, slots.len())?;
    let mut came = HashMap::new(alloc);
    for index in 0..slots.len() {
        put_step(alloc, day, &mut came, &mut steps, &slots[index])?;
    }
    Ok(steps)
}

/// Puts the step of an action behind others.
fn put_step(
    alloc: Global,
    day: &DayRecord,
    came: &mut HashMap<u64, u64>,
    steps: &mut Vec<Step>,
    slot: &Slot,
) -> Result<(), Memory>
    requires well_formed { (config : Configuration) × form.IsWellFormed config day.now }
    requires slot { sought.IsSlot day.now slot.now }
    ensures step { OnOk result ((before : List Slot)
        → kept.AreOfInboxes day.now came.old before → kept.IsNext before slot.now
        → (now : Step) × (steps.new.items ≡ steps.old.items ++ now ∷ [])
        × spec.IsStepOf day.now slot.now now) }
    ensures came { OnOk result ((before : List Slot)
        → kept.AreOfInboxes day.now came.old before → kept.IsNext before slot.now
        → kept.AreOfInboxes day.now came.new (before ++ slot.now ∷ [])) }
{
    let Some(action) = action_in(day, slot.action) else {
        return Ok(());
    };
    match action.kind {
        Kind::In => {
            put_message(alloc, day, came, steps, slot)?;
            Ok(())
        }
        Kind::Expire => {
            put_sweep(steps, slot, action.moment)?;
            Ok(())
        }
        _ => {
            steps.push(Step::Turn(slot.action.0))?;
            Ok(())
        }
    }
}

/// Puts the sweep of a room.
fn put_sweep(steps: &mut Vec<Step>, slot: &Slot, moment: Moment) -> Result<(), Memory>
    requires { (room : RoomRef) × (slot.now.site ≡ site.Room room) }
    ensures { OnOk result ((now : Step) × (steps.new.items ≡ steps.old.items ++ now ∷ [])
        × spec.IsSweep slot.now moment now) }
{
    let Site::Room(room) = slot.site else {
        return Ok(());
    };
    steps.push(Step::Expire(room, moment))?;
    Ok(())
}

/// Puts the next message of the inbox of a firm, behind as many as came from it.
fn put_message(
    alloc: Global,
    day: &DayRecord,
    came: &mut HashMap<u64, u64>,
    steps: &mut Vec<Step>,
    slot: &Slot,
) -> Result<(), Memory>
    ensures { OnOk result ((firm : ℕ) (inbound : Inbound) → slot.now.action.0 ≡ actor.Firm firm
        → kept.inbound_at day.now firm (kept.count_in came.old firm) ≡ Some inbound
        → kept.TakesNext day.now slot.now came.old came.new steps.old.items steps.new.items) }
{
    let Actor::Firm(firm) = slot.action.0 else {
        return Ok(());
    };
    let Some(inbox) = day.inbox(firm) else {
        return Ok(());
    };
    let count = count_of(came, u64::from(firm));
    let Some(inbound) = inbox.get(count as usize) else {
        return Ok(());
    };
    let message = Message::copy_of(alloc, inbound.bytes.as_bytes())?;
    put_count(came, u64::from(firm), count + 1)?;
    steps.push(Step::In(firm, inbound.moment, message))?;
    Ok(())
}
