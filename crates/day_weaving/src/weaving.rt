//! A recorded day woven into steps.
ghost use Rattle.std.specs.Prelude.{◌≡◌, None, IfOk, IfErr};
ghost use Rattle.day_weaving.specs.DayForm as form;
ghost use Rattle.day_weaving.specs.DayOrder as order;
ghost use Rattle.day_weaving.specs.Weaving as spec;
ghost use Rattle.day_weaving.specs.declared.weaving.WeaveFault.TheVariants.{Memory};
ghost use Rattle.step_replay.specs.AuditTrail as venue;
ghost use Rattle.step_replay.specs.FirmDays.{firm_days};
ghost use Rattle.step_replay.specs.StepFaults as replay;

use crate::day_form::well_formed_places;
use crate::sent_checks::sent_elsewise;
use crate::weave_order::{Found, order_of};
use crate::weave_plan::{Slot, firms_of};
use crate::woven_steps::steps_of;
use fix_fields::Memory;
use recorded_days::DayRecord;
use std::alloc::{AllocFailed, Global};
use step_replay::{Actor, ReplayFault, Step, World, run};
use thiserror::Error;
use venue_rows::VenueConfig;

/// Why a recorded day can't be woven into steps.
#[derive(Debug, Drop, Error)]
pub enum WeaveFault {
    /// The record is not that of a day of the venue: the orders of its desks and rooms do not name
    /// each of its actions exactly once and nothing else; or the inbox of a firm has not one message
    /// for each that came; or the clock has a message, a firm a sweep or a desk a sweep; or it has a
    /// firm or a room that the venue does not have, or lacks a firm of the venue. This is the fault
    /// exactly where that is so, memory aside.
    #[error("the record is not that of a day of the venue")]
    Malformed,
    /// No order keeps what came before what: of these actions each has one of them directly before
    /// it. An action goes by its actor, and its number among the actions of that actor, from 1.
    #[error("no order keeps what came before what")]
    Cycle(Vec<(Actor, u64)>),
    /// The firm with this number was sent other messages than the steps send it. Of several such
    /// firms it is the first.
    #[error("firm {0} was sent other messages than the steps send it")]
    Differs(u16),
    /// Memory was refused.
    #[error("out of memory")]
    Memory,
}

impl From<Memory> for WeaveFault {
    ghost from_gives = { λ _ fault. fault ≡ Memory };

    fn from(_error: Memory) -> WeaveFault {
        WeaveFault::Memory
    }
}

impl<T: Drop> From<AllocFailed<T>> for WeaveFault {
    ghost from_gives = { λ _ fault. fault ≡ Memory };

    fn from(_error: AllocFailed<T>) -> WeaveFault {
        WeaveFault::Memory
    }
}

/// The steps of a recorded day, in an order in which each action stands behind all that are
/// directly before it: the earlier ones of its actor, of its desk or its room, and, where a word
/// refused it, those that the word was granted. Of the actions of a firm that are messages the
/// first is the first message of its inbox, and so on. What each firm is sent in these steps is
/// what the record says. The time that this takes grows with the number of actions, and with how
/// many of them one word was granted.
pub fn weave(alloc: Global, config: &VenueConfig, day: &DayRecord) -> Result<Vec<Step>, WeaveFault>
    ensures woven { IfOk result (λ steps. spec.AreWoven config.now day.now steps.items) }
    ensures sent { IfOk result (λ steps. spec.SendAsRecorded config.now day.now steps.items) }
    ensures fault { IfErr result (spec.FaultIsTrue config.now day.now) }
{
    let Some(places) = well_formed_places(alloc, config, day)? else {
        return Err(WeaveFault::Malformed);
    };
    match order_of(alloc, config, day, &places)? {
        Found::Cycle(actions) => Err(WeaveFault::Cycle(actions)),
        Found::Order(slots) => {
            let steps = replayed_as_recorded(alloc, config, day, slots.as_slice())?;
            Ok(steps)
        }
    }
}

/// The steps of an order that is kept, where they send what the record says.
fn replayed_as_recorded(
    alloc: Global,
    config: &VenueConfig,
    day: &DayRecord,
    slots: &[Slot],
) -> Result<Vec<Step>, WeaveFault>
    requires well_formed { form.IsWellFormed config.now day.now }
    requires keeps { order.KeepsOrder day.now slots.now }
    ensures woven { IfOk result (λ steps. spec.AreWoven config.now day.now steps.items) }
    ensures sent { IfOk result (λ steps. spec.SendAsRecorded config.now day.now steps.items) }
    ensures fault { IfErr result (spec.FaultIsTrue config.now day.now) }
{
    let steps = steps_of(alloc, day, slots)?;
    let world = replayed(alloc, config, steps.as_slice())?;
    if let Some(firm) = sent_elsewise(firms_of(config), day, &world) {
        return Err(WeaveFault::Differs(firm));
    }
    Ok(steps)
}

/// A replay of steps that name no firm and no room but the venue's: memory alone can be refused.
fn replayed(alloc: Global, config: &VenueConfig, steps: &[Step]) -> Result<World, Memory>
    requires { replay.first_fault config.now steps.now ≡ None }
    ensures { IfOk result (λ world. world
        ≡ firm_days config.now (venue.audit_trail config.now steps.now).facts) }
{
    match run(alloc, config, steps) {
        Ok(world) => Ok(world),
        Err(fault) => {
            prove!(matches!(&fault, ReplayFault::Memory));
            Err(Memory)
        }
    }
}
