//! The search for an order of a recorded day.
//!
//! To bring an action into the order, the search goes back from it to one that it waits for (one
//! that is directly before it and has not come), from there to one that this waits for, and so on,
//! up to one that waits for nothing: this is placed, and the search goes on from the one that it
//! came from. Where the way back meets itself, it is a cycle from there on.
ghost use Rattle.std.specs.Prelude.{◌≡◌, ◌<◌, ◌≤◌, ℕ, ◌+◌, length, drop, slice_get, None, Some};
ghost use Rattle.std.specs.Prelude.{option_and_then, IfOk, OnOk, IfSome, IfNone};
ghost use Rattle.day_weaving.specs.DayOrder as spec;
ghost use Rattle.day_weaving.specs.OrderSearch as sought;
ghost use Rattle.recorded_days.specs.Records.{RecordedDay};
ghost use Rattle.day_weaving.specs.declared.weave_plan.Slot.{Slot};

use crate::order_counts::{has_come, key_of, put_count};
use crate::weave_plan::Slot;
use crate::weave_table::Table;
use crate::weave_waits::left_before;
use fix_fields::Memory;
use recorded_days::DayRecord;
use std::alloc::Global;
use std::collections::HashMap;
use step_replay::Actor;

/// How far an action is.
#[derive(Clone, Copy)]
pub(crate) enum Mark {
    /// The search has not come to it.
    New,
    /// It stands on the way, at this place.
    OnWay(usize),
    /// It stands in the order.
    Placed,
}

/// A search for an order.
#[derive(Drop)]
pub(crate) struct Search {
    /// How many actions of each actor stand in the order.
    pub(crate) done: HashMap<u64, u64>,
    /// The order so far.
    pub(crate) order: Vec<Slot>,
    /// How far each action of the table is.
    pub(crate) marks: Vec<Mark>,
    /// Actions that are left, each directly before the one in front of it.
    pub(crate) way: Vec<(Actor, u64)>,
}

impl Search {
    /// A search that has come to no action.
    pub(crate) fn new(alloc: Global, table: &Table) -> Result<Self, Memory>
        ensures { IfOk result (λ made. (day : RecordedDay)
            → sought.Stands day table.now made) }
    {
        let marks = vec![in alloc; Mark::New; table.slots.len()]?;
        Ok(Search {
            done: HashMap::new(alloc),
            order: Vec::with_capacity(alloc, table.slots.len())?,
            marks,
            way: Vec::new(alloc),
        })
    }

    /// Brings the action at a place of the table into the order, behind all that it waits for; or
    /// returns actions of which each has one of them directly before it. A step is done for each
    /// action that comes onto the way, and one for each that is placed.
    pub(crate) fn bring(
        &mut self,
        alloc: Global,
        day: &DayRecord,
        table: &Table,
        index: usize,
    ) -> Result<Option<Vec<(Actor, u64)>>, Memory>
        requires table { sought.IsTable day.now table.now }
        requires stands { sought.Stands day.now table.now self.old }
        requires within { index < length table.now.slots.items }
        ensures stands { IfOk result (λ cycle. sought.Stands day.now table.now self.new) }
        ensures cycle { IfOk result (λ cycle. IfSome cycle (λ list.
            spec.IsCycle day.now list.items)) }
        ensures come { IfOk result (λ cycle. IfNone cycle ((slot : Slot)
            → slice_get table.now.slots.items index ≡ Some slot
            → sought.HasCome self.new.done slot.action)) }
        ensures grows { IfOk result (λ cycle. sought.Grows self.old.done self.new.done) }
    {
        let action = table.slots[index].action;
        for _ in 0..2 * table.slots.len() {
            if has_come(&self.done, action) {
                return Ok(None);
            }
            let cycle = self.step(alloc, day, table, action)?;
            if cycle.is_some() {
                return Ok(cycle);
            }
        }
        Ok(None)
    }

    /// One step towards an action that is left.
    fn step(
        &mut self,
        alloc: Global,
        day: &DayRecord,
        table: &Table,
        action: (Actor, u64),
    ) -> Result<Option<Vec<(Actor, u64)>>, Memory>
        requires table { sought.IsTable day.now table.now }
        requires stands { sought.Stands day.now table.now self.old }
        requires is_action { sought.IsAction day.now action }
        requires left { sought.IsLeft self.old.done action }
        ensures stands { IfOk result (λ cycle. sought.Stands day.now table.now self.new) }
        ensures cycle { IfOk result (λ cycle. IfSome cycle (λ list.
            spec.IsCycle day.now list.items)) }
        ensures less { IfOk result (λ cycle. IfNone cycle
            (sought.steps_left self.new + 1 ≡ sought.steps_left self.old)) }
        ensures grows { IfOk result (λ cycle. sought.Grows self.old.done self.new.done) }
    {
        let Some(top) = self.way.last().copied() else {
            self.push(table, action)?;
            return Ok(None);
        };
        let slot = table.slots[table.index_of(top)];
        let Some(earlier) = left_before(day, table, &self.done, &slot) else {
            self.place(table, slot)?;
            return Ok(None);
        };
        if let Some(start) = self.place_of(table, earlier) {
            let cycle = self.way_from(alloc, start)?;
            return Ok(Some(cycle));
        }
        self.push(table, earlier)?;
        Ok(None)
    }

    /// Where an action stands on the way, if it does.
    fn place_of(&self, table: &Table, action: (Actor, u64)) -> Option<usize>
        requires within { sought.index_in table.now.firsts action < length table.now.slots.items }
        requires long { length self.now.marks.items ≡ length table.now.slots.items }
        ensures { result
            ≡ option_and_then sought.place_on (sought.mark_of table.now self.now.marks.items action) }
    {
        match &self.marks[table.index_of(action)] {
            Mark::OnWay(at) => Some(*at),
            _ => None,
        }
    }

    /// The way from a place on.
    fn way_from(&self, alloc: Global, start: usize) -> Result<Vec<(Actor, u64)>, Memory>
        requires { start ≤ length self.now.way.items }
        ensures { IfOk result (λ actions. actions.items ≡ drop start self.now.way.items) }
    {
        Vec::from_slice(alloc, &self.way[start..])
    }

    /// An action comes onto the way.
    fn push(&mut self, table: &Table, action: (Actor, u64)) -> Result<(), Memory>
        requires within { sought.index_in table.now.firsts action < length table.now.slots.items }
        requires long { length self.old.marks.items ≡ length table.now.slots.items }
        ensures { OnOk result (sought.Pushes table.now self.old self.new action) }
    {
        let at = self.way.len();
        self.way.push(action)?;
        self.marks[table.index_of(action)] = Mark::OnWay(at);
        Ok(())
    }

    /// The last action of the way comes into the order.
    fn place(&mut self, table: &Table, slot: Slot) -> Result<(), Memory>
        requires within { sought.index_in table.now.firsts slot.action
            < length table.now.slots.items }
        requires long { length self.old.marks.items ≡ length table.now.slots.items }
        ensures { OnOk result (sought.Places table.now self.old self.new slot) }
    {
        put_count(&mut self.done, key_of(slot.action.0), slot.action.1)?;
        self.order.push(slot)?;
        self.way.pop();
        self.marks[table.index_of(slot.action)] = Mark::Placed;
        Ok(())
    }
}
