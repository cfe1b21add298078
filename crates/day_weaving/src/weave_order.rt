//! An order of a recorded day, or why it has none.
ghost use Rattle.std.specs.Prelude.{IfOk, ℕ};
ghost use Rattle.day_weaving.specs.DayForm as form;
ghost use Rattle.day_weaving.specs.OrderPlaces as noted;
ghost use Rattle.day_weaving.specs.OrderSearch as sought;
ghost use Rattle.venue_steps.specs.declared.actors.Actor.{Actor};

use crate::name_checks::Places;
use crate::weave_plan::Slot;
use crate::weave_search::Search;
use crate::weave_table::table_of;
use fix_fields::Memory;
use recorded_days::DayRecord;
use std::alloc::Global;
use step_replay::Actor;
use venue_rows::VenueConfig;

/// What is found where an order of a day is searched.
#[derive(Drop)]
pub(crate) enum Found {
    /// An order that is kept.
    Order(Vec<Slot>),
    /// Actions of which each has one directly before it: that behind it in the list, and of the
    /// last the first.
    Cycle(Vec<(Actor, u64)>),
}

/// Searches an order of a day whose orders name each action at a place that is noted. It takes time
/// that grows with the number of actions, and with how many of them one word was granted.
pub(crate) fn order_of(
    alloc: Global,
    config: &VenueConfig,
    day: &DayRecord,
    places: &Places,
) -> Result<Found, Memory>
    requires firms { form.HasFirmsOf config.now day.now }
    requires once { form.AreNamedOnce day.now }
    requires sound { noted.AreTrue day.now places.now }
    requires noted { (by : Actor) → noted.AreNotedBy day.now places.now by }
    ensures { IfOk result (sought.FoundIsTrue day.now) }
{
    let table = table_of(alloc, config, day, places)?;
    let mut state = Search::new(alloc, &table)?;
    for index in 0..table.slots.len() {
        if let Some(cycle) = state.bring(alloc, day, &table, index)? {
            return Ok(Found::Cycle(cycle));
        }
    }
    let Search { order, .. } = state;
    Ok(Found::Order(order))
}
