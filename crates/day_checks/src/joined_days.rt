//! A day that was joined: its record, where all agrees.
ghost use Rattle.std.specs.Prelude.{◌≡◌, ◌≤◌, length, map, IfErr, IfOk, drop, take, OnOk};
ghost use Rattle.std.specs.Vec.Iter.{into_iter_items};
ghost use Rattle.day_checks.specs.DayFaults.{Agrees, IsFirstOf};
ghost use Rattle.day_checks.specs.KeptDays.{names_of, rooms_of, rooms_of_venue, without_rooms};

use crate::answered_responses::answer_fault;
use crate::day_actions::action_fault;
use crate::day_rooms::DayRoom;
use crate::desk_checks::told_fault;
use crate::faults::DayFault;
use crate::relayed_quotes::relay_fault;
use crate::shown_checks::shown_fault;
use crate::swept_rooms::sweep_fault;
use fix_fields::Memory;
use recorded_days::{Action, DayRecord, DealerDay, InvestorDay, RoomDay, Sweep};
use std::alloc::Global;
use std::vec;
use venue_rows::VenueConfig;

/// The record of a day that was joined, where all agrees: the investors are still without their
/// rooms, which stand in a list of all rooms. Else the first fault, in the order of [`DayFault`]:
/// the notices of the dealers, the sweeps, the requests that the dealers were shown, the quotes
/// that came to the investors, the replies that did, the actions; or `Memory`, where that is
/// refused. It is never an `Inbox`.
pub fn agreed(
    alloc: Global,
    config: &VenueConfig,
    dealers: Vec<DealerDay>,
    investors: Vec<InvestorDay>,
    rooms: Vec<DayRoom>,
    clock: Vec<Action>,
    sweeps: &[Sweep],
) -> Result<DayRecord, DayFault>
    requires dealers { length dealers.items ≤ VenueConfig.MOST_DEALERS }
    requires investors { length investors.items ≡ length config.now.investors }
    requires rooms { names_of rooms.items ≡ rooms_of_venue config.now }
    ensures agrees { IfOk result (Agrees config.now sweeps.now (record {
      dealers = dealers.items;
      investors = investors.items;
      rooms = rooms.items;
      clock = clock.items;
    })) }
    ensures first { IfErr result (IsFirstOf config.now sweeps.now (record {
      dealers = dealers.items;
      investors = investors.items;
      rooms = rooms.items;
      clock = clock.items;
    })) }
{
    if let Some(dealer) = told_fault(alloc, dealers.as_slice(), rooms.as_slice())? {
        return Err(DayFault::Told(dealer));
    }
    if let Some(room) = sweep_fault(alloc, rooms.as_slice(), sweeps)? {
        return Err(DayFault::Sweep(room));
    }
    if let Some(dealer) = shown_fault(alloc, dealers.as_slice(), rooms.as_slice())? {
        return Err(DayFault::Shown(dealer));
    }
    if let Some(room) = relay_fault(alloc, config, investors.as_slice(), rooms.as_slice())? {
        return Err(DayFault::Relayed(room));
    }
    if let Some(room) = answer_fault(alloc, config, investors.as_slice(), rooms.as_slice())? {
        return Err(DayFault::Answered(room));
    }
    let investors = with_rooms(alloc, config, investors, rooms)?;
    if let Some(firm) = action_fault(&dealers, &investors, &clock) {
        return Err(DayFault::Acted(firm));
    }
    Ok(DayRecord::new(dealers, investors, clock))
}

/// Puts its rooms into the day of each investor: as many, from the list of all, as the investor may
/// make requests.
fn with_rooms(
    alloc: Global,
    config: &VenueConfig,
    days: Vec<InvestorDay>,
    rooms: Vec<DayRoom>,
) -> Result<Vec<InvestorDay>, Memory>
    requires days { length days.items ≡ length config.now.investors }
    requires rooms { names_of rooms.items ≡ rooms_of_venue config.now }
    ensures days { IfOk result (λ whole. map without_rooms whole.items
        ≡ map without_rooms days.items) }
    ensures rooms { IfOk result (λ whole.
        rooms_of (length config.now.dealers) whole.items ≡ rooms.items) }
{
    let mut whole = Vec::with_capacity(alloc, days.len())?;
    let mut rooms = rooms.into_iter();
    for (day, row) in days.into_iter().zip(config.investors()) {
        let mut day = day;
        day.rooms = next_rooms(alloc, &mut rooms, row.requests as usize)?;
        whole.push(day)?;
    }
    Ok(whole)
}

/// The next rooms of a list, so many, as they are recorded.
fn next_rooms(
    alloc: Global,
    rooms: &mut vec::IntoIter<DayRoom>,
    count: usize,
) -> Result<Vec<RoomDay>, Memory>
    ensures own { IfOk result (λ own. own.items
        ≡ map (λ room. room.day) (take count (into_iter_items rooms.old))) }
    ensures rest { OnOk result (into_iter_items rooms.new
        ≡ drop count (into_iter_items rooms.old)) }
{
    let mut own = Vec::with_capacity(alloc, count)?;
    for _ in 0..count {
        match rooms.next() {
            Some(room) => own.push(room.into_day())?,
            None => return Ok(own),
        }
    }
    Ok(own)
}
