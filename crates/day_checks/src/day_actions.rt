//! Whether each event of a day is that of an action at its desk or in its room.
ghost use Rattle.std.specs.Prelude.{◌≡◌, not};
ghost use Rattle.std.specs.List.{list_all, position};
ghost use Rattle.std.specs.Option.{option_copied, option_map};
ghost use Rattle.recorded_days.specs.Records.{action_in, actions_of};
ghost use Rattle.day_checks.specs.DayActions as spec;
ghost use Rattle.day_checks.specs.DayActions.{number_at};

use crate::place_events::PlaceEvent;
use recorded_days::{Action, DealerDay, InvestorDay, RoomDay};
use std::marker::Model;
use step_replay::Actor;

/// A place among the firms, counted from 0, as a firm's number. No number is above 65,535, so a
/// place beyond it has that one.
pub fn firm_number(place: usize) -> u16
    ensures { result ≡ number_at place }
{
    place.min(usize::from(u16::MAX)) as u16
}

/// What is recorded of a day, and so what each actor did. A contract sees it as the record.
#[derive(Drop)]
struct DayActions<'d> {
    dealers: &'d [DealerDay],
    investors: &'d [InvestorDay],
    clock: &'d [Action],
}

impl<'d> Model for DayActions<'d> {
    ghost use Rattle.recorded_days.specs.Records.{RecordedDay};

    ghost Value = { RecordedDay };

    ghost view = { λ day. record {
      dealers = day.dealers.now;
      investors = day.investors.now;
      clock = day.clock.now;
    } };
}

/// The first firm, in the order of their numbers, with an event at its desk, or in a room of its
/// requests, that is not that of an action there.
pub(crate) fn action_fault(
    dealers: &[DealerDay],
    investors: &[InvestorDay],
    clock: &[Action],
) -> Option<u16>
    ensures { result ≡ option_map spec.number_at (spec.first_unleft (record {
      dealers = dealers.now;
      investors = investors.now;
      clock = clock.now;
    })) }
{
    let day = DayActions {
        dealers,
        investors,
        clock,
    };
    if let Some(place) = day.dealer_fault() {
        let number = firm_number(place);
        return Some(number);
    }
    let place = day.investor_fault()?;
    let behind = dealers.len().saturating_add(place);
    let firm = firm_number(behind);
    Some(firm)
}

impl<'d> DayActions<'d> {
    /// The place of the first dealer with an event at its desk that is not that of an action there.
    fn dealer_fault(&self) -> Option<usize>
        ensures { result
            ≡ position (λ dealer. not (spec.is_dealer_left self.now dealer)) self.now.dealers }
    {
        self.dealers
            .iter()
            .position(|dealer| !self.is_dealer_left(dealer))
    }

    /// The place among the investors of the first with such an event at its desk, or in a room of
    /// its requests.
    fn investor_fault(&self) -> Option<usize>
        ensures { result ≡ position (λ investor. not (spec.is_investor_left self.now investor))
            self.now.investors }
    {
        self.investors
            .iter()
            .position(|investor| !self.is_investor_left(investor))
    }

    /// Whether the events at a dealer's desk are those of the actions there.
    fn is_dealer_left(&self, dealer: &DealerDay) -> bool
        ensures { result ≡ spec.is_dealer_left self.now dealer.now }
    {
        are_left(self, &dealer.order, &dealer.events)
    }

    /// Whether the events at an investor's desk, and in the rooms of its requests, are those of the
    /// actions there.
    fn is_investor_left(&self, investor: &InvestorDay) -> bool
        ensures { result ≡ spec.is_investor_left self.now investor.now }
    {
        if !are_left(self, &investor.order, &investor.events) {
            return false;
        }
        self.are_rooms_left(&investor.rooms)
    }

    /// Whether those in each of these rooms are.
    fn are_rooms_left(&self, rooms: &[RoomDay]) -> bool
        ensures { result ≡ list_all (spec.is_room_left self.now) rooms.now }
    {
        rooms.iter().all(|room| self.is_room_left(room))
    }

    /// Whether those in a room are.
    fn is_room_left(&self, room: &RoomDay) -> bool
        ensures { result ≡ spec.is_room_left self.now room.now }
    {
        are_left(self, &room.order, &room.events)
    }

    /// An action, where the day has it.
    fn action(&self, action: (Actor, u64)) -> Option<&Action>
        ensures { option_copied result ≡ action_in self.now action }
    {
        let actions = self.actions(action.0)?;
        if action.1 == 0 {
            return None;
        }
        actions.get((action.1 - 1) as usize)
    }

    /// What an actor did, where the day has the actor.
    fn actions(&self, actor: Actor) -> Option<&[Action]>
        ensures { option_copied result ≡ actions_of self.now actor }
    {
        let Actor::Firm(firm) = actor else {
            return Some(self.clock);
        };
        let Some(index) = usize::from(firm).checked_sub(self.dealers.len()) else {
            let day = self.dealers.get(usize::from(firm))?;
            return Some(day.actions.as_slice());
        };
        let day = self.investors.get(index)?;
        Some(day.actions.as_slice())
    }
}

/// Whether an order names actions of a day alone, and events are those of these actions.
fn are_left<E: PlaceEvent>(day: &DayActions<'_>, order: &[(Actor, u64)], events: &[E]) -> bool
    ensures { result ≡ spec.are_left E.left day.now order.now events.now }
{
    let mut order = order;
    let mut events = events;
    while let Some((one, later)) = order.split_first() {
        let Some(action) = day.action(*one) else {
            return false;
        };
        events = behind(one.0, action, events);
        order = later;
    }
    events.is_empty()
}

/// The events behind those of an action of an actor: all but the first, where that is the action's,
/// and else all.
fn behind<'e, E: PlaceEvent>(by: Actor, action: &Action, events: &'e [E]) -> &'e [E]
    ensures { result.now ≡ spec.behind E.left by action.now events.entry.now }
{
    let Some((event, later)) = events.split_first() else {
        return events;
    };
    if event.is_left_by(by, action) {
        return later;
    }
    events
}
