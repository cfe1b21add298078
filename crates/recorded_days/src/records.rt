//! The record of a day: what each firm was sent, the events at every desk and in every room with
//! the order in which they came, and what each actor did.
ghost use Rattle.std.specs.Prelude.{◌≡◌};
ghost use Rattle.std.specs.Option.{option_copied, option_map};
ghost use Rattle.market_terms.specs.DayLines.{lines_in};
ghost use Rattle.recorded_days.specs.Records as spec;
ghost use Rattle.recorded_days.specs.Records.{DealerLists, FirmLists, InvestorLists, RoomLists};

use crate::actions::{Action, Inbound};
use dealer_desk::DealerEvent;
use investor_desk::InvestorEvent;
use market_terms::{FirmLines, QuoteLine, RequestLine, RoomRef};
use quote_messages::SentMessage;
use request_room::RoomEvent;
use std::marker::Model;
use step_replay::Actor;

/// What is recorded of a dealer's day.
#[derive(Drop)]
pub struct DealerDay {
    /// The messages that the dealer was sent, the first one first.
    pub sent: Vec<SentMessage>,
    /// The lines of its blotter: one for each of its accepted quotes.
    pub lines: Vec<QuoteLine>,
    /// The events at its desk, the first one first.
    pub events: Vec<DealerEvent>,
    /// The actions at its desk in the order in which they came: each by its actor, and its number
    /// among the actions of that actor, from 1.
    pub order: Vec<(Actor, u64)>,
    /// The messages that came from it, in their order.
    pub inbox: Vec<Inbound>,
    /// What it did, the first action first.
    pub actions: Vec<Action>,
}

/// What is recorded of the day of a room.
#[derive(Drop)]
pub struct RoomDay {
    /// Its events, the first one first.
    pub events: Vec<RoomEvent>,
    /// The actions in it in their order, as those at a desk.
    pub order: Vec<(Actor, u64)>,
}

/// What is recorded of an investor's day.
#[derive(Drop)]
pub struct InvestorDay {
    /// The messages that the investor was sent, the first one first.
    pub sent: Vec<SentMessage>,
    /// The lines of its blotter: one for each of its accepted requests.
    pub lines: Vec<RequestLine>,
    /// The events at its desk, the first one first.
    pub events: Vec<InvestorEvent>,
    /// The actions at its desk in their order, as those at a dealer's.
    pub order: Vec<(Actor, u64)>,
    /// The messages that came from it, in their order.
    pub inbox: Vec<Inbound>,
    /// What it did, the first action first.
    pub actions: Vec<Action>,
    /// The rooms of its requests, that of the first one first.
    pub rooms: Vec<RoomDay>,
}

impl Model for DealerDay {
    ghost use Rattle.recorded_days.specs.Records.{DealerLists};

    ghost Value = { DealerLists };

    ghost view = { λ day. record {
      sent = day.sent.items;
      lines = day.lines.items;
      events = day.events.items;
      order = day.order.items;
      inbox = day.inbox.items;
      actions = day.actions.items;
    } };
}

impl Model for RoomDay {
    ghost use Rattle.recorded_days.specs.Records.{RoomLists};

    ghost Value = { RoomLists };

    ghost view = { λ day. record {
      events = day.events.items;
      order = day.order.items;
    } };
}

impl Model for InvestorDay {
    ghost use Rattle.recorded_days.specs.Records.{InvestorLists};

    ghost Value = { InvestorLists };

    ghost view = { λ day. record {
      sent = day.sent.items;
      lines = day.lines.items;
      events = day.events.items;
      order = day.order.items;
      inbox = day.inbox.items;
      actions = day.actions.items;
      rooms = day.rooms.items;
    } };
}

/// The record of a day of the venue. Firms go by their numbers, the dealers from 0 on, behind them
/// the investors. Each reader gives back a list that [`DayRecord::new`] took.
#[derive(Drop)]
pub struct DayRecord {
    dealers: Vec<DealerDay>,
    investors: Vec<InvestorDay>,
    clock: Vec<Action>,
}

impl Model for DayRecord {
    ghost use Rattle.recorded_days.specs.Records.{RecordedDay};

    ghost Value = { RecordedDay };

    ghost view = { λ day. record {
      dealers = day.dealers.items;
      investors = day.investors.items;
      clock = day.clock.items;
    } };
}

impl DayRecord {
    /// The record of the days of these firms, in the order of their numbers, and of what the clock
    /// did. It takes no memory, and cannot fail.
    pub fn new(dealers: Vec<DealerDay>, investors: Vec<InvestorDay>, clock: Vec<Action>) -> Self
        ensures { result ≡ record {
          dealers = dealers.items;
          investors = investors.items;
          clock = clock.items;
        } }
    {
        DayRecord {
            dealers,
            investors,
            clock,
        }
    }

    /// What is recorded of the dealers, in the order of their numbers.
    pub fn dealers(&self) -> &[DealerDay]
        ensures { result.now ≡ self.now.dealers }
    {
        self.dealers.as_slice()
    }

    /// What is recorded of the investors, in the order of their numbers.
    pub fn investors(&self) -> &[InvestorDay]
        ensures { result.now ≡ self.now.investors }
    {
        self.investors.as_slice()
    }

    /// The messages that the firm with this number was sent, the first one first, or none where the
    /// record has no such firm.
    pub fn sent(&self, firm: u16) -> Option<&[SentMessage]>
        ensures { option_copied result
            ≡ option_map (λ (day : FirmLists). day.sent) (spec.firm_in self.now firm) }
    {
        let Some(index) = usize::from(firm).checked_sub(self.dealers.len()) else {
            let day = self.dealers.get(usize::from(firm))?;
            return Some(day.sent.as_slice());
        };
        let day = self.investors.get(index)?;
        Some(day.sent.as_slice())
    }

    /// The lines of the blotter of the firm with this number, or none where the record has no such
    /// firm.
    pub fn lines(&self, firm: u16) -> Option<FirmLines<'_>>
        ensures { option_map lines_in result
            ≡ option_map (λ (day : FirmLists). day.lines) (spec.firm_in self.now firm) }
    {
        let Some(index) = usize::from(firm).checked_sub(self.dealers.len()) else {
            let day = self.dealers.get(usize::from(firm))?;
            return Some(FirmLines::Dealer(day.lines.as_slice()));
        };
        let day = self.investors.get(index)?;
        Some(FirmLines::Investor(day.lines.as_slice()))
    }

    /// The order of the actions at the desk of the firm with this number, or none where the record
    /// has no such firm: each action by its actor, and its number among the actions of that actor,
    /// from 1.
    pub fn desk_order(&self, firm: u16) -> Option<&[(Actor, u64)]>
        ensures { option_copied result
            ≡ option_map (λ (day : FirmLists). day.order) (spec.firm_in self.now firm) }
    {
        let Some(index) = usize::from(firm).checked_sub(self.dealers.len()) else {
            let day = self.dealers.get(usize::from(firm))?;
            return Some(day.order.as_slice());
        };
        let day = self.investors.get(index)?;
        Some(day.order.as_slice())
    }

    /// The messages that came from the firm with this number, in their order, or none where the
    /// record has no such firm.
    pub fn inbox(&self, firm: u16) -> Option<&[Inbound]>
        ensures { option_copied result
            ≡ option_map (λ (day : FirmLists). day.inbox) (spec.firm_in self.now firm) }
    {
        let Some(index) = usize::from(firm).checked_sub(self.dealers.len()) else {
            let day = self.dealers.get(usize::from(firm))?;
            return Some(day.inbox.as_slice());
        };
        let day = self.investors.get(index)?;
        Some(day.inbox.as_slice())
    }

    /// What an actor did, the first action first, or none where it is a firm that the record does
    /// not have.
    pub fn actions(&self, actor: Actor) -> Option<&[Action]>
        ensures { option_copied result ≡ spec.actions_of self.now actor }
    {
        let Actor::Firm(firm) = actor else {
            return Some(self.clock.as_slice());
        };
        let Some(index) = usize::from(firm).checked_sub(self.dealers.len()) else {
            let day = self.dealers.get(usize::from(firm))?;
            return Some(day.actions.as_slice());
        };
        let day = self.investors.get(index)?;
        Some(day.actions.as_slice())
    }

    /// The events at the desk of the dealer with this number, the first one first, or none where
    /// the record has no such dealer.
    pub fn dealer_events(&self, firm: u16) -> Option<&[DealerEvent]>
        ensures { option_copied result
            ≡ option_map (λ (day : DealerLists). day.events) (spec.dealer_in self.now firm) }
    {
        let day = self.dealers.get(usize::from(firm))?;
        Some(day.events.as_slice())
    }

    /// The events at the desk of the investor with this number, the first one first, or none where
    /// the record has no such investor.
    pub fn investor_events(&self, firm: u16) -> Option<&[InvestorEvent]>
        ensures { option_copied result
            ≡ option_map (λ (day : InvestorLists). day.events) (spec.investor_in self.now firm) }
    {
        let index = usize::from(firm).checked_sub(self.dealers.len())?;
        let day = self.investors.get(index)?;
        Some(day.events.as_slice())
    }

    /// The events of a room, the first one first, or none where the record has no such room.
    pub fn room_events(&self, room: RoomRef) -> Option<&[RoomEvent]>
        ensures { option_copied result
            ≡ option_map (λ (day : RoomLists). day.events) (spec.room_in self.now room) }
    {
        let day = self.room(room)?;
        Some(day.events.as_slice())
    }

    /// The order of the actions in a room, or none where the record has no such room: each action
    /// by its actor, and its number among the actions of that actor, from 1.
    pub fn room_order(&self, room: RoomRef) -> Option<&[(Actor, u64)]>
        ensures { option_copied result
            ≡ option_map (λ (day : RoomLists). day.order) (spec.room_in self.now room) }
    {
        let day = self.room(room)?;
        Some(day.order.as_slice())
    }

    /// What is recorded of a room.
    fn room(&self, room: RoomRef) -> Option<&RoomDay>
        ensures { option_copied result ≡ spec.room_in self.now room }
    {
        let investor = usize::from(room.investor).checked_sub(self.dealers.len())?;
        let day = self.investors.get(investor)?;
        let number = (room.n as usize).checked_sub(1)?;
        day.rooms.get(number)
    }
}
