//! The rooms of a day.
ghost use Rattle.std.specs.Prelude.{◌≡◌, option_map};
ghost use Rattle.request_room.specs.Book.{room_after};
ghost use Rattle.request_room.specs.RoomFacts.{end_of, is_named, request_of};
ghost use Rattle.venue_steps.specs.RoomSteps.{dealers_of};

use market_terms::RoomRef;
use recorded_days::RoomDay;
use request_room::{End, Room, RoomEvent, RoomRequest};
use std::marker::Model;
use step_replay::Actor;

/// A room when the day is over. A contract sees which one it is, and what is recorded of it.
#[derive(Drop)]
pub struct DayRoom {
    at: RoomRef,
    room: Room,
    order: Vec<(Actor, u64)>,
}

impl Model for DayRoom {
    ghost use Rattle.day_checks.specs.DayChecks.{DayRoom};

    ghost Value = { DayRoom };

    ghost view = { λ room. record {
      at = room.at;
      day = record { events = room.room; order = room.order.items };
    } };
}

impl DayRoom {
    /// A room, and the actions in it in their order. It takes no memory.
    pub fn new(at: RoomRef, room: Room, order: Vec<(Actor, u64)>) -> Self
        ensures { result
            ≡ record { at = at; day = record { events = room; order = order.items } } }
    {
        DayRoom { at, room, order }
    }

    /// Which room it is.
    pub(crate) fn at(&self) -> RoomRef
        ensures { result ≡ self.now.at }
    {
        self.at
    }

    /// Whether its request names a dealer.
    pub(crate) fn named(&self, dealer: u16) -> bool
        ensures { result ≡ is_named (room_after self.now.day.events) dealer }
    {
        self.room.named(dealer)
    }

    /// What it was opened for, if it was.
    pub(crate) fn request(&self) -> Option<&RoomRequest>
        ensures { option_map (λ request. request.now) result
            ≡ request_of (room_after self.now.day.events) }
    {
        self.room.request()
    }

    /// The dealers that its request names, in the request's order: none where it was not opened.
    pub(crate) fn dealers(&self) -> &[u16]
        ensures { result.now ≡ dealers_of (request_of (room_after self.now.day.events)) }
    {
        let Some(request) = self.room.request() else {
            return &[];
        };
        request.dealers.as_slice()
    }

    /// How it ended, if it has.
    pub(crate) fn end(&self) -> Option<End>
        ensures { result ≡ end_of (room_after self.now.day.events) }
    {
        self.room.end()
    }

    /// Its events.
    pub(crate) fn events(&self) -> &[RoomEvent]
        ensures { result.now ≡ self.now.day.events }
    {
        self.room.events()
    }

    /// What is recorded of it. It takes no memory.
    pub(crate) fn into_day(self) -> RoomDay
        ensures { result ≡ self.day }
    {
        RoomDay {
            events: self.room.into_events(),
            order: self.order,
        }
    }
}
