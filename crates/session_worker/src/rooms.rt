//! What lies under the lock of a room.
ghost use Rattle.std.specs.Prelude.{◌≡◌, ◌≢◌, ◌↔◌, [], true, None, Err, All, IsTrue, IfOk, IsOk};
ghost use Rattle.std.specs.Prelude.{OnErr, OnOk};
ghost use Rattle.quote_word.specs.SettleLog.{entry_of};
ghost use Rattle.request_room.specs.Book.{room_after};
ghost use Rattle.request_room.specs.declared.events.RoomEvent.TheVariants as event;
ghost use Rattle.session_worker.specs.Comings.{MayCome};
ghost use Rattle.session_worker.specs.Locks.{with_action};
ghost use Rattle.day_checks.specs.AskedWords.{StandsIn, answers_in};
ghost use Rattle.session_worker.specs.Watched.{asked_of};
ghost use Rattle.day_checks.specs.declared.faults.DayFault.TheVariants as fault;
ghost use Rattle.session_worker.specs.declared.watched.WordsAsked.TheVariants as all_asked;
ghost use Rattle.venue_rows.specs.Rows.{has_room};
ghost use Rattle.venue_steps.specs.Brought as spec;
ghost use Rattle.venue_steps.specs.declared.arrivals.Placement.TheVariants as place;
ghost use Rattle.venue_steps.specs.RoomSteps as steps;
ghost use Rattle.venue_steps.specs.Words.{settlement_in, has_word, word_to_ask};

use crate::done::Done;
use crate::gates::Gate;
use crate::naming::Naming;
use crate::watched::{Acting, WatchedWords};
use day_checks::{DayFault, DayRoom};
use fix_fields::{Memory, Moment};
use market_terms::{ResponseRef, RoomRef};
use quote_word::BoardSeen;
use request_room::Room;
use std::alloc::Global;
use std::marker::{Model, PhantomData};
use step_replay::Actor;
use venue_steps::{ForRoom, bring_to_room, do_hit};

/// A room, the token that has seen how the words hit there were settled, and the order of the
/// actions on it.
#[derive(Drop)]
pub(crate) struct LockedRoom<J: Naming> {
    at: RoomRef,
    room: Room,
    seen: BoardSeen,
    order: Vec<(Actor, u64)>,
    of: PhantomData<J>,
}

impl<J: Naming> Model for LockedRoom<J> {
    ghost use Rattle.session_worker.specs.Locks.{KeepsRoom, RoomUnderLock};

    ghost Value = { RoomUnderLock };

    ghost view = { λ locked. record {
      at = locked.at;
      events = locked.room;
      seen = locked.seen;
      order = locked.order.items;
    } };

    ghost invariant = { λ locked.
        KeepsRoom J.board J.config locked.at locked.room locked.seen };
}

impl<J: Naming> LockedRoom<J> {
    /// A room of the configuration at the start of the day: vacant.
    pub(crate) fn vacant(alloc: Global, at: RoomRef, seen: BoardSeen) -> Self
        requires room { has_room J.config at.investor at.n ≡ true }
        requires seen { seen.board ≡ J.board }
        ensures { result ≡ record { at = at; events = []; seen = seen; order = [] } }
    {
        LockedRoom {
            at,
            room: Room::vacant(alloc),
            seen,
            order: Vec::new(alloc),
            of: PhantomData,
        }
    }

    /// Whether it is the room with this name.
    pub(crate) fn is(&self, at: RoomRef) -> bool
        ensures { IsTrue result ↔ (self.now.at ≡ at) }
    {
        if self.at.investor != at.investor {
            return false;
        }
        self.at.n == at.n
    }

    /// What comes to the room with this name for a duty or a sweep, and asks no word. After an
    /// error all is as before.
    pub(crate) fn bring(
        &mut self,
        action: (Actor, u64),
        at: RoomRef,
        what: ForRoom,
    ) -> Result<Done, Memory>
        requires room { self.old.at ≡ at }
        requires placed { MayCome J.config action.0 (place.Room at what) }
        ensures room { OnOk result (self.new.events ≡ spec.room_with self.old.events what) }
        ensures duties { IfOk result (λ done. done.duties.items
            ≡ spec.duties_in_room at self.old.events what) }
        ensures unasked { IfOk result (λ done. done.asked ≡ all_asked.Nothing) }
        ensures order { OnOk result (self.new.order ≡ with_action self.old.order action) }
        ensures err { OnErr result (self.new ≡ self.old) }
    {
        self.order.reserve(1)?;
        let duties = bring_to_room(&mut self.room, at, what)?;
        self.order.push(action)?;
        Ok(Done::unasked(duties))
    }

    /// The investor hits the quote with this word, in the room with this name. After an error all
    /// but the token is as before.
    pub(crate) fn hit<G: Gate>(
        &mut self,
        acting: Acting<'_, G>,
        at: RoomRef,
        response: ResponseRef,
        word: u32,
        moment: Moment,
    ) -> Result<Done, Memory>
        requires board { acting.board.now ≡ J.board }
        requires room { self.old.at ≡ at }
        requires placed { MayCome J.config acting.by (place.Hit at response word moment) }
        ensures room { OnOk result (self.new.events
            ≡ steps.where_done (has_word J.board.words
            (steps.hit_word (room_after self.old.events) word moment)) self.old.events
            (event.Hit word moment (settlement_in (λ w. entry_of w self.new.seen.log)
            (steps.hit_word (room_after self.old.events) word moment)))) }
        ensures duties { IfOk result (λ done. done.duties.items
            ≡ steps.duties_of_hit (room_after self.old.events) at
            response word moment (has_word J.board.words
            (steps.hit_word (room_after self.old.events) word moment))
            (settlement_in (λ w. entry_of w self.new.seen.log)
            (steps.hit_word (room_after self.old.events) word moment))) }
        ensures word { IfOk result (λ done. done.asked
            ≡ asked_of (λ w. entry_of w self.new.seen.log) (word_to_ask J.board.words
            (steps.hit_word (room_after self.old.events) word moment))) }
        ensures order { OnOk result
            (self.new.order ≡ with_action self.old.order (acting.entry.by, acting.entry.number)) }
        ensures err { OnErr result (self.new ≡ record self.old { seen = self.new.seen }) }
    {
        self.order.reserve(1)?;
        let noted = (acting.by, acting.number);
        let mut words = WatchedWords::new(acting, self.seen.again());
        let done = do_hit(&mut self.room, &mut words, at, response, word, moment);
        let (seen, asked) = words.into_parts();
        self.seen = seen;
        let duties = done?;
        self.order.push(noted)?;
        Ok(Done { duties, asked })
    }

    /// A copy of the token.
    pub(crate) fn seen(&self) -> BoardSeen
        ensures seen { result ≡ self.now.seen }
        ensures ours { result.board ≡ J.board }
        ensures answers { All (StandsIn result.log) (answers_in self.now.events) }
    {
        self.seen.again()
    }

    /// The room and the actions in it, as that of the request with this name. The fault is that the
    /// room is another request's.
    pub(crate) fn day_at(self, at: RoomRef) -> Result<DayRoom, DayFault>
        ensures room { IfOk result (λ room. room
            ≡ record { at = at; day = record { events = self.events; order = self.order } }) }
        ensures other_room { self.at ≢ at → result ≡ Err (fault.Inbox at.investor) }
        ensures given { self.at ≡ at → IsOk result }
    {
        if !self.is(at) {
            return Err(DayFault::Inbox(at.investor));
        }
        let day = self.into_day();
        Ok(day)
    }

    /// The room and the actions in it, by its own name.
    fn into_day(self) -> DayRoom
        ensures { result ≡ record {
          at = self.at;
          day = record { events = self.events; order = self.order };
        } }
    {
        let Self {
            at,
            room,
            order,
            ..
        } = self;
        DayRoom::new(at, room, order)
    }
}
