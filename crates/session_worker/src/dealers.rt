//! What lies under the lock of a dealer's desk.
ghost use Rattle.std.specs.Prelude.{◌≡◌, ◌≢◌, [], Some, None, Err, All, IfOk, IsOk, OnErr, OnOk};
ghost use Rattle.dealer_desk.specs.DealerDesk.{book_at};
ghost use Rattle.dealer_desk.specs.DealerOutput.{dealer_output};
ghost use Rattle.dealer_desk.specs.QuoteLines.{lines_of};
ghost use Rattle.quote_word.specs.SettleLog.{entry_of, IsLegal};
ghost use Rattle.session_worker.specs.Comings.{MayCome};
ghost use Rattle.day_checks.specs.DayActions.{number_at};
ghost use Rattle.day_checks.specs.DayChecks.{came_from_dealer};
ghost use Rattle.day_checks.specs.KeptDays.{DealerKeeps, DealerStands};
ghost use Rattle.session_worker.specs.Locks.{KeepsDealer, with_action};
ghost use Rattle.day_checks.specs.AskedWords.{StandsIn, answers_at};
ghost use Rattle.session_worker.specs.Watched.{asked_of};
ghost use Rattle.day_checks.specs.declared.faults.DayFault.TheVariants as fault;
ghost use Rattle.session_worker.specs.declared.watched.WordsAsked.TheVariants as all_asked;
ghost use Rattle.step_replay.specs.Actions as actions;
ghost use Rattle.step_replay.specs.Actions.{dealer_of};
ghost use Rattle.venue_rows.specs.Rows.{dealer_numbered};
ghost use Rattle.venue_steps.specs.Brought as spec;
ghost use Rattle.venue_steps.specs.declared.actors.Actor.TheVariants as actor;
ghost use Rattle.venue_steps.specs.declared.arrivals.Placement.TheVariants as place;
ghost use Rattle.venue_steps.specs.DealerSteps as steps;
ghost use Rattle.venue_steps.specs.Words.{settlement_in, has_word, word_to_ask};

use crate::done::Done;
use crate::gates::Gate;
use crate::joined::Session;
use crate::naming::Naming;
use crate::watched::{Acting, WatchedWords};
use day_checks::{DayFault, firm_number, is_inbox_of_dealer};
use dealer_desk::{DealerDesk, words_are_asked_event_by_event};
use fix_fields::{Memory, Moment};
use quote_word::BoardSeen;
use recorded_days::{
    DealerDay, events_are_settled_one_by_one, recorded_dealers_are_sent_their_view,
};
use std::alloc::Global;
use std::marker::{Model, PhantomData};
use step_replay::Actor;
use venue_rows::{DealerRow, VenueConfig};
use venue_steps::{ForDealer, bring_to_dealer, do_drop, own_dealer};

/// A dealer's desk, the token that has seen how its words were settled, and the order of the
/// actions on it.
#[derive(Drop)]
pub(crate) struct LockedDealer<J: Naming> {
    firm: u16,
    first_word: u32,
    desk: DealerDesk,
    seen: BoardSeen,
    order: Vec<(Actor, u64)>,
    of: PhantomData<J>,
}

impl<J: Naming> Model for LockedDealer<J> {
    ghost use Rattle.session_worker.specs.Locks.{DealerUnderLock, KeepsDealer};

    ghost Value = { DealerUnderLock };

    ghost view = { λ locked. record {
      firm = locked.firm;
      first = locked.first_word;
      desk = locked.desk;
      seen = locked.seen;
      order = locked.order.items;
    } };

    ghost invariant = { λ locked.
        KeepsDealer J.board J.config locked.firm locked.first_word locked.desk locked.seen };
}

impl<J: Naming> LockedDealer<J> {
    /// The desk of a dealer at the start of the day, whose first word is `first_word`.
    pub(crate) fn new(
        alloc: Global,
        config: &VenueConfig,
        firm: u16,
        row: &DealerRow,
        first_word: u32,
        seen: BoardSeen,
    ) -> Result<Self, Memory>
        requires config { config.now ≡ J.config }
        requires row { dealer_numbered J.config firm ≡ Some row.now }
        requires first { first_word ≡ actions.first_word J.config (dealer_of firm row.now) }
        requires seen { seen.board ≡ J.board }
        ensures firm { IfOk result (λ locked. locked.firm ≡ firm) }
        ensures events { IfOk result (λ locked. locked.desk.events ≡ []) }
        ensures order { IfOk result (λ locked. locked.order ≡ []) }
    {
        let desk = DealerDesk::new(alloc, *config.date(), row.copy())?;
        Ok(LockedDealer {
            firm,
            first_word,
            desk,
            seen,
            order: Vec::new(alloc),
            of: PhantomData,
        })
    }

    /// The dealer's number among the firms.
    pub(crate) fn firm(&self) -> u16
        ensures { result ≡ self.now.firm }
    {
        self.firm
    }

    /// A message of the dealer comes, from its own session. After an error all but the token is as
    /// before.
    pub(crate) fn receive<G: Gate>(
        &mut self,
        acting: Acting<'_, G>,
        moment: Moment,
        bytes: &[u8],
    ) -> Result<Done, Memory>
        requires board { acting.board.now ≡ J.board }
        requires by { acting.by ≡ actor.Firm self.old.firm }
        ensures desk { OnOk result (self.new.desk ≡ steps.desk_after_own
            self.old.desk moment bytes.now
            (has_word J.board.words (steps.own_word self.old.first self.old.desk moment bytes.now))
            (settlement_in (λ word. entry_of word self.new.seen.log)
            (steps.own_word self.old.first self.old.desk moment bytes.now))) }
        ensures duties { IfOk result (λ done. done.duties.items
            ≡ steps.duties_of_own self.old.desk moment bytes.now
            (has_word J.board.words (steps.own_word self.old.first self.old.desk moment bytes.now))
            (settlement_in (λ word. entry_of word self.new.seen.log)
            (steps.own_word self.old.first self.old.desk moment bytes.now))) }
        ensures word { IfOk result (λ done. done.asked
            ≡ asked_of (λ word. entry_of word self.new.seen.log) (word_to_ask J.board.words
            (steps.own_word self.old.first self.old.desk moment bytes.now))) }
        ensures order { OnOk result
            (self.new.order ≡ with_action self.old.order (acting.entry.by, acting.entry.number)) }
        ensures err { OnErr result (self.new ≡ record self.old { seen = self.new.seen }) }
    {
        words_are_asked_event_by_event();
        events_are_settled_one_by_one();
        self.order.reserve(1)?;
        let noted = (acting.by, acting.number);
        let mut words = WatchedWords::new(acting, self.seen.again());
        let done = own_dealer(&mut self.desk, &mut words, self.first_word, moment, bytes);
        let (seen, asked) = words.into_parts();
        self.seen = seen;
        let duties = done?;
        self.order.push(noted)?;
        Ok(Done { duties, asked })
    }

    /// The next quote of a cancel of all of the dealer with this number is dropped, of those up to
    /// `last`. After an error all but the token is as before.
    pub(crate) fn drop_next<G: Gate>(
        &mut self,
        acting: Acting<'_, G>,
        firm: u16,
        last: u32,
        moment: Moment,
    ) -> Result<Done, Memory>
        requires board { acting.board.now ≡ J.board }
        requires firm { self.old.firm ≡ firm }
        requires placed { MayCome J.config acting.by (place.Drop firm last moment) }
        ensures desk { OnOk result (self.new.desk ≡ steps.desk_after_drop
            self.old.desk last moment
            (has_word J.board.words (steps.drop_word self.old.first self.old.desk last))
            (settlement_in (λ word. entry_of word self.new.seen.log)
            (steps.drop_word self.old.first self.old.desk last))) }
        ensures duties { IfOk result (λ done. done.duties.items
            ≡ steps.duties_of_drop self.old.desk last moment
            (has_word J.board.words (steps.drop_word self.old.first self.old.desk last))
            (settlement_in (λ word. entry_of word self.new.seen.log)
            (steps.drop_word self.old.first self.old.desk last))) }
        ensures word { IfOk result (λ done. done.asked
            ≡ asked_of (λ word. entry_of word self.new.seen.log) (word_to_ask J.board.words
            (steps.drop_word self.old.first self.old.desk last))) }
        ensures order { OnOk result
            (self.new.order ≡ with_action self.old.order (acting.entry.by, acting.entry.number)) }
        ensures err { OnErr result (self.new ≡ record self.old { seen = self.new.seen }) }
    {
        words_are_asked_event_by_event();
        events_are_settled_one_by_one();
        self.order.reserve(1)?;
        let noted = (acting.by, acting.number);
        let mut words = WatchedWords::new(acting, self.seen.again());
        let done = do_drop(&mut self.desk, &mut words, self.first_word, last, moment);
        let (seen, asked) = words.into_parts();
        self.seen = seen;
        let duties = done?;
        self.order.push(noted)?;
        Ok(Done { duties, asked })
    }

    /// What comes to the desk of the dealer with this number for a duty, and asks no word. After an
    /// error all is as before.
    pub(crate) fn bring(
        &mut self,
        action: (Actor, u64),
        firm: u16,
        what: ForDealer,
    ) -> Result<Done, Memory>
        requires firm { self.old.firm ≡ firm }
        requires placed { MayCome J.config action.0 (place.Dealer firm what) }
        ensures desk { OnOk result (self.new.desk ≡ spec.dealer_with self.old.desk what) }
        ensures duties { IfOk result (λ done. done.duties.items ≡ []) }
        ensures unasked { IfOk result (λ done. done.asked ≡ all_asked.Nothing) }
        ensures order { OnOk result (self.new.order ≡ with_action self.old.order action) }
        ensures err { OnErr result (self.new ≡ self.old) }
    {
        words_are_asked_event_by_event();
        events_are_settled_one_by_one();
        self.order.reserve(1)?;
        let duties = bring_to_dealer(&mut self.desk, what)?;
        self.order.push(action)?;
        Ok(Done::unasked(duties))
    }

    /// A copy of the token.
    pub(crate) fn seen(&self) -> BoardSeen
        ensures seen { result ≡ self.now.seen }
        ensures ours { result.board ≡ J.board }
        ensures answers { All (StandsIn result.log) (answers_at self.now.first self.now.desk) }
    {
        self.seen.again()
    }

    /// The day of the dealer at this place among the dealers, of whose session this is left. The
    /// fault is that the desk is another dealer's, or else that its own events are not its inbox.
    pub(crate) fn day_at(self, place: usize, session: Session) -> Result<DealerDay, DayFault>
        ensures keeps { IfOk result (λ day. DealerKeeps J.config place day) }
        ensures stands { IfOk result (λ day. DealerStands J.config self.seen.log place day) }
        ensures inbox { IfOk result (λ day. day.inbox ≡ session.inbox.items) }
        ensures other_desk { self.firm ≢ place → result ≡ Err (fault.Inbox (number_at place)) }
        ensures other_inbox { self.firm ≡ place
            → came_from_dealer self.desk.events ≢ session.inbox.items
            → result ≡ Err (fault.Inbox self.firm) }
        ensures given { self.firm ≡ place → came_from_dealer self.desk.events ≡ session.inbox.items
            → IsOk result }
    {
        recorded_dealers_are_sent_their_view();
        if usize::from(self.firm) != place {
            return Err(DayFault::Inbox(firm_number(place)));
        }
        if !is_inbox_of_dealer(self.desk.events(), session.inbox.as_slice()) {
            return Err(DayFault::Inbox(self.firm));
        }
        let day = self.into_day(session);
        Ok(day)
    }

    /// The day of the dealer, of whose session this is left.
    fn into_day(self, session: Session) -> DealerDay
        ensures kept { KeepsDealer
            J.board J.config self.firm self.first self.desk self.seen }
        ensures day { result ≡ record {
          sent = dealer_output J.config.date self.desk.row self.desk.events;
          lines = lines_of (book_at self.desk);
          events = self.desk.events;
          order = self.order;
          inbox = session.inbox.items;
          actions = session.actions.items;
        } }
    {
        let Self { desk, order, .. } = self;
        let (events, sent, lines) = desk.into_parts();
        let Session { inbox, actions } = session;
        DealerDay {
            sent,
            lines,
            events,
            order,
            inbox,
            actions,
        }
    }
}
