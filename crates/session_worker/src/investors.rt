//! What lies under the lock of an investor's desk.
ghost use Rattle.std.specs.Prelude.{◌≡◌, ◌≢◌, [], true, Some, None, is_some, Err, IfOk, IsOk};
ghost use Rattle.std.specs.Prelude.{OnErr, OnOk};
ghost use Rattle.investor_desk.specs.InvestorDesk.{book_at, market_for};
ghost use Rattle.investor_desk.specs.InvestorOutput.{investor_output};
ghost use Rattle.investor_desk.specs.RequestLines.{lines_of};
ghost use Rattle.session_worker.specs.Comings.{MayCome};
ghost use Rattle.day_checks.specs.DayChecks.{came_from_investor};
ghost use Rattle.day_checks.specs.KeptDays.{InvestorKeeps};
ghost use Rattle.day_checks.specs.LeftResponses.{responses_answered, responses_left};
ghost use Rattle.session_worker.specs.Locks.{with_action};
ghost use Rattle.day_checks.specs.declared.faults.DayFault.TheVariants as fault;
ghost use Rattle.session_worker.specs.declared.watched.WordsAsked.TheVariants as all_asked;
ghost use Rattle.venue_rows.specs.Rows.{investor_numbered};
ghost use Rattle.venue_steps.specs.Brought as spec;
ghost use Rattle.venue_steps.specs.declared.actors.Actor.TheVariants as actor;
ghost use Rattle.venue_steps.specs.declared.arrivals.Placement.TheVariants as place;
ghost use Rattle.venue_steps.specs.InvestorSteps as steps;

use crate::done::Done;
use crate::joined::Session;
use crate::naming::Naming;
use day_checks::{DayFault, LeftResponse, are_answered, is_inbox_of_investor, response_in};
use fix_fields::{Memory, Moment};
use investor_desk::InvestorDesk;
use recorded_days::{InvestorDay, RoomDay};
use std::alloc::Global;
use std::marker::{Model, PhantomData};
use step_replay::Actor;
use venue_rows::VenueConfig;
use venue_steps::{ForInvestor, bring_to_investor, own_investor};

/// An investor's desk, the responses that the investor's messages left, and the order of the
/// actions on the desk. No action there asks a word, so no token lies beside it.
#[derive(Drop)]
pub(crate) struct LockedInvestor<J: Naming> {
    desk: InvestorDesk,
    left: Vec<LeftResponse>,
    order: Vec<(Actor, u64)>,
    of: PhantomData<J>,
}

impl<J: Naming> Model for LockedInvestor<J> {
    ghost use Rattle.session_worker.specs.Locks.{InvestorUnderLock, KeepsInvestor};

    ghost Value = { InvestorUnderLock };

    ghost view = { λ locked. record { desk = locked.desk; order = locked.order.items } };

    ghost invariant = { λ locked. KeepsInvestor J.config locked.desk locked.left.items };
}

impl<J: Naming> LockedInvestor<J> {
    /// The desk of an investor at the start of the day.
    pub(crate) fn new(alloc: Global, config: &VenueConfig, firm: u16) -> Result<Self, Memory>
        requires config { config.now ≡ J.config }
        requires investor { is_some (investor_numbered J.config firm) ≡ true }
        ensures firm { IfOk result (λ locked. locked.desk.market.firm ≡ firm) }
        ensures events { IfOk result (λ locked. locked.desk.events ≡ []) }
        ensures order { IfOk result (λ locked. locked.order ≡ []) }
    {
        let desk = InvestorDesk::new(alloc, config, firm)?;
        Ok(LockedInvestor {
            desk,
            left: Vec::new(alloc),
            order: Vec::new(alloc),
            of: PhantomData,
        })
    }

    /// The investor's number among the firms.
    pub(crate) fn firm(&self) -> u16
        ensures { result ≡ self.now.desk.market.firm }
    {
        self.desk.firm()
    }

    /// A message of the investor comes, from its own session. After an error all is as before.
    pub(crate) fn receive(
        &mut self,
        action: (Actor, u64),
        moment: Moment,
        bytes: &[u8],
    ) -> Result<Done, Memory>
        requires { action.0 ≡ actor.Firm self.old.desk.market.firm }
        ensures desk { OnOk result
            (self.new.desk ≡ steps.desk_after_own self.old.desk moment bytes.now) }
        ensures duties { IfOk result (λ done. done.duties.items
            ≡ steps.duties_of_own self.old.desk moment bytes.now) }
        ensures unasked { IfOk result (λ done. done.asked ≡ all_asked.Nothing) }
        ensures order { OnOk result (self.new.order ≡ with_action self.old.order action) }
        ensures err { OnErr result (self.new ≡ self.old) }
    {
        self.order.reserve(1)?;
        self.left.reserve(1)?;
        let duties = own_investor(&mut self.desk, moment, bytes)?;
        self.order.push(action)?;
        let Some(response) = response_in(&duties) else {
            return Ok(Done::unasked(duties));
        };
        self.left.push(response)?;
        Ok(Done::unasked(duties))
    }

    /// What comes to the desk of the investor with this number for a duty. After an error all is as
    /// before.
    pub(crate) fn bring(
        &mut self,
        action: (Actor, u64),
        firm: u16,
        what: ForInvestor,
    ) -> Result<Done, Memory>
        requires firm { self.old.desk.market.firm ≡ firm }
        requires placed { MayCome J.config action.0 (place.Investor firm what) }
        ensures desk { OnOk result (self.new.desk ≡ spec.investor_with self.old.desk what) }
        ensures duties { IfOk result (λ done. done.duties.items ≡ []) }
        ensures unasked { IfOk result (λ done. done.asked ≡ all_asked.Nothing) }
        ensures order { OnOk result (self.new.order ≡ with_action self.old.order action) }
        ensures err { OnErr result (self.new ≡ self.old) }
    {
        self.order.reserve(1)?;
        let duties = bring_to_investor(&mut self.desk, what)?;
        self.order.push(action)?;
        Ok(Done::unasked(duties))
    }

    /// The day of the investor with this number among the firms, of whose session this is left,
    /// still without its rooms. The fault is that the desk is another investor's, or else that its
    /// own events are not its inbox, or that what it was answered are not the responses that its
    /// messages left.
    pub(crate) fn day_at(
        self,
        alloc: Global,
        firm: u16,
        session: Session,
    ) -> Result<InvestorDay, DayFault>
        ensures keeps { IfOk result (λ day. InvestorKeeps J.config firm day) }
        ensures inbox { IfOk result (λ day. day.inbox ≡ session.inbox.items) }
        ensures other_desk { self.desk.market.firm ≢ firm → result ≡ Err (fault.Inbox firm) }
        ensures other_inbox { came_from_investor self.desk.events ≢ session.inbox.items
            → result ≡ Err (fault.Inbox firm) }
        ensures other_answers { responses_answered self.desk.events ≢ responses_left self.desk
            → result ≡ Err (fault.Inbox firm) }
        ensures given { self.desk.market.firm ≡ firm
            → came_from_investor self.desk.events ≡ session.inbox.items
            → responses_answered self.desk.events ≡ responses_left self.desk → IsOk result }
    {
        if self.desk.firm() != firm {
            return Err(DayFault::Inbox(firm));
        }
        if !is_inbox_of_investor(self.desk.events(), session.inbox.as_slice()) {
            return Err(DayFault::Inbox(firm));
        }
        if !are_answered(self.desk.events(), self.left.as_slice()) {
            return Err(DayFault::Inbox(firm));
        }
        let day = self.into_day(session, Vec::new(alloc));
        Ok(day)
    }

    /// The day of the investor, of whose session this is left, with these rooms.
    fn into_day(self, session: Session, rooms: Vec<RoomDay>) -> InvestorDay
        ensures market { market_for J.config self.desk.market.firm ≡ Some self.desk.market }
        ensures day { result ≡ record {
          sent = investor_output self.desk.market self.desk.events;
          lines = lines_of (book_at self.desk);
          events = self.desk.events;
          order = self.order;
          inbox = session.inbox.items;
          actions = session.actions.items;
          rooms = rooms.items;
        } }
    {
        let Self { desk, order, .. } = self;
        let (events, sent, lines) = desk.into_parts();
        let Session { inbox, actions } = session;
        InvestorDay {
            sent,
            lines,
            events,
            order,
            inbox,
            actions,
            rooms,
        }
    }
}
