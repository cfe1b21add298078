//! A day, step by step: the places, and the queues in which duties wait for their turns.
ghost use Rattle.std.specs.Prelude.{◌≡◌, true, None, [], length, map, replicate, IfOk, OnOk};
ghost use Rattle.step_replay.specs.DutyEffects.{message_effect, sweep_effect};
ghost use Rattle.step_replay.specs.AuditTrail as venue;
ghost use Rattle.step_replay.specs.DonePlaces.{IsMessageDone, IsStepDone, IsSweepDone, IsTurnDone};
ghost use Rattle.step_replay.specs.DonePlaces.{Tells};
ghost use Rattle.step_replay.specs.DoneSteps.{AreKnown, after_steps};
ghost use Rattle.step_replay.specs.Following as spec;
ghost use Rattle.step_replay.specs.Following.{Follows, ReplayStands};
ghost use Rattle.step_replay.specs.Queues.{is_known};
ghost use Rattle.step_replay.specs.StepFaults.{fault_of};

use crate::done::Done;
use crate::duties::{act, receive, sweep};
use crate::floor::Floor;
use crate::queues::leave;
use crate::steps::Step;
use fix_fields::{Memory, Moment};
use market_terms::{Duty, RoomRef};
use std::alloc::Global;
use std::collections::VecDeque;
use venue_rows::VenueConfig;
use venue_steps::Actor;

/// A venue that replays a day.
#[derive(Drop)]
pub(crate) struct Replay {
    /// The desks, the rooms and the words.
    pub(crate) floor: Floor,
    /// The duties of each actor, the oldest first: the firms in their order, and behind them the
    /// clock.
    pub(crate) queues: Vec<VecDeque<Duty>>,
}

impl Replay {
    /// A day before its first step.
    pub(crate) fn new(alloc: Global, config: &VenueConfig) -> Result<Self, Memory>
        ensures { IfOk result (λ replay. ReplayStands config.now venue.no_steps replay) }
    {
        let floor = Floor::at_start(alloc, config)?;
        let actors = config.dealers().len() + config.investors().len() + 1;
        let queues = empty_queues(alloc, actors)?;
        Ok(Replay { floor, queues })
    }

    /// A step is done: where, and what the venue had there.
    pub(crate) fn step(&mut self, step: &Step) -> Result<Done, Memory>
        ensures follows { OnOk result (Follows (λ config. fault_of config 0 step.now ≡ None)
            (λ config trail. venue.after_step config trail step.now)
            self.old self.new) }
        ensures done { IfOk result (Tells (λ config. fault_of config 0 step.now ≡ None)
            (IsStepDone step.now) self.old self.new) }
    {
        match step {
            Step::In(firm, moment, message) => {
                let done = self.receive(*firm, *moment, message.as_bytes())?;
                Ok(done)
            }
            Step::Turn(by) => {
                let done = self.turn(*by)?;
                Ok(done)
            }
            Step::Expire(room, moment) => {
                let done = self.sweep(*room, *moment)?;
                Ok(done)
            }
        }
    }

    /// The same for whoever does not ask where.
    // A match: the prover can't carry a `Done` past a `?` that drops it.
    pub(crate) fn follow(&mut self, step: &Step) -> Result<(), Memory>
        ensures { OnOk result (Follows (λ config. fault_of config 0 step.now ≡ None)
            (λ config trail. venue.after_step config trail step.now)
            self.old self.new) }
    {
        match self.step(step) {
            Ok(_) => Ok(()),
            Err(memory) => Err(memory),
        }
    }

    /// Steps that nobody needs afterwards are done. The memory of each goes once it is done, and
    /// that of their list with the last.
    pub(crate) fn run(&mut self, steps: Vec<Step>) -> Result<(), Memory>
        ensures { OnOk result
            (Follows (AreKnown steps.items) (after_steps steps.items) self.old self.new) }
    {
        for step in steps {
            self.follow(&step)?;
        }
        Ok(())
    }

    /// Which queue is an actor's.
    pub(crate) fn index_of(&self, by: Actor) -> Option<usize>
        ensures { result ≡ spec.index_in (length self.now.queues.items) by }
    {
        let Actor::Firm(number) = by else {
            return self.queues.len().checked_sub(1);
        };
        if usize::from(number) + 1 >= self.queues.len() {
            return None;
        }
        Some(usize::from(number))
    }

    /// An actor does the oldest of its duties, where it has one.
    pub(crate) fn turn(&mut self, by: Actor) -> Result<Done, Memory>
        ensures follows { OnOk result (Follows (λ config. is_known config by ≡ true)
            (λ config trail. venue.after_turn config by trail (venue.pending by trail))
            self.old self.new) }
        ensures done { IfOk result (Tells (λ config. is_known config by ≡ true)
            (λ config trail. IsTurnDone config by (venue.pending by trail)) self.old self.new) }
    {
        let Some(index) = self.index_of(by) else {
            return Ok(Done::Nowhere);
        };
        let Some(queue) = self.queues.get_mut(index) else {
            return Ok(Done::Nowhere);
        };
        let Some(duty) = queue.pop_front() else {
            return Ok(Done::Nowhere);
        };
        let acted = act(&mut self.floor, by, duty)?;
        let Some(queue) = self.queues.get_mut(index) else {
            return Ok(acted.done);
        };
        leave(queue, acted.duties)?;
        Ok(acted.done)
    }

    /// A message of a firm comes to its own desk.
    pub(crate) fn receive(
        &mut self,
        firm: u16,
        moment: Moment,
        bytes: &[u8],
    ) -> Result<Done, Memory>
        ensures follows { OnOk result (Follows (λ config. is_known config (Actor.Firm firm) ≡ true)
            (λ config trail. venue.with_effect (Actor.Firm firm) trail
            (message_effect config trail.facts firm moment bytes.now))
            self.old self.new) }
        ensures done { IfOk result (Tells (λ config. is_known config (Actor.Firm firm) ≡ true)
            (λ config trail. IsMessageDone firm) self.old self.new) }
    {
        let Some(index) = self.index_of(Actor::Firm(firm)) else {
            return Ok(Done::Nowhere);
        };
        let acted = receive(&mut self.floor, firm, moment, bytes)?;
        let Some(queue) = self.queues.get_mut(index) else {
            return Ok(acted.done);
        };
        leave(queue, acted.duties)?;
        Ok(acted.done)
    }

    /// The clock sweeps a room.
    pub(crate) fn sweep(&mut self, room: RoomRef, moment: Moment) -> Result<Done, Memory>
        ensures follows { OnOk result (Follows (λ config. is_known config Actor.Clock ≡ true)
            (λ config trail. venue.with_effect Actor.Clock trail
            (sweep_effect config trail.facts room moment))
            self.old self.new) }
        ensures done { IfOk result (Tells (λ config. is_known config Actor.Clock ≡ true)
            (λ config trail. IsSweepDone config room moment) self.old self.new) }
    {
        let Some(index) = self.index_of(Actor::Clock) else {
            return Ok(Done::Nowhere);
        };
        let acted = sweep(&mut self.floor, room, moment)?;
        let Some(queue) = self.queues.get_mut(index) else {
            return Ok(acted.done);
        };
        leave(queue, acted.duties)?;
        Ok(acted.done)
    }
}

/// So many queues with nothing to do.
fn empty_queues(alloc: Global, count: usize) -> Result<Vec<VecDeque<Duty>>, Memory>
    ensures { IfOk result (λ queues. map (λ queue. queue.items) queues.items ≡ replicate count []) }
{
    let mut queues = Vec::with_capacity(alloc, count)?;
    for _ in 0..count {
        queues.push(VecDeque::new(alloc))?;
    }
    Ok(queues)
}
