//! The sessions of firms and the clock.
ghost use Rattle.std.specs.Prelude.{◌≡◌, [], ◌∷◌, ◌++◌, map, IfOk, OnOk};
ghost use Rattle.recorded_days.specs.Kinds as kinds;
ghost use Rattle.recorded_days.specs.Kinds.{is_expire, is_in, kind_of};
ghost use Rattle.session_worker.specs.Shifts as spec;
ghost use Rattle.session_worker.specs.Watched.{word_in};

use crate::done::Done;
use crate::gates::{Gate, Point};
use crate::naming::Naming;
use crate::venue::SharedVenue;
use crate::watched::Acting;
use fix_fields::{Memory, Moment};
use market_terms::Duty;
use recorded_days::{Action, Inbound, Kind, Sweep, moment_of};
use std::collections::VecDeque;
use std::sync::Wait;
use step_replay::Actor;
use venue_steps::Duties;

/// An actor at work: what it shares with the others, its queue of duties and what it did.
#[derive(Drop)]
pub(crate) struct Shift<'v, J: Naming, R: Wait, G: Gate> {
    pub(crate) rt: &'v R,
    pub(crate) venue: &'v SharedVenue<J>,
    gate: &'v G,
    pub(crate) by: Actor,
    queue: VecDeque<Duty>,
    actions: Vec<Action>,
}

impl<'v, J: Naming, R: Wait, G: Gate> Shift<'v, J, R, G> {
    /// An actor before its first action.
    fn new(rt: &'v R, venue: &'v SharedVenue<J>, gate: &'v G, by: Actor) -> Self
        ensures { result.actions.items ≡ [] }
    {
        Shift {
            rt,
            venue,
            gate,
            by,
            queue: VecDeque::new(venue.alloc),
            actions: Vec::new(venue.alloc),
        }
    }

    /// Who does its next action, and which of its actions it is, from 1.
    pub(crate) fn action(&self) -> (Actor, u64)
        ensures { result.0 ≡ self.now.by }
    {
        (self.by, self.actions.len() as u64 + 1)
    }

    /// What its next action needs besides the place.
    pub(crate) fn acting(&self) -> Acting<'v, G>
        ensures by { result.by ≡ self.now.by }
        ensures board { result.board.now ≡ J.board }
    {
        let action = self.action();
        self.venue.board.acting(action, self.gate)
    }

    /// Notes an action that was done, and leaves its duties at the end of the queue.
    fn note(&mut self, kind: Kind, moment: Moment, done: Done) -> Result<(), Memory>
        ensures actions { OnOk result (self.new.actions.items
            ≡ self.old.actions.items ++ spec.action_of kind moment (word_in done.asked) ∷ []) }
        ensures queue { OnOk result
            (self.new.queue.items ≡ self.old.queue.items ++ done.duties.items) }
    {
        self.gate.at(Point::After(self.by, kind));
        let Done { duties, asked } = done;
        let word = asked.word();
        self.actions.push(Action { kind, moment, word })?;
        leave(&mut self.queue, duties)?;
        Ok(())
    }

    /// A message of the firm comes.
    fn come(&mut self, inbound: &Inbound) -> Result<(), Memory>
        ensures noted { OnOk result (spec.IsNoted Kind.In inbound.now.moment
            self.old.actions.items self.new.actions.items) }
        ensures messages { OnOk result (spec.moments_of is_in self.new.actions.items
            ≡ spec.moments_of is_in self.old.actions.items ++ inbound.now.moment ∷ []) }
        ensures sweeps { OnOk result (spec.moments_of is_expire self.new.actions.items
            ≡ spec.moments_of is_expire self.old.actions.items) }
    {
        self.gate.at(Point::Before(self.by, Kind::In));
        let done = self.receive(inbound.moment, inbound.bytes.as_bytes())?;
        self.note(Kind::In, inbound.moment, done)?;
        Ok(())
    }

    /// The clock sweeps a room.
    fn sweep(&mut self, sweep: Sweep) -> Result<(), Memory>
        ensures noted { OnOk result (spec.IsNoted Kind.Expire sweep.moment
            self.old.actions.items self.new.actions.items) }
        ensures messages { OnOk result (spec.moments_of is_in self.new.actions.items
            ≡ spec.moments_of is_in self.old.actions.items) }
        ensures sweeps { OnOk result (spec.moments_of is_expire self.new.actions.items
            ≡ spec.moments_of is_expire self.old.actions.items ++ sweep.moment ∷ []) }
    {
        self.gate.at(Point::Before(self.by, Kind::Expire));
        let done = self.expire(sweep.room, sweep.moment)?;
        self.note(Kind::Expire, sweep.moment, done)?;
        Ok(())
    }

    /// Does one duty.
    fn turn(&mut self, duty: Duty) -> Result<(), Memory>
        ensures noted { OnOk result (spec.IsNoted (kind_of duty) (kinds.moment_of duty)
            self.old.actions.items self.new.actions.items) }
        ensures messages { OnOk result (spec.moments_of is_in self.new.actions.items
            ≡ spec.moments_of is_in self.old.actions.items) }
        ensures sweeps { OnOk result (spec.moments_of is_expire self.new.actions.items
            ≡ spec.moments_of is_expire self.old.actions.items) }
    {
        let kind = Kind::of(&duty);
        let moment = moment_of(&duty);
        self.gate.at(Point::Before(self.by, kind));
        let done = self.act(duty)?;
        self.note(kind, moment, done)?;
        Ok(())
    }

    /// Does all pending duties, and those that follow from them.
    fn turns(&mut self) -> Result<(), Memory>
        ensures none_left { OnOk result (self.new.queue.items ≡ []) }
        ensures messages { OnOk result (spec.moments_of is_in self.new.actions.items
            ≡ spec.moments_of is_in self.old.actions.items) }
        ensures sweeps { OnOk result (spec.moments_of is_expire self.new.actions.items
            ≡ spec.moments_of is_expire self.old.actions.items) }
    {
        for _ in self.rt.forever() {
            let Some(duty) = self.queue.pop_front() else {
                return Ok(());
            };
            self.turn(duty)?;
        }
        unreachable!()
    }
}

/// Puts duties at the end of a queue, in their order.
fn leave(queue: &mut VecDeque<Duty>, duties: Duties) -> Result<(), Memory>
    ensures { OnOk result (queue.new.items ≡ queue.old.items ++ duties.items) }
{
    for duty in duties {
        queue.push_back(duty)?;
    }
    Ok(())
}

/// The session of a firm: its messages in their order, and after each all pending duties. It
/// returns what the firm did.
pub(crate) fn session_actions<J: Naming, R: Wait, G: Gate>(
    rt: &R,
    venue: &SharedVenue<J>,
    firm: u16,
    inbox: &[Inbound],
    gate: &G,
) -> Result<Vec<Action>, Memory>
    ensures messages { IfOk result (λ actions. spec.moments_of is_in actions.items
        ≡ map (λ inbound. inbound.moment) inbox.now) }
    ensures sweeps { IfOk result (λ actions. spec.moments_of is_expire actions.items ≡ []) }
{
    let mut shift = Shift::new(rt, venue, gate, Actor::Firm(firm));
    for inbound in inbox {
        shift.come(inbound)?;
        shift.turns()?;
    }
    let Shift { actions, .. } = shift;
    Ok(actions)
}

/// The clock: its sweeps in their order, and after each all pending duties. It returns what the
/// clock did.
pub(crate) fn clock_actions<J: Naming, R: Wait, G: Gate>(
    rt: &R,
    venue: &SharedVenue<J>,
    sweeps: &[Sweep],
    gate: &G,
) -> Result<Vec<Action>, Memory>
    ensures messages { IfOk result (λ actions. spec.moments_of is_in actions.items ≡ []) }
    ensures sweeps { IfOk result (λ actions. spec.moments_of is_expire actions.items
        ≡ map (λ sweep. sweep.moment) sweeps.now) }
{
    let mut shift = Shift::new(rt, venue, gate, Actor::Clock);
    for sweep in sweeps {
        shift.sweep(*sweep)?;
        shift.turns()?;
    }
    let Shift { actions, .. } = shift;
    Ok(actions)
}

/// Runs the session of a firm: takes its messages in their order, and does all pending duties after
/// each. The queue of duties is the session's own. It stops at the action for which memory is
/// refused; the actions before it stand.
pub fn session<J: Naming, R: Wait, G: Gate>(
    rt: &R,
    venue: &SharedVenue<J>,
    firm: u16,
    inbox: Vec<Inbound>,
    gate: &G,
) -> Result<(), Memory> {
    session_actions(rt, venue, firm, inbox.as_slice(), gate)?;
    Ok(())
}

/// Runs the clock: makes the sweeps in their order, and does all pending duties after each. It
/// stops at the action for which memory is refused; the actions before it stand.
pub fn clock<J: Naming, R: Wait, G: Gate>(
    rt: &R,
    venue: &SharedVenue<J>,
    sweeps: Vec<Sweep>,
    gate: &G,
) -> Result<(), Memory> {
    clock_actions(rt, venue, sweeps.as_slice(), gate)?;
    Ok(())
}
