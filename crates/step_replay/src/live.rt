//! A venue that answers as steps come.
ghost use Rattle.std.specs.Prelude.{◌≡◌, ◌++◌, List, [], None, Err, map, drop};
ghost use Rattle.std.specs.Prelude.{slice_get, IfOk, IfErr, IfSome, IsSome, OnOk};
ghost use Rattle.std.specs.Option.{option_copied, option_map};
ghost use Rattle.step_replay.specs.AuditTrail as venue;
ghost use Rattle.step_replay.specs.Deadlines.{next_deadline};
ghost use Rattle.step_replay.specs.FirmDays.{FirmDay, firm_days};
ghost use Rattle.step_replay.specs.FloorDays.{days_of_floor};
ghost use Rattle.step_replay.specs.LiveDays as live;
ghost use Rattle.step_replay.specs.LiveStanding as spec;
ghost use Rattle.step_replay.specs.LiveStanding.{Answers, AnswersSweeps, IsAt, SendsAll};
ghost use Rattle.step_replay.specs.LiveStanding.{SendsDuties, SendsStep};
ghost use Rattle.step_replay.specs.StepFaults as faults;
ghost use Rattle.step_replay.specs.declared.steps.Step.{Step};
ghost use Rattle.venue_rows.specs.Rows.{Configuration, dealer_numbered};

use crate::done::Done;
use crate::due_lists::dues_at;
use crate::dues::Due;
use crate::faults::{ReplayFault, fault_of};
use crate::floor::Floor;
use crate::open_rooms::OpenRooms;
use crate::replay::Replay;
use crate::sent_to::SentTo;
use crate::steps::{MOST_TURNS_BEHIND, Step};
use crate::world::World;
use fix_fields::{Memory, Moment};
use market_terms::Duty;
use quote_messages::SentMessage;
use std::alloc::Global;
use venue_rows::VenueConfig;
use venue_steps::Actor;

/// A venue that answers each step before the next one comes: behind the step its actor does all
/// duties that it has, one by one. Once memory was refused nothing is known of it any more.
#[derive(Drop)]
pub struct LiveVenue {
    pub(crate) replay: Replay,
    /// The rooms that are opening or open, by their deadlines.
    pub(crate) open_rooms: OpenRooms,
}

impl LiveVenue {
    /// A venue before its first step.
    pub fn open(alloc: Global, config: &VenueConfig) -> Result<Self, Memory>
        ensures { IfOk result (IsAt config.now []) }
    {
        let replay = Replay::new(alloc, config)?;
        let open_rooms = OpenRooms::none(alloc);
        Ok(LiveVenue { replay, open_rooms })
    }

    /// Does a step and then the duties of its actor, the oldest first, until it has none, and gives
    /// the messages that were sent with that, in their order. A step that names what the venue does
    /// not have is the fault, and changes nothing.
    pub fn step(
        &mut self,
        alloc: Global,
        config: &VenueConfig,
        step: &Step,
    ) -> Result<Vec<SentTo>, ReplayFault>
        ensures known { IfSome (faults.fault_of config.now 1 step.now)
            (λ fault. (result ≡ Err fault) × (self.new ≡ self.old)) }
        ensures ok { IfOk result (λ told. (steps : List Step) → IsAt config.now steps self.old
            → Answers config.now steps step.now self.new told.items) }
        ensures err { IfErr result (λ fault. faults.IsFirstOrMemory fault
            (faults.fault_of config.now 1 step.now)) }
    {
        if let Some(fault) = fault_of(config, 1, step) {
            return Err(fault);
        }
        let mut told = Vec::new(alloc);
        send_all(self, step, &mut told)?;
        Ok(told)
    }

    /// Makes a sweep of every room of the venue at this moment, in the order of the investors and
    /// of their requests, as one step behind the other, each answered before the next. It looks at
    /// no room but those that end: what it costs is theirs, and the logarithm of the rooms that are
    /// opening or open.
    pub fn sweep(&mut self, alloc: Global, moment: Moment) -> Result<Vec<SentTo>, Memory>
        ensures { IfOk result (λ told. (config : Configuration) (steps : List Step)
            → IsAt config steps self.old
            → AnswersSweeps config steps moment self.new told.items) }
    {
        let due = self.open_rooms.due(alloc, moment)?;
        let mut told = Vec::new(alloc);
        for room in &due {
            let step = Step::Expire(*room, moment);
            send_all(self, &step, &mut told)?;
        }
        Ok(told)
    }

    /// What each firm has of the day, which ends with it.
    pub fn into_world(self) -> World
        ensures { (config : Configuration) (steps : List Step) → IsAt config steps self
            → result ≡ firm_days config (live.live_trail config steps).facts }
    {
        let Replay { floor, .. } = self.replay;
        World { floor }
    }

    /// What was due so far to the dealer with this number, and nothing where no dealer has it.
    pub fn due(&self, alloc: Global, dealer: u16) -> Result<Vec<Due>, Memory>
        ensures dues { IfOk result (λ dues. (config : Configuration) (steps : List Step)
            → IsAt config steps self.now → IsSome (dealer_numbered config dealer)
            → dues.items ≡ venue.due_to dealer (live.live_trail config steps)) }
        ensures no_dealer { IfOk result (λ dues. (config : Configuration) (steps : List Step)
            → IsAt config steps self.now → dealer_numbered config dealer ≡ None
            → dues.items ≡ []) }
    {
        let Some(place) = self.replay.floor.dealers.get(usize::from(dealer)) else {
            return Ok(Vec::new(alloc));
        };
        let dues = dues_at(alloc, place)?;
        Ok(dues)
    }

    /// The earliest deadline (126) of a request whose room is opening or open, or none where no room
    /// is. From that moment on a sweep of its room ends it.
    pub fn next_deadline(&self) -> Option<Moment>
        ensures { (config : Configuration) (steps : List Step) → IsAt config steps self.now
            → result ≡ next_deadline config (live.live_trail config steps).facts }
    {
        self.open_rooms.earliest()
    }
}

/// A step and the duties behind it are done, and what is sent with them is put behind `told`.
fn send_all(venue: &mut LiveVenue, step: &Step, told: &mut Vec<SentTo>) -> Result<(), Memory>
    ensures { OnOk result
        (SendsAll step.now venue.old venue.new told.old.items told.new.items) }
{
    do_step(venue, step, told)?;
    send_duties(venue, actor_of(step), told)?;
    Ok(())
}

/// The actor whose duties are done behind a step.
fn actor_of(step: &Step) -> Actor
    ensures { result ≡ live.actor_of step.now }
{
    match step {
        Step::In(firm, _, _) => Actor::Firm(*firm),
        Step::Turn(by) => *by,
        Step::Expire(_, _) => Actor::Clock,
    }
}

/// An actor does its duties, one by one until none is left, and what is sent is put behind `told`.
/// It can't have as many as are refused here.
fn send_duties(venue: &mut LiveVenue, by: Actor, told: &mut Vec<SentTo>) -> Result<(), Memory>
    ensures { OnOk result (SendsDuties by venue.old venue.new told.old.items told.new.items) }
{
    for _ in 0..MOST_TURNS_BEHIND {
        let Some(_) = next_duty(&venue.replay, by) else {
            return Ok(());
        };
        let turn = Step::Turn(by);
        do_step(venue, &turn, told)?;
    }
    Err(Memory)
}

/// A step is done, what is sent with it is put behind `told`, and where the deadline of its room is
/// another now, that is noted.
fn do_step(venue: &mut LiveVenue, step: &Step, told: &mut Vec<SentTo>) -> Result<(), Memory>
    ensures { OnOk result
        (SendsStep step.now venue.old venue.new told.old.items told.new.items) }
{
    let done = venue.replay.step(step)?;
    match done {
        Done::Nowhere => Ok(()),
        Done::AtDesk(firm, count) => {
            push_behind(told, &venue.replay.floor, firm, count)?;
            Ok(())
        }
        Done::InRoom(room, before, now) => {
            venue.open_rooms.note(room, before, now)?;
            Ok(())
        }
    }
}

/// The duty that an actor's next turn does.
fn next_duty(replay: &Replay, by: Actor) -> Option<&Duty>
    ensures { option_copied result ≡ spec.next_duty replay.now by }
{
    let index = replay.index_of(by)?;
    let queue = replay.queues.get(index)?;
    queue.front()
}

/// The messages that the firm with this number was sent, or none where no firm has it.
pub(crate) fn sent_on(floor: &Floor, firm: u16) -> Option<&[SentMessage]>
    ensures { option_copied result ≡ option_map (λ (day : FirmDay). day.sent)
        (slice_get (days_of_floor floor.now) firm) }
{
    let Some(index) = usize::from(firm).checked_sub(floor.dealers.len()) else {
        let place = floor.dealers.get(usize::from(firm))?;
        return Some(place.desk.sent());
    };
    let place = floor.investors.get(index)?;
    Some(place.desk.sent())
}

/// Tells the messages of a firm behind so many, where the venue has it.
fn push_behind(told: &mut Vec<SentTo>, floor: &Floor, firm: u16, count: usize) -> Result<(), Memory>
    ensures { OnOk result (told.new.items
        ≡ told.old.items ++ spec.sent_behind floor.now firm count) }
{
    let Some(messages) = sent_on(floor, firm) else {
        return Ok(());
    };
    push_from(told, firm, messages, count)
}

/// Tells these messages of a firm behind so many.
fn push_from(
    told: &mut Vec<SentTo>,
    firm: u16,
    messages: &[SentMessage],
    count: usize,
) -> Result<(), Memory>
    ensures { OnOk result (told.new.items
        ≡ told.old.items ++ map (λ message. (firm, message)) (drop count messages.now)) }
{
    if count > messages.len() {
        return Ok(());
    }
    push_all(told, firm, &messages[count..])?;
    Ok(())
}

/// Tells these messages of a firm.
fn push_all(told: &mut Vec<SentTo>, firm: u16, messages: &[SentMessage]) -> Result<(), Memory>
    ensures { OnOk result (told.new.items
        ≡ told.old.items ++ map (λ message. (firm, message)) messages.now) }
{
    let alloc = *told.allocator();
    for message in messages {
        told.push(SentTo::new(alloc, firm, message)?)?;
    }
    Ok(())
}
