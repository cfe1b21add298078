//! A day of the venue, replayed, and what each firm has of it.
ghost use Rattle.std.specs.Prelude.{◌≡◌, ◌++◌, map, slice_get, Ok, Err, None, IfOk, IfErr};
ghost use Rattle.std.specs.Prelude.{IfSome, OnOk};
ghost use Rattle.std.specs.Option.{option_copied, option_map};
ghost use Rattle.step_replay.specs.AuditTrail as venue;
ghost use Rattle.market_terms.specs.DayLines.{lines_in};
ghost use Rattle.step_replay.specs.FirmDays.{FirmDay, firm_days};
ghost use Rattle.step_replay.specs.FloorDays.{dealer_day_at, investor_day_at};
ghost use Rattle.step_replay.specs.Standing.{Stands};
ghost use Rattle.step_replay.specs.StepFaults as spec;

use crate::due_lists::dues_at;
use crate::dues::Due;
use crate::faults::{ReplayFault, first_fault};
use crate::floor::{DealerPlace, Floor, InvestorPlace};
use crate::live::sent_on;
use crate::replay::Replay;
use crate::steps::Step;
use fix_fields::Memory;
use market_terms::FirmLines;
use quote_messages::SentMessage;
use std::alloc::Global;
use std::marker::Model;
use venue_rows::VenueConfig;

/// A venue after a day. A contract sees what it has of the day of each firm, in the order of their
/// numbers: the dealers from 0 on, behind them the investors.
#[derive(Drop)]
pub struct World {
    pub(crate) floor: Floor,
}

impl Model for World {
    ghost use Rattle.std.specs.Prelude.{List};
    ghost use Rattle.step_replay.specs.FirmDays.{FirmDay};
    ghost use Rattle.step_replay.specs.FloorDays.{days_of_floor};

    ghost Value = { List FirmDay };

    ghost view = { λ world. days_of_floor world.floor };
}

impl World {
    /// The messages that the firm with this number was sent, the first one first, or none where no
    /// firm has this number.
    pub fn sent(&self, firm: u16) -> Option<&[SentMessage]>
        ensures { option_copied result
            ≡ option_map (λ (day : FirmDay). day.sent) (slice_get self.now firm) }
    {
        sent_on(&self.floor, firm)
    }

    /// The lines of the blotter of the firm with this number, or none where no firm has it.
    pub fn lines(&self, firm: u16) -> Option<FirmLines<'_>>
        ensures { option_map lines_in result
            ≡ option_map (λ (day : FirmDay). day.lines) (slice_get self.now firm) }
    {
        let Some(index) = usize::from(firm).checked_sub(self.floor.dealers.len()) else {
            let place = self.floor.dealers.get(usize::from(firm))?;
            return Some(FirmLines::Dealer(place.desk.lines()));
        };
        let place = self.floor.investors.get(index)?;
        Some(FirmLines::Investor(place.desk.lines()))
    }

    /// The messages that each firm was sent, the first firm first, taken out of the venue. The
    /// memory of all else is given back.
    pub fn into_sent(self, alloc: Global) -> Result<Vec<Vec<SentMessage>>, Memory>
        ensures { IfOk result (λ all. map (λ sent. sent.items) all.items
            ≡ map (λ (day : FirmDay). day.sent) self) }
    {
        let Self { floor } = self;
        let Floor {
            dealers,
            investors,
            ..
        } = floor;
        let mut all = Vec::new(alloc);
        push_sent_to_dealers(&mut all, dealers)?;
        push_sent_to_investors(&mut all, investors)?;
        Ok(all)
    }
}

/// Puts what each of these dealers was sent behind the others.
fn push_sent_to_dealers(
    all: &mut Vec<Vec<SentMessage>>,
    dealers: Vec<DealerPlace>,
) -> Result<(), Memory>
    ensures { OnOk result (map (λ sent. sent.items) all.new.items
        ≡ map (λ sent. sent.items) all.old.items
        ++ map (λ place. (dealer_day_at place).sent) dealers.items) }
{
    for place in dealers {
        let DealerPlace { desk, .. } = place;
        all.push(desk.into_sent())?;
    }
    Ok(())
}

/// The same of investors.
fn push_sent_to_investors(
    all: &mut Vec<Vec<SentMessage>>,
    investors: Vec<InvestorPlace>,
) -> Result<(), Memory>
    ensures { OnOk result (map (λ sent. sent.items) all.new.items
        ≡ map (λ sent. sent.items) all.old.items
        ++ map (λ place. (investor_day_at place).sent) investors.items) }
{
    for place in investors {
        let InvestorPlace { desk, .. } = place;
        let (_, sent, _) = desk.into_parts();
        all.push(sent)?;
    }
    Ok(())
}

/// Replays a day of the venue, step by step. Where a step names a firm or a room that the venue
/// does not have, the first such step is the fault, and no step is done; else only memory can be
/// refused.
pub fn run(alloc: Global, config: &VenueConfig, steps: &[Step]) -> Result<World, ReplayFault>
    ensures known { IfSome (spec.first_fault config.now steps.now) (λ fault. result ≡ Err fault) }
    ensures ok { IfOk result (λ world. world
        ≡ firm_days config.now (venue.audit_trail config.now steps.now).facts) }
    ensures err { IfErr result (λ fault. spec.IsFirstOrMemory fault
        (spec.first_fault config.now steps.now)) }
{
    if let Some(fault) = first_fault(config, steps) {
        return Err(fault);
    }
    let floor = replayed(alloc, config, steps)?;
    Ok(World { floor })
}

/// The same of steps that nobody needs afterwards. The memory of each is given back once it is
/// done, so that a long day takes less.
pub fn run_once(alloc: Global, config: &VenueConfig, steps: Vec<Step>) -> Result<World, ReplayFault>
    ensures known { IfSome (spec.first_fault config.now steps.items)
        (λ fault. result ≡ Err fault) }
    ensures ok { IfOk result (λ world. world
        ≡ firm_days config.now (venue.audit_trail config.now steps.items).facts) }
    ensures err { IfErr result (λ fault. spec.IsFirstOrMemory fault
        (spec.first_fault config.now steps.items)) }
{
    if let Some(fault) = first_fault(config, steps.as_slice()) {
        return Err(fault);
    }
    let floor = replayed_once(alloc, config, steps)?;
    let world = World { floor };
    Ok(world)
}

/// What was due to the dealer with this number on a day of the venue. A number that no dealer has
/// is the fault before all others, at the place 0.
pub fn due(
    alloc: Global,
    config: &VenueConfig,
    steps: &[Step],
    dealer: u16,
) -> Result<Vec<Due>, ReplayFault>
    ensures known { IfSome (spec.due_fault config.now steps.now dealer)
        (λ fault. result ≡ Err fault) }
    ensures ok { IfOk result (λ dues. dues.items
        ≡ venue.due_to dealer (venue.audit_trail config.now steps.now)) }
    ensures err { IfErr result (λ fault. spec.IsFirstOrMemory fault
        (spec.due_fault config.now steps.now dealer)) }
{
    if config.dealer(dealer).is_none() {
        return Err(ReplayFault::UnknownFirm(0));
    }
    if let Some(fault) = first_fault(config, steps) {
        return Err(fault);
    }
    let floor = replayed(alloc, config, steps)?;
    let Some(place) = floor.dealers.get(usize::from(dealer)) else {
        return Err(ReplayFault::UnknownFirm(0));
    };
    let dues = dues_at(alloc, place)?;
    Ok(dues)
}

/// The places of a venue after these steps, each of which names what the venue has.
fn replayed(alloc: Global, config: &VenueConfig, steps: &[Step]) -> Result<Floor, Memory>
    requires { spec.first_fault config.now steps.now ≡ None }
    ensures { IfOk result (λ floor.
        Stands config.now (venue.audit_trail config.now steps.now).facts floor) }
{
    let mut replay = Replay::new(alloc, config)?;
    for step in steps {
        replay.follow(step)?;
    }
    let Replay { floor, .. } = replay;
    Ok(floor)
}

/// The same of a day whose steps go: a half of those that are left at a time is done, and the list
/// of it given back, so that little of the day's steps stands beside what they leave.
fn replayed_once(alloc: Global, config: &VenueConfig, day: Vec<Step>) -> Result<Floor, Memory>
    requires { spec.first_fault config.now day.items ≡ None }
    ensures { IfOk result (λ floor.
        Stands config.now (venue.audit_trail config.now day.items).facts floor) }
{
    let mut replay = Replay::new(alloc, config)?;
    let mut left = day;
    while !left.is_empty() {
        let half = left.len() - left.len() / 2;
        let later = left.split_off(half)?;
        replay.run(left)?;
        left = later;
    }
    let Replay { floor, .. } = replay;
    Ok(floor)
}
