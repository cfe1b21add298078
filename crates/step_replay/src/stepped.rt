//! A venue whose day goes on step by step, each turn a step of its own.
ghost use Rattle.std.specs.Prelude.{◌≡◌, ◌++◌, ◌∷◌, [], List, None, Err, IfOk, IfErr};
ghost use Rattle.std.specs.Prelude.{IfSome, OnOk};
ghost use Rattle.std.specs.Option.{option_copied, option_map};
ghost use Rattle.step_replay.specs.AuditTrail.{audit_trail};
ghost use Rattle.step_replay.specs.FirmDays.{firm_days};
ghost use Rattle.step_replay.specs.InvestorEvents.{happened_to};
ghost use Rattle.step_replay.specs.StepFaults as faults;
ghost use Rattle.step_replay.specs.SteppedStanding.{IsAfter};
ghost use Rattle.step_replay.specs.declared.steps.Step.{Step};
ghost use Rattle.venue_rows.specs.Rows.{Configuration, investor_numbered};
ghost use Rattle.venue_rows.specs.declared.investor_rows.InvestorRow.{InvestorRow};

use crate::faults::{ReplayFault, fault_of};
use crate::live_notes::events_on;
use crate::replay::Replay;
use crate::steps::Step;
use crate::world::World;
use fix_fields::Memory;
use investor_desk::InvestorEvent;
use std::alloc::Global;
use venue_rows::VenueConfig;

/// A venue that does one step after the other, each turn of an actor a step of its own. Once memory
/// was refused nothing is known of it any more.
#[derive(Drop)]
pub struct SteppedVenue {
    pub(crate) replay: Replay,
}

impl SteppedVenue {
    /// A venue before its first step.
    pub fn open(alloc: Global, config: &VenueConfig) -> Result<Self, Memory>
        ensures { IfOk result (IsAfter config.now []) }
    {
        let replay = Replay::new(alloc, config)?;
        Ok(SteppedVenue { replay })
    }

    /// A step is done. One that names what the venue does not have is the fault, and changes
    /// nothing.
    pub fn step(&mut self, config: &VenueConfig, step: &Step) -> Result<(), ReplayFault>
        ensures known { IfSome (faults.fault_of config.now 1 step.now)
            (λ fault. (result ≡ Err fault) × (self.new ≡ self.old)) }
        ensures named { OnOk result (faults.fault_of config.now 0 step.now ≡ None) }
        ensures ok { OnOk result ((steps : List Step) → IsAfter config.now steps self.old
            → IsAfter config.now (steps ++ step.now ∷ []) self.new) }
        ensures err { IfErr result (λ fault. faults.IsFirstOrMemory fault
            (faults.fault_of config.now 1 step.now)) }
    {
        if let Some(fault) = fault_of(config, 1, step) {
            return Err(fault);
        }
        self.replay.follow(step)?;
        Ok(())
    }

    /// The events at the desk of the investor with this number so far, the first one first, or none
    /// where no investor has it.
    pub fn investor_events(&self, firm: u16) -> Option<&[InvestorEvent]>
        ensures { (config : Configuration) (steps : List Step) → IsAfter config steps self.now
            → option_copied result ≡ option_map (λ (row : InvestorRow).
            happened_to firm (audit_trail config steps)) (investor_numbered config firm) }
    {
        events_on(&self.replay.floor, firm)
    }

    /// What each firm has of the day, which ends with it.
    pub fn into_world(self) -> World
        ensures { (config : Configuration) (steps : List Step) → IsAfter config steps self
            → result ≡ firm_days config (audit_trail config steps).facts }
    {
        let Replay { floor, .. } = self.replay;
        World { floor }
    }
}
