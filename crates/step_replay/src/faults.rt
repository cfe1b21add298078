//! Why a day can't be replayed.
ghost use Rattle.std.specs.Prelude.{◌≡◌};
ghost use Rattle.step_replay.specs.declared.faults.ReplayFault.TheVariants.{Memory};
ghost use Rattle.step_replay.specs.StepFaults as spec;

use crate::steps::Step;
use fix_fields::Memory;
use std::alloc::AllocFailed;
use thiserror::Error;
use venue_rows::VenueConfig;
use venue_steps::Actor;

/// Why a day can't be replayed: the first of its steps that names what the venue does not have, or
/// a refusal of memory. All steps are looked at before the first is done.
#[derive(Clone, Copy, Debug, PartialEq, Eq, Error)]
pub enum ReplayFault {
    /// The step at this place of the list, from 1, names a number that no firm has. At place 0 it
    /// is the dealer whose due list is asked.
    #[error("step {0} names a firm that the venue does not have (0: the dealer asked about)")]
    UnknownFirm(usize),
    /// The step at this place of the list, from 1, sweeps a room that no investor has.
    #[error("step {0} sweeps a room that no investor has")]
    UnknownRoom(usize),
    /// Memory was refused.
    #[error("out of memory")]
    Memory,
}

impl From<Memory> for ReplayFault {
    ghost from_gives = { λ _ fault. fault ≡ Memory };

    fn from(_error: Memory) -> ReplayFault {
        ReplayFault::Memory
    }
}

impl<T: Drop> From<AllocFailed<T>> for ReplayFault {
    ghost from_gives = { λ _ fault. fault ≡ Memory };

    fn from(_error: AllocFailed<T>) -> ReplayFault {
        ReplayFault::Memory
    }
}

/// The first fault of a day, where a step has one.
pub(crate) fn first_fault(config: &VenueConfig, steps: &[Step]) -> Option<ReplayFault>
    ensures { result ≡ spec.first_fault config.now steps.now }
{
    for (index, step) in steps.iter().enumerate() {
        let fault = fault_of(config, index + 1, step);
        if fault.is_some() {
            return fault;
        }
    }
    None
}

/// The fault of the k-th step, where it has one.
pub(crate) fn fault_of(config: &VenueConfig, k: usize, step: &Step) -> Option<ReplayFault>
    ensures { result ≡ spec.fault_of config.now k step.now }
{
    match step {
        Step::In(firm, _, _) => fault_of_firm(config, k, *firm),
        Step::Turn(Actor::Firm(firm)) => fault_of_firm(config, k, *firm),
        Step::Turn(Actor::Clock) => None,
        Step::Expire(room, _) => {
            if config.has_room(room.investor, room.n) {
                return None;
            }
            Some(ReplayFault::UnknownRoom(k))
        }
    }
}

/// The fault of the k-th step where it names a firm with this number.
fn fault_of_firm(config: &VenueConfig, k: usize, firm: u16) -> Option<ReplayFault>
    ensures { result ≡ spec.fault_of_firm config.now k firm }
{
    if usize::from(firm) < config.dealers().len() + config.investors().len() {
        return None;
    }
    Some(ReplayFault::UnknownFirm(k))
}
