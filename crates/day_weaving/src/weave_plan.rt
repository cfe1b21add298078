//! An action of an order of a recorded day.
ghost use Rattle.std.specs.Prelude.{◌≡◌};
ghost use Rattle.step_replay.specs.StepFaults as spec;

use crate::sites::Site;
use step_replay::Actor;
use venue_rows::VenueConfig;

/// An action, and where it came to.
#[derive(Clone, Copy)]
pub(crate) struct Slot {
    /// Its actor, and its number among the actions of that actor, from 1.
    pub(crate) action: (Actor, u64),
    /// The desk or the room.
    pub(crate) site: Site,
    /// Where it stands in the order there, from 0.
    pub(crate) spot: usize,
}

/// How many firms a venue has.
pub(crate) fn firms_of(config: &VenueConfig) -> u16
    ensures { result ≡ spec.firms_of config.now }
{
    let investors = u16::try_from(config.investors().len()).unwrap_or(u16::MAX);
    config.dealer_count().saturating_add(investors)
}
