//! What was due to an investor on a day, and what each firm has of the day.
ghost use Rattle.std.specs.Prelude.{List, IfOk};
ghost use Rattle.investor_dues.specs.DueDays.{IsDayOf};
ghost use Rattle.step_replay.specs.LiveDays.{live_steps};
ghost use Rattle.step_replay.specs.LiveStanding.{IsAt};
ghost use Rattle.step_replay.specs.SteppedStanding.{IsAfter};
ghost use Rattle.step_replay.specs.declared.steps.Step.{Step};

use crate::InvestorDue;
use crate::events::dues_by_events;
use fix_fields::Memory;
use std::alloc::Global;
use step_replay::{LiveVenue, Step, SteppedVenue, World};
use venue_rows::VenueConfig;

/// What was due to one investor on a day that has ended, and what each firm has of the day. A
/// contract says of which day by `IsDayOf`.
#[derive(Drop)]
pub struct DueDay {
    /// What was due to the investor.
    pub dues: Vec<InvestorDue>,
    /// What each firm has of the day.
    pub world: World,
}

impl DueDay {
    /// The day of these steps, for the investor with this number. A step that names what the venue
    /// does not have is refused, as memory is.
    pub fn of_steps(
        alloc: Global,
        config: &VenueConfig,
        steps: &[Step],
        investor: u16,
    ) -> Result<Self, Memory>
        ensures { IfOk result (IsDayOf config.now investor steps.now) }
    {
        let venue = after(alloc, config, steps)?;
        let Some(events) = venue.investor_events(investor) else {
            return Err(Memory);
        };
        let dues = dues_by_events(alloc, config, investor, events)?;
        let world = venue.into_world();
        Ok(DueDay { dues, world })
    }

    /// The same of a day whose steps came one by one, and which ends here.
    pub fn of_live(
        alloc: Global,
        config: &VenueConfig,
        venue: LiveVenue,
        investor: u16,
    ) -> Result<Self, Memory>
        ensures { IfOk result (λ day. (steps : List Step) → IsAt config.now steps venue
            → IsDayOf config.now investor (live_steps steps) day) }
    {
        let Some(happened) = venue.investor_events(investor) else {
            return Err(Memory);
        };
        let dues = dues_by_events(alloc, config, investor, happened)?;
        Ok(DueDay {
            dues,
            world: venue.into_world(),
        })
    }
}

/// The venue after these steps.
fn after(alloc: Global, config: &VenueConfig, steps: &[Step]) -> Result<SteppedVenue, Memory>
    ensures { IfOk result (IsAfter config.now steps.now) }
{
    let mut venue = SteppedVenue::open(alloc, config)?;
    for step in steps {
        let Ok(_) = venue.step(config, step) else {
            return Err(Memory);
        };
    }
    Ok(venue)
}
