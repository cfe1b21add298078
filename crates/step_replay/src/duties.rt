//! What a duty, a sweep and a message do in a replay.
ghost use Rattle.std.specs.Prelude.{◌≡◌, [], Some, IfOk};
ghost use Rattle.venue_steps.specs.Placed as table;
ghost use Rattle.step_replay.specs.Standing.{Acts, ActsOnce};
ghost use Rattle.step_replay.specs.DutyEffects as action;
ghost use Rattle.step_replay.specs.Coming as coming;
ghost use Rattle.step_replay.specs.DonePlaces as spec;
ghost use Rattle.step_replay.specs.declared.done.Done.TheVariants as place;
ghost use Rattle.step_replay.specs.DonePlaces.{IsDone};

use crate::deadlines::deadline_at;
use crate::done::{Acted, Done};
use crate::floor::Floor;
use fix_fields::{Memory, Moment};
use market_terms::{Duty, RoomRef};
use venue_steps::{Actor, Placement, placed, swept};

/// An actor does a duty, at its one place.
pub(crate) fn act(floor: &mut Floor, by: Actor, duty: Duty) -> Result<Acted, Memory>
    ensures acts { IfOk result (λ acted. ActsOnce
        (λ config facts. action.duty_effect config facts by duty)
        floor.old floor.new acted.duties.items) }
    ensures done { IfOk result (λ acted. IsDone floor.old floor.new
        (table.placed floor.old.config by duty) acted.done) }
{
    let Some(arrival) = placed(&floor.config, by, duty) else {
        return Ok(floor.idle());
    };
    let acted = bring(floor, arrival)?;
    Ok(acted)
}

/// The clock sweeps a room, which ends where it is open and its deadline has come.
pub(crate) fn sweep(floor: &mut Floor, room: RoomRef, moment: Moment) -> Result<Acted, Memory>
    ensures acts { IfOk result (λ acted. ActsOnce
        (λ config facts. action.sweep_effect config facts room moment)
        floor.old floor.new acted.duties.items) }
    ensures done { IfOk result (λ acted. IsDone floor.old floor.new
        (table.swept floor.old.config room moment) acted.done) }
{
    let Some(arrival) = swept(&floor.config, room, moment) else {
        return Ok(floor.idle());
    };
    let acted = bring(floor, arrival)?;
    Ok(acted)
}

/// What comes to a place is brought to it.
// Inlined, so that what comes is not moved once more.
#[tactic(auto, unfolding(crate::specs::Coming::arrival_effect))]
#[inline(always)]
fn bring(floor: &mut Floor, arrival: Placement) -> Result<Acted, Memory>
    ensures acts { IfOk result (λ acted. ActsOnce
        (λ config facts. coming.arrival_effect config facts arrival)
        floor.old floor.new acted.duties.items) }
    ensures done { IfOk result (λ acted. IsDone floor.old floor.new (Some arrival) acted.done) }
{
    match arrival {
        Placement::Dealer(firm, what) => {
            let done = floor.at_desk(firm);
            let duties = floor.to_dealer(firm, what)?;
            Ok(Acted { duties, done })
        }
        Placement::Drop(firm, last, moment) => {
            let done = floor.at_desk(firm);
            let duties = floor.drop_next(firm, last, moment)?;
            Ok(Acted { duties, done })
        }
        Placement::Investor(firm, what) => {
            let done = floor.at_desk(firm);
            let duties = floor.to_investor(firm, what)?;
            Ok(Acted { duties, done })
        }
        Placement::Room(room, what) => {
            let before = deadline_at(floor, room);
            let duties = floor.to_room(room, what)?;
            let done = Done::InRoom(room, before, deadline_at(floor, room));
            Ok(Acted { duties, done })
        }
        Placement::Hit(room, response, word, moment) => {
            let before = deadline_at(floor, room);
            let duties = floor.hit(room, response, word, moment)?;
            let done = Done::InRoom(room, before, deadline_at(floor, room));
            Ok(Acted { duties, done })
        }
    }
}

/// A message of a firm comes to its own desk, that of a dealer or of an investor.
pub(crate) fn receive(
    floor: &mut Floor,
    firm: u16,
    moment: Moment,
    bytes: &[u8],
) -> Result<Acted, Memory>
    ensures acts { IfOk result (λ acted. Acts
        (λ config facts. action.message_effect config facts firm moment bytes.now)
        floor.old floor.new acted.duties.items) }
    ensures done { IfOk result (λ acted. acted.done ≡ spec.at_desk floor.old firm) }
{
    let done = floor.at_desk(firm);
    if usize::from(firm) < floor.dealers.len() {
        let duties = floor.dealer_receives(firm, moment, bytes)?;
        return Ok(Acted { duties, done });
    }
    let duties = floor.investor_receives(firm, moment, bytes)?;
    Ok(Acted { duties, done })
}

impl Floor {
    /// Where nothing comes, nothing is done.
    fn idle(&self) -> Acted
        ensures duties { result.duties.items ≡ [] }
        ensures done { result.done ≡ place.Nowhere }
    {
        Acted {
            duties: self.nothing(),
            done: Done::Nowhere,
        }
    }
}
