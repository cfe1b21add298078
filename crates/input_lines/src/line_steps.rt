//! What a line of steps spells, before its steps are put behind the others.
ghost use Rattle.std.specs.Prelude.{◌≡◌, ◌↔◌, ◌+◌, ◌<◌, ◌++◌, length, replicate, IsErr, OnErr, OnOk};
ghost use Rattle.step_replay.specs.declared.steps.Step.TheVariants as step;
ghost use Rattle.venue_rows.specs.Rows.{values_of};
ghost use Rattle.step_replay.specs.VenueRooms as rooms;
ghost use Rattle.input_lines.specs.StepLines.{in_steps, sweeps_at, venue_rooms};
ghost use Rattle.input_lines.specs.StepReading as spec;

use crate::firm_streams::Heard;
use fix_fields::{Memory, Messages, Moment};
use quote_messages::{Message, RoomRef};
use step_replay::{Actor, Step};
use venue_rows::{InvestorRow, VenueConfig};

/// What a line of steps spells.
#[derive(Drop)]
pub enum Spelled {
    /// A message of a firm that a `say` line makes, and whether the line is counted.
    Said(u16, Moment, Message, bool),
    /// A message of a firm that came byte by byte.
    Came(u16, Moment, Message),
    /// So many turns of an actor.
    Turns(Actor, u64),
    /// A sweep of a room.
    Sweep(RoomRef, Moment),
    /// A sweep of every room of the venue.
    Sweeps(Moment),
    /// The messages of a firm that end in a piece of its stream.
    Pieces(u16, Moment, Messages),
}

/// Puts the steps of a line behind those before it, and counts the line. Where memory is refused,
/// the line may have been counted, and some of its steps may stand behind the others.
pub fn push_spelled(
    config: &VenueConfig,
    steps: &mut Vec<Step>,
    heard: &mut Heard,
    spelled: Spelled,
) -> Result<(), Memory>
    ensures steps { OnOk result (steps.new.items
        ≡ steps.old.items ++ spec.steps_in (values_of config.now) spelled) }
    ensures heard { OnOk result (heard.new ≡ spec.counted spelled heard.old) }
{
    count_line(heard, &spelled)?;
    push_steps(config, steps, spelled)?;
    Ok(())
}

/// Counts a line whose number was written for it. It takes no memory. Where that number is 10^15,
/// and nowhere else, it is refused, as more memory than any machine has would be, and then nothing
/// was counted.
pub fn count_line(heard: &mut Heard, spelled: &Spelled) -> Result<(), Memory>
    ensures counts { OnOk result (heard.new ≡ spec.counted spelled.now heard.old) }
    ensures refused { IsErr result ↔ spec.IsFull spelled.now heard.old }
    ensures uncounted { OnErr result (heard.new ≡ heard.old) }
{
    let Spelled::Said(firm, _, _, true) = spelled else {
        return Ok(());
    };
    heard.count(*firm)?;
    Ok(())
}

/// Puts the steps of a line behind other steps; where memory is refused, perhaps some of them.
pub fn push_steps(
    config: &VenueConfig,
    steps: &mut Vec<Step>,
    spelled: Spelled,
) -> Result<(), Memory>
    ensures { OnOk result (steps.new.items
        ≡ steps.old.items ++ spec.steps_in (values_of config.now) spelled) }
{
    match spelled {
        Spelled::Said(firm, moment, message, _) => {
            steps.push(Step::In(firm, moment, message))?;
            Ok(())
        }
        Spelled::Came(firm, moment, message) => {
            steps.push(Step::In(firm, moment, message))?;
            Ok(())
        }
        Spelled::Turns(by, count) => push_turns(steps, by, count),
        Spelled::Sweep(room, moment) => {
            steps.push(Step::Expire(room, moment))?;
            Ok(())
        }
        Spelled::Sweeps(moment) => push_sweeps(config, steps, moment),
        Spelled::Pieces(firm, moment, messages) => push_messages(steps, firm, moment, messages),
    }
}

/// Puts so many turns of an actor behind other steps.
fn push_turns(steps: &mut Vec<Step>, by: Actor, count: u64) -> Result<(), Memory>
    ensures { OnOk result (steps.new.items
        ≡ steps.old.items ++ replicate count (step.Turn by)) }
{
    for _ in 0..count {
        steps.push(Step::Turn(by))?;
    }
    Ok(())
}

/// Puts a sweep of every room behind other steps.
fn push_sweeps(config: &VenueConfig, steps: &mut Vec<Step>, moment: Moment) -> Result<(), Memory>
    ensures { OnOk result (steps.new.items
        ≡ steps.old.items ++ sweeps_at moment (venue_rooms (values_of config.now))) }
{
    let first = config.dealers().len() as u16;
    push_sweeps_from(steps, first, config.investors(), moment)?;
    Ok(())
}

/// Puts a sweep of each room of these investors, of which the first has this number among the
/// firms, behind other steps.
fn push_sweeps_from(
    steps: &mut Vec<Step>,
    first: u16,
    investors: &[InvestorRow],
    moment: Moment,
) -> Result<(), Memory>
    requires { first + length investors.now < 65536 }
    ensures { OnOk result (steps.new.items
        ≡ steps.old.items ++ sweeps_at moment (rooms.rooms_from first (rooms.requests_of investors.now))) }
{
    let mut investor = first;
    for row in investors {
        push_sweeps_of(steps, investor, row.requests, moment)?;
        investor += 1;
    }
    Ok(())
}

/// Puts a sweep of each room of an investor's requests, so many, behind other steps.
fn push_sweeps_of(
    steps: &mut Vec<Step>,
    investor: u16,
    requests: u32,
    moment: Moment,
) -> Result<(), Memory>
    ensures { OnOk result (steps.new.items
        ≡ steps.old.items ++ sweeps_at moment (rooms.rooms_behind investor 0 requests)) }
{
    for before in 0..requests {
        let room = RoomRef {
            investor,
            n: before + 1,
        };
        steps.push(Step::Expire(room, moment))?;
    }
    Ok(())
}

/// Puts messages of a firm that came at this moment behind other steps.
fn push_messages(
    steps: &mut Vec<Step>,
    firm: u16,
    moment: Moment,
    messages: Messages,
) -> Result<(), Memory>
    ensures { OnOk result (steps.new.items ≡ steps.old.items ++ in_steps firm moment messages) }
{
    for bytes in messages.into_vec() {
        steps.push(Step::In(firm, moment, Message::new(bytes)))?;
    }
    Ok(())
}
