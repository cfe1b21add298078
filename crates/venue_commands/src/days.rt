//! A day of the venue on threads.
ghost use Rattle.std.specs.Prelude.{◌≡◌, ◌≢◌, IfOk, IfErr};
ghost use Rattle.day_weaving.specs.Weaving.{FaultIsTrue};
ghost use Rattle.day_weaving.specs.declared.weaving.WeaveFault.{WeaveFault};
ghost use Rattle.venue_text.specs.RecordText.{woven_line};
ghost use Rattle.venue_commands.specs.ThreadedDays as spec;

use day_checks::DayFault;
use day_weaving::{WeaveFault, weave};
use input_lines::{ProgramFault, UnkeptDay, UnwovenDay};
use recorded_days::DayRecord;
use session_worker::{Gate, Point, run_day};
use std::alloc::Global;
use std::marker::Sync;
use std::sync::Wait;
use std::thread::Threads;
use venue_rows::VenueConfig;
use venue_text::{read_arriving_day, record_text, woven_line};

/// A watcher that holds nobody.
struct Unwatched;

impl Gate for Unwatched {
    fn at(&self, _point: Point) {}
}

/// The messages of all firms of a venue on a day on threads, by the bytes of an input, and where
/// that is asked for, behind them into how many steps the day is woven. Or the first fault of the
/// input, or what does not agree after the day, or why it is not woven. Memory may be refused at
/// any point.
pub(crate) fn day_text<H: Threads + Wait + Sync>(
    rt: &H,
    alloc: Global,
    with_frames: bool,
    woven: bool,
    input: &[u8],
) -> Result<Vec<u8>, ProgramFault>
    ensures ok { IfOk result (λ text. spec.IsDay with_frames woven input.now text.items) }
    ensures err { IfErr result (λ fault. fault ≢ ProgramFault.Memory
        → spec.IsDayFault woven input.now fault) }
    ensures unwritten { IfErr result (λ fault. fault ≢ ProgramFault.Write) }
{
    let day = read_arriving_day(alloc, input)?;
    let venue = day.config.copy(alloc)?;
    let record = match run_day(rt, alloc, day.config, day.inboxes, day.sweeps, &Unwatched) {
        Ok(record) => record,
        Err(fault) => return Err(unkept(fault)),
    };
    let mut text = record_text(alloc, with_frames, &venue, &record)?;
    if !woven {
        return Ok(text);
    }
    let steps = count_woven(alloc, &venue, &record)?;
    text.extend_from_slice(woven_line(steps).as_bytes())?;
    Ok(text)
}

/// Into how many steps a day is woven, or why it is not.
fn count_woven(alloc: Global, venue: &VenueConfig, day: &DayRecord) -> Result<usize, ProgramFault>
    ensures ok { IfOk result (λ count.
        spec.IsWovenLine venue.now day.now (woven_line count)) }
    ensures err { IfErr result (λ fault. (why : WeaveFault)
        × (fault ≡ spec.unwoven why) × FaultIsTrue venue.now day.now why) }
{
    match weave(alloc, venue, day) {
        Ok(steps) => Ok(steps.len()),
        Err(fault) => Err(unwoven(&fault)),
    }
}

/// A fault of weaving, as a fault of the program.
fn unwoven(fault: &WeaveFault) -> ProgramFault
    ensures { result ≡ spec.unwoven fault.now }
{
    match fault {
        WeaveFault::Malformed => ProgramFault::Weave(UnwovenDay::Malformed),
        WeaveFault::Cycle(_) => ProgramFault::Weave(UnwovenDay::Cycle),
        WeaveFault::Differs(_) => ProgramFault::Weave(UnwovenDay::Differs),
        WeaveFault::Memory => ProgramFault::Memory,
    }
}

/// A fault of a day, as a fault of the program.
fn unkept(fault: DayFault) -> ProgramFault
    ensures { result ≡ spec.unkept fault }
{
    match fault {
        DayFault::Memory => ProgramFault::Memory,
        DayFault::Inbox(_) => ProgramFault::Day(UnkeptDay::Inbox),
        DayFault::Told(_) => ProgramFault::Day(UnkeptDay::Told),
        DayFault::Sweep(_) => ProgramFault::Day(UnkeptDay::Sweep),
        DayFault::Shown(_) => ProgramFault::Day(UnkeptDay::Shown),
        DayFault::Relayed(_) => ProgramFault::Day(UnkeptDay::Relayed),
        DayFault::Answered(_) => ProgramFault::Day(UnkeptDay::Answered),
        DayFault::Acted(_) => ProgramFault::Day(UnkeptDay::Inbox),
    }
}
