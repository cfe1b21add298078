//! What `due` prints.
ghost use Rattle.std.specs.Prelude.{◌≡◌, ◌≢◌, ◌∷◌, ◌++◌, decimal, None, Err, IfOk, IfErr, OnOk};
ghost use Rattle.std.specs.List.{flat_map};
ghost use Rattle.std.specs.Option.{option_copied};
ghost use Rattle.step_replay.specs.AuditTrail.{audit_trail};
ghost use Rattle.step_replay.specs.StepFaults.{first_fault};
ghost use Rattle.venue_text.specs.AskedDays as asked;
ghost use Rattle.venue_text.specs.DueCommand as spec;
ghost use Rattle.venue_text.specs.DueCuts as cuts;
ghost use Rattle.venue_text.specs.ReplayText.{one_at};

use crate::day_arguments::{due_on, read_open_dealers_day};
use crate::due_writing::push_dues;
use fix_fields::{Date, Memory};
use input_lines::{MOST_INPUT, ProgramFault, day_parts};
use itoa::Buffer;
use std::alloc::Global;
use step_replay::{Due, Step};
use venue_rows::{DealerRow, Traders, VenueConfig};

/// What was due to each dealer, or to DEALER, as due text, by the bytes of an input: a
/// configuration, a line `%%`, and the steps of a day. The texts of all dealers stand one behind
/// the other in their order, and [`alone_text`](crate::alone_text) reads each. Or the first fault
/// of these, as [`replay_text`](crate::replay_text) has them; [`ProgramFault::Firm`] is that DEALER
/// names no dealer. Memory may be refused at any point.
pub fn due_command_text(
    alloc: Global,
    only: Option<&[u8]>,
    input: &[u8],
) -> Result<Vec<u8>, ProgramFault>
    ensures ok { IfOk result (λ text.
        spec.IsDueText (option_copied only.entry) input.now text.items) }
    ensures err { IfErr result (λ fault. fault ≢ ProgramFault.Memory
        → asked.one_day (asked.dealers_by (option_copied only.entry)) input.now ≡ Err fault) }
    ensures unwritten { IfErr result (λ fault. fault ≢ ProgramFault.Write) }
{
    if input.len() > MOST_INPUT {
        return Err(ProgramFault::Input);
    }
    let parts = day_parts(input)?;
    let day = read_open_dealers_day(alloc, parts, only)?;
    let text = texts_of_dues(alloc, &day.venue, day.steps.as_slice(), day.only)?;
    Ok(text)
}

/// The due texts of the dealers that are asked for, on a day each step of which names what the
/// venue has.
fn texts_of_dues(
    alloc: Global,
    venue: &VenueConfig,
    steps: &[Step],
    only: Option<u16>,
) -> Result<Vec<u8>, ProgramFault>
    requires { first_fault venue.now steps.now ≡ None }
    ensures ok { IfOk result (λ text. text.items
        ≡ spec.due_texts only venue.now (audit_trail venue.now steps.now)) }
    ensures err { IfErr result (λ fault. fault ≡ ProgramFault.Memory) }
{
    let mut text = Vec::new(alloc);
    let Some(dealer) = only else {
        push_dealers(&mut text, venue, steps)?;
        return Ok(text);
    };
    push_dealer(&mut text, venue, steps, dealer)?;
    Ok(text)
}

/// The due texts of all dealers on such a day.
fn push_dealers(text: &mut Vec<u8>, venue: &VenueConfig, steps: &[Step]) -> Result<(), ProgramFault>
    requires { first_fault venue.now steps.now ≡ None }
    ensures ok { OnOk result (text.new.items ≡ text.old.items
        ++ flat_map (spec.dealer_text venue.now (audit_trail venue.now steps.now))
        (spec.numbered_dealers venue.now)) }
    ensures err { IfErr result (λ fault. fault ≡ ProgramFault.Memory) }
{
    for dealer in 0..venue.dealer_count() {
        push_dealer(text, venue, steps, dealer)?;
    }
    Ok(())
}

/// The due text of the dealer with this number on such a day, by a replay of its own.
fn push_dealer(
    text: &mut Vec<u8>,
    venue: &VenueConfig,
    steps: &[Step],
    dealer: u16,
) -> Result<(), ProgramFault>
    requires { first_fault venue.now steps.now ≡ None }
    ensures ok { OnOk result (text.new.items ≡ text.old.items
        ++ flat_map (spec.dealer_text venue.now (audit_trail venue.now steps.now))
        (one_at dealer (spec.numbered_dealers venue.now))) }
    ensures err { IfErr result (λ fault. fault ≡ ProgramFault.Memory) }
{
    let Some(row) = venue.dealer(dealer) else {
        return Ok(());
    };
    let dues = due_on(*text.allocator(), venue, steps, dealer)?;
    push_due_text(text, venue.date(), row, dues.as_slice())?;
    Ok(())
}

/// Due text of a date, a dealer and a list.
pub(crate) fn push_due_text(
    text: &mut Vec<u8>,
    date: &Date,
    row: &DealerRow,
    dues: &[Due],
) -> Result<(), Memory>
    ensures { OnOk result (text.new.items
        ≡ text.old.items ++ spec.due_text date.now row.now dues.now) }
{
    push_date_line(text, date)?;
    push_dealer_line(text, row)?;
    push_dues(text, dues)?;
    Ok(())
}

/// `date YYYYMMDD`.
pub fn push_date_line(text: &mut Vec<u8>, date: &Date) -> Result<(), Memory>
    ensures { OnOk result (text.new.items ≡ text.old.items ++ spec.date_line date.now) }
{
    text.extend_from_slice(b"date")?;
    push_part(text, date.digits().as_slice())?;
    text.push(b'\n')?;
    Ok(())
}

/// `dealer NAME QUOTES EXPOSURE TRADER ..`.
fn push_dealer_line(text: &mut Vec<u8>, row: &DealerRow) -> Result<(), Memory>
    ensures { OnOk result (text.new.items ≡ text.old.items ++ spec.dealer_line row.now) }
{
    push_limits(text, row)?;
    push_traders(text, &row.traders)?;
    text.push(b'\n')?;
    Ok(())
}

/// `dealer NAME QUOTES EXPOSURE`.
fn push_limits(text: &mut Vec<u8>, row: &DealerRow) -> Result<(), Memory>
    ensures { OnOk result (text.new.items ≡ text.old.items ++ cuts.limits_text row.now) }
{
    text.extend_from_slice(b"dealer")?;
    push_part(text, row.name.as_bytes())?;
    push_number(text, u64::from(row.quotes))?;
    push_number(text, row.exposure)?;
    Ok(())
}

/// The names of traders, each behind a space.
pub fn push_traders(text: &mut Vec<u8>, traders: &Traders) -> Result<(), Memory>
    ensures { OnOk result (text.new.items ≡ text.old.items ++ cuts.parts_behind traders.now) }
{
    for place in 0..traders.len() {
        push_trader(text, traders, place)?;
    }
    Ok(())
}

/// The name of the trader at a place, behind a space.
fn push_trader(text: &mut Vec<u8>, traders: &Traders, place: usize) -> Result<(), Memory>
    ensures { OnOk result (text.new.items
        ≡ text.old.items ++ cuts.parts_behind (one_at place traders.now)) }
{
    let Some(name) = traders.get(place) else {
        return Ok(());
    };
    push_part(text, name)?;
    Ok(())
}

/// A part behind a space.
fn push_part(text: &mut Vec<u8>, part: &[u8]) -> Result<(), Memory>
    ensures { OnOk result (text.new.items ≡ text.old.items ++ 32 ∷ part.now) }
{
    text.push(b' ')?;
    text.extend_from_slice(part)?;
    Ok(())
}

/// A number in decimal behind a space.
fn push_number(text: &mut Vec<u8>, number: u64) -> Result<(), Memory>
    ensures { OnOk result (text.new.items ≡ text.old.items ++ 32 ∷ decimal number) }
{
    let mut digits = Buffer::new();
    push_part(text, digits.format(number).as_bytes())?;
    Ok(())
}
