//! What a command on a venue's day reads: the venue, what its argument names there, and the steps.
ghost use Rattle.std.specs.Prelude.{◌≡◌, ◌≢◌, None, Ok, Err, IfOk, IfErr, IsSome};
ghost use Rattle.std.specs.Option.{option_copied};
ghost use Rattle.step_replay.specs.AuditTrail.{audit_trail, due_to};
ghost use Rattle.step_replay.specs.FirmDays.{firm_days};
ghost use Rattle.step_replay.specs.StepFaults.{first_fault};
ghost use Rattle.venue_rows.specs.Rows.{dealer_numbered, values_of};
ghost use Rattle.venue_text.specs.AskedDays as spec;

use input_lines::{
    DayParts, MOST_INPUT, ProgramFault, asked_dealer, asked_firm, day_parts, read_steps, read_venue,
};
use std::alloc::Global;
use step_replay::{Due, ReplayFault, Step, World, due, run, run_once};
use venue_rows::VenueConfig;

/// A venue, the number of the firm that an argument names in it, and the steps of a day.
#[derive(Drop)]
pub struct AskedDay {
    /// The venue.
    pub venue: VenueConfig,
    /// The number of the firm.
    pub firm: u16,
    /// The steps.
    pub steps: Vec<Step>,
}

/// A venue, the number of a firm or a dealer where an argument names one, and the steps of a day.
#[derive(Drop)]
pub(crate) struct OpenDay {
    pub(crate) venue: VenueConfig,
    pub(crate) only: Option<u16>,
    pub(crate) steps: Vec<Step>,
}

/// Reads a day for FIRM.
pub(crate) fn read_firms_day(
    alloc: Global,
    parts: DayParts<'_>,
    name: &[u8],
) -> Result<AskedDay, ProgramFault>
    ensures ok { IfOk result (λ day. spec.day_for (spec.firm_by name.now)
        (record { config = parts.entry.config.now; steps = parts.entry.steps })
        ≡ Ok (day.firm, record { config = values_of day.venue; steps = day.steps.items })) }
    ensures err { IfErr result (λ fault. fault ≢ ProgramFault.Memory
        → spec.day_for (spec.firm_by name.now)
        (record { config = parts.entry.config.now; steps = parts.entry.steps }) ≡ Err fault) }
    ensures unwritten { IfErr result (λ fault. fault ≢ ProgramFault.Write) }
    ensures known { IfOk result (λ day. first_fault day.venue day.steps.items ≡ None) }
{
    let venue = read_venue(alloc, parts.config)?;
    let firm = asked_firm(&venue, name)?;
    let steps = read_steps(alloc, &venue, parts.steps)?;
    Ok(AskedDay { venue, firm, steps })
}

/// Reads a day for DEALER.
pub(crate) fn read_dealers_day(
    alloc: Global,
    parts: DayParts<'_>,
    name: &[u8],
) -> Result<AskedDay, ProgramFault>
    ensures ok { IfOk result (λ day. spec.day_for (spec.dealer_by name.now)
        (record { config = parts.entry.config.now; steps = parts.entry.steps })
        ≡ Ok (day.firm, record { config = values_of day.venue; steps = day.steps.items })) }
    ensures err { IfErr result (λ fault. fault ≢ ProgramFault.Memory
        → spec.day_for (spec.dealer_by name.now)
        (record { config = parts.entry.config.now; steps = parts.entry.steps }) ≡ Err fault) }
    ensures unwritten { IfErr result (λ fault. fault ≢ ProgramFault.Write) }
    ensures known { IfOk result (λ day. first_fault day.venue day.steps.items ≡ None) }
    ensures dealer { IfOk result (λ day. IsSome (dealer_numbered day.venue day.firm)) }
{
    let venue = read_venue(alloc, parts.config)?;
    let firm = asked_dealer(&venue, name)?;
    let steps = read_steps(alloc, &venue, parts.steps)?;
    Ok(AskedDay { venue, firm, steps })
}

/// Reads a day for FIRM, which may be left out.
pub(crate) fn read_open_day(
    alloc: Global,
    parts: DayParts<'_>,
    name: Option<&[u8]>,
) -> Result<OpenDay, ProgramFault>
    ensures ok { IfOk result (λ day. spec.day_for (spec.firms_by (option_copied name.entry))
        (record { config = parts.entry.config.now; steps = parts.entry.steps })
        ≡ Ok (day.only, record { config = values_of day.venue; steps = day.steps.items })) }
    ensures err { IfErr result (λ fault. fault ≢ ProgramFault.Memory
        → spec.day_for (spec.firms_by (option_copied name.entry))
        (record { config = parts.entry.config.now; steps = parts.entry.steps }) ≡ Err fault) }
    ensures unwritten { IfErr result (λ fault. fault ≢ ProgramFault.Write) }
    ensures known { IfOk result (λ day. first_fault day.venue day.steps.items ≡ None) }
{
    let venue = read_venue(alloc, parts.config)?;
    let only = asked_firms(&venue, name)?;
    let steps = read_steps(alloc, &venue, parts.steps)?;
    Ok(OpenDay { venue, only, steps })
}

/// The same of the bytes of an input.
fn read_day_in(alloc: Global, input: &[u8], name: Option<&[u8]>) -> Result<OpenDay, ProgramFault>
    ensures ok { IfOk result (λ day.
        spec.one_day (spec.firms_by (option_copied name.entry)) input.now
        ≡ Ok (day.only, record { config = values_of day.venue; steps = day.steps.items })) }
    ensures err { IfErr result (λ fault. fault ≢ ProgramFault.Memory
        → spec.one_day (spec.firms_by (option_copied name.entry)) input.now ≡ Err fault) }
    ensures unwritten { IfErr result (λ fault. fault ≢ ProgramFault.Write) }
    ensures known { IfOk result (λ day. first_fault day.venue day.steps.items ≡ None) }
{
    if input.len() > MOST_INPUT {
        return Err(ProgramFault::Input);
    }
    let parts = day_parts(input)?;
    let day = read_open_day(alloc, parts, name)?;
    Ok(day)
}

/// The same of an input that nobody needs afterwards: its memory is given back.
pub(crate) fn read_whole_day(
    alloc: Global,
    input: Vec<u8>,
    name: Option<&[u8]>,
) -> Result<OpenDay, ProgramFault>
    ensures ok { IfOk result (λ day.
        spec.one_day (spec.firms_by (option_copied name.entry)) input.items
        ≡ Ok (day.only, record { config = values_of day.venue; steps = day.steps.items })) }
    ensures err { IfErr result (λ fault. fault ≢ ProgramFault.Memory
        → spec.one_day (spec.firms_by (option_copied name.entry)) input.items ≡ Err fault) }
    ensures unwritten { IfErr result (λ fault. fault ≢ ProgramFault.Write) }
    ensures known { IfOk result (λ day. first_fault day.venue day.steps.items ≡ None) }
{
    let day = read_day_in(alloc, input.as_slice(), name)?;
    Ok(day)
}

/// Reads a day for DEALER, which may be left out.
pub(crate) fn read_open_dealers_day(
    alloc: Global,
    parts: DayParts<'_>,
    name: Option<&[u8]>,
) -> Result<OpenDay, ProgramFault>
    ensures ok { IfOk result (λ day. spec.day_for (spec.dealers_by (option_copied name.entry))
        (record { config = parts.entry.config.now; steps = parts.entry.steps })
        ≡ Ok (day.only, record { config = values_of day.venue; steps = day.steps.items })) }
    ensures err { IfErr result (λ fault. fault ≢ ProgramFault.Memory
        → spec.day_for (spec.dealers_by (option_copied name.entry))
        (record { config = parts.entry.config.now; steps = parts.entry.steps }) ≡ Err fault) }
    ensures unwritten { IfErr result (λ fault. fault ≢ ProgramFault.Write) }
    ensures known { IfOk result (λ day. first_fault day.venue day.steps.items ≡ None) }
{
    let venue = read_venue(alloc, parts.config)?;
    let only = asked_dealers(&venue, name)?;
    let steps = read_steps(alloc, &venue, parts.steps)?;
    Ok(OpenDay { venue, only, steps })
}

/// The number of the firm that an argument names, if there is an argument.
pub(crate) fn asked_firms(
    venue: &VenueConfig,
    name: Option<&[u8]>,
) -> Result<Option<u16>, ProgramFault>
    ensures { result ≡ spec.firms_by (option_copied name.entry) (values_of venue.now) }
{
    let Some(name) = name else {
        return Ok(None);
    };
    let firm = asked_firm(venue, name)?;
    Ok(Some(firm))
}

/// The number of the dealer that an argument names, if there is an argument.
pub(crate) fn asked_dealers(
    venue: &VenueConfig,
    name: Option<&[u8]>,
) -> Result<Option<u16>, ProgramFault>
    ensures { result ≡ spec.dealers_by (option_copied name.entry) (values_of venue.now) }
{
    let Some(name) = name else {
        return Ok(None);
    };
    let dealer = asked_dealer(venue, name)?;
    Ok(Some(dealer))
}

/// The venue after a day each step of which names what the venue has: only memory can be refused.
pub(crate) fn replayed(
    alloc: Global,
    venue: &VenueConfig,
    steps: &[Step],
) -> Result<World, ProgramFault>
    requires { first_fault venue.now steps.now ≡ None }
    ensures ok { IfOk result (λ world. world
        ≡ firm_days venue.now (audit_trail venue.now steps.now).facts) }
    ensures err { IfErr result (λ fault. fault ≡ ProgramFault.Memory) }
{
    match run(alloc, venue, steps) {
        Ok(world) => Ok(world),
        Err(fault) => Err(refused(fault)),
    }
}

/// The same of steps that nobody needs afterwards.
pub(crate) fn replayed_once(
    alloc: Global,
    venue: &VenueConfig,
    steps: Vec<Step>,
) -> Result<World, ProgramFault>
    requires { first_fault venue.now steps.items ≡ None }
    ensures ok { IfOk result (λ world. world
        ≡ firm_days venue.now (audit_trail venue.now steps.items).facts) }
    ensures err { IfErr result (λ fault. fault ≡ ProgramFault.Memory) }
{
    match run_once(alloc, venue, steps) {
        Ok(world) => Ok(world),
        Err(fault) => Err(refused(fault)),
    }
}

/// What was due to a dealer on such a day.
pub(crate) fn due_on(
    alloc: Global,
    venue: &VenueConfig,
    steps: &[Step],
    dealer: u16,
) -> Result<Vec<Due>, ProgramFault>
    requires known { first_fault venue.now steps.now ≡ None }
    requires dealer { IsSome (dealer_numbered venue.now dealer) }
    ensures ok { IfOk result (λ dues. dues.items
        ≡ due_to dealer (audit_trail venue.now steps.now)) }
    ensures err { IfErr result (λ fault. fault ≡ ProgramFault.Memory) }
{
    match due(alloc, venue, steps, dealer) {
        Ok(dues) => Ok(dues),
        Err(fault) => Err(refused(fault)),
    }
}

/// A refusal of memory, as a fault of the program.
fn refused(fault: ReplayFault) -> ProgramFault
    requires { fault ≡ ReplayFault.Memory }
    ensures { result ≡ ProgramFault.Memory }
{
    let _ = fault;
    ProgramFault::Memory
}
