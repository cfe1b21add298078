//! What a command on a venue's day reads for an investor: the venue, the investor that its argument
//! names there, and the steps.
ghost use Rattle.std.specs.Prelude.{◌≡◌, ◌≢◌, None, Ok, Err, IfOk, IfErr, is_some, true};
ghost use Rattle.investor_texts.specs.DueCommand as spec;
ghost use Rattle.step_replay.specs.StepFaults.{first_fault};
ghost use Rattle.venue_rows.specs.Rows.{investor_numbered, values_of};
ghost use Rattle.venue_text.specs.AskedDays.{day_for};

use input_lines::{DayParts, ProgramFault, firm_of, read_steps, read_venue};
use std::alloc::Global;
use venue_rows::VenueConfig;
use venue_text::AskedDay;

/// Reads a day for INVESTOR.
pub(crate) fn read_investors_day(
    alloc: Global,
    parts: DayParts<'_>,
    name: &[u8],
) -> Result<AskedDay, ProgramFault>
    ensures ok { IfOk result (λ day. day_for (spec.investor_by name.now)
        (record { config = parts.entry.config.now; steps = parts.entry.steps })
        ≡ Ok (day.firm, record { config = values_of day.venue; steps = day.steps.items })) }
    ensures err { IfErr result (λ fault. fault ≢ ProgramFault.Memory
        → day_for (spec.investor_by name.now)
        (record { config = parts.entry.config.now; steps = parts.entry.steps }) ≡ Err fault) }
    ensures unwritten { IfErr result (λ fault. fault ≢ ProgramFault.Write) }
    ensures known { IfOk result (λ day. first_fault day.venue day.steps.items ≡ None) }
    ensures investor { IfOk result (λ day.
        is_some (investor_numbered day.venue day.firm) ≡ true) }
{
    let venue = read_venue(alloc, parts.config)?;
    let firm = asked_investor(&venue, name)?;
    let steps = read_steps(alloc, &venue, parts.steps)?;
    Ok(AskedDay { venue, firm, steps })
}

/// The number of the investor that an argument names, or [`ProgramFault::Firm`].
#[tactic(auto, using(crate::proofs::AskedLemmas::investor_there, crate::proofs::AskedLemmas::dealers_count))]
pub(crate) fn asked_investor(config: &VenueConfig, word: &[u8]) -> Result<u16, ProgramFault>
    ensures is { result ≡ spec.investor_by word.now (values_of config.now) }
    ensures known { IfOk result (λ investor.
        is_some (investor_numbered config.now investor) ≡ true) }
    ensures unwritten { IfErr result (λ fault. fault ≢ ProgramFault.Write) }
{
    let Some(firm) = firm_of(config, word) else {
        return Err(ProgramFault::Firm);
    };
    if usize::from(firm) < config.dealers().len() {
        return Err(ProgramFault::Firm);
    }
    Ok(firm)
}
