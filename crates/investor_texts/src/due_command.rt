//! What `due --investor` prints.
ghost use Rattle.std.specs.Prelude.{◌≡◌, ◌≢◌, Err, IfOk, IfErr};
ghost use Rattle.investor_texts.specs.DueCommand as spec;
ghost use Rattle.venue_text.specs.AskedDays.{one_day};

use crate::asked_days::read_investors_day;
use crate::text_writing::investor_text;
use fix_fields::Memory;
use input_lines::{MOST_INPUT, ProgramFault, day_parts};
use investor_dues::{DueDay, InvestorDue, InvestorSeen};
use std::alloc::Global;
use venue_rows::VenueConfig;
use venue_text::AskedDay;

/// What was due to INVESTOR, as due text, by the bytes of an input: a configuration, a line `%%`,
/// and the steps of a day. [`alone_command_text`](crate::alone_command_text) reads it. Or the first
/// fault of these, as `due_command_text` of `venue_text` has them; [`ProgramFault::Firm`] is that
/// INVESTOR names no investor. Memory may be refused at any point.
pub fn investor_due_text(alloc: Global, name: &[u8], input: &[u8]) -> Result<Vec<u8>, ProgramFault>
    ensures ok { IfOk result (λ text. spec.IsDueText name.now input.now text.items) }
    ensures err { IfErr result (λ fault. fault ≢ ProgramFault.Memory
        → one_day (spec.investor_by name.now) input.now ≡ Err fault) }
    ensures unwritten { IfErr result (λ fault. fault ≢ ProgramFault.Write) }
{
    if input.len() > MOST_INPUT {
        return Err(ProgramFault::Input);
    }
    let parts = day_parts(input)?;
    let day = read_investors_day(alloc, parts, name)?;
    let text = day_text(alloc, &day)?;
    Ok(text)
}

/// The due text of the investor of a day.
fn day_text(alloc: Global, day: &AskedDay) -> Result<Vec<u8>, Memory>
    ensures { IfOk result (λ text. spec.IsTextOf day.now.venue day.now.firm
        day.now.steps.items text.items) }
{
    let due = DueDay::of_steps(alloc, &day.venue, day.steps.as_slice(), day.firm)?;
    let text = text_of(alloc, &day.venue, day.firm, due.dues.as_slice())?;
    Ok(text)
}

/// The due text of a list, for the investor with this number.
pub(crate) fn text_of(
    alloc: Global,
    venue: &VenueConfig,
    investor: u16,
    dues: &[InvestorDue],
) -> Result<Vec<u8>, Memory>
    ensures { IfOk result (λ text. spec.IsTextOfList venue.now investor dues.now text.items) }
{
    let Some(row) = venue.investor(investor) else {
        return Err(Memory);
    };
    let seen = InvestorSeen::of(alloc, venue, row)?;
    let text = investor_text(alloc, &seen, dues)?;
    Ok(text)
}
