//! What `blotter` prints.
ghost use Rattle.std.specs.Prelude.{◌≡◌, ◌≢◌, slice_get, string_bytes, Err, IfOk, IfErr};
ghost use Rattle.venue_text.specs.AskedDays as asked;
ghost use Rattle.venue_text.specs.BlotterCommand as spec;

use crate::day_arguments::{AskedDay, read_firms_day, replayed_once};
use blotter::blotter_text;
use fix_fields::Memory;
use input_lines::{MOST_INPUT, ProgramFault, day_parts};
use std::alloc::Global;
use step_replay::World;

/// The blotter of FIRM, by the bytes of an input: a configuration, a line `%%`, and the steps of a
/// day. Or the first fault of these, as [`replay_text`](crate::replay_text) has them. Memory may be
/// refused at any point.
pub fn blotter_command_text(
    alloc: Global,
    firm: &[u8],
    input: &[u8],
) -> Result<Vec<u8>, ProgramFault>
    ensures ok { IfOk result (λ text. spec.IsBlotter firm.now input.now text.items) }
    ensures err { IfErr result (λ fault. fault ≢ ProgramFault.Memory
        → asked.one_day (asked.firm_by firm.now) input.now ≡ Err fault) }
    ensures unwritten { IfErr result (λ fault. fault ≢ ProgramFault.Write) }
{
    if input.len() > MOST_INPUT {
        return Err(ProgramFault::Input);
    }
    let parts = day_parts(input)?;
    let AskedDay { venue, firm, steps } = read_firms_day(alloc, parts, firm)?;
    let world = replayed_once(alloc, &venue, steps)?;
    let text = lines_text(alloc, &world, firm)?;
    Ok(text.into_bytes())
}

/// The blotter of the firm with this number.
pub(crate) fn lines_text(alloc: Global, world: &World, firm: u16) -> Result<String, Memory>
    ensures { IfOk result (λ text. string_bytes text
        ≡ spec.blotter_of (slice_get world.now firm)) }
{
    let Some(lines) = world.lines(firm) else {
        return Ok(String::new(alloc));
    };
    let text = blotter_text(alloc, &lines)?;
    Ok(text)
}
