//! What `alone --notes` prints.
ghost use Rattle.std.specs.Prelude.{◌≡◌, ◌≢◌, Some, IfOk, IfErr};
ghost use Rattle.venue_text.specs.AloneText as spec;

use crate::noted_text::dealer_noted_text;
use input_lines::{MOST_INPUT, ProgramFault, read_due_text};
use std::alloc::Global;
use step_replay::alone_output;

/// The messages that one dealer is sent, a line each, and behind each the line of what the dealer's
/// desk notes beside it, by the bytes of its due text; or the first fault of these, as
/// [`alone_text`](crate::alone_text) has them.
pub fn noted_alone_text(
    alloc: Global,
    with_frames: bool,
    input: &[u8],
) -> Result<Vec<u8>, ProgramFault>
    ensures ok { IfOk result (λ text. spec.IsNoted with_frames input.now text.items) }
    ensures err { IfErr result (λ fault.
        fault ≢ ProgramFault.Memory → spec.first_fault input.now ≡ Some fault) }
    ensures unwritten { IfErr result (λ fault. fault ≢ ProgramFault.Write) }
{
    if input.len() > MOST_INPUT {
        return Err(ProgramFault::Input);
    }
    let due = read_due_text(alloc, input)?;
    let (messages, notes) = alone_output(alloc, &due.date, &due.row, due.dues.as_slice())?;
    let text = dealer_noted_text(
        alloc,
        with_frames,
        &due.date,
        &due.row.name,
        notes.as_slice(),
        messages.as_slice(),
    )?;
    Ok(text)
}
