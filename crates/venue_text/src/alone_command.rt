//! What `alone` prints.
ghost use Rattle.std.specs.Prelude.{◌≡◌, ◌≢◌, Some, IfOk, IfErr};
ghost use Rattle.venue_text.specs.AloneText as spec;

use crate::message_lines::messages_text;
use input_lines::{MOST_INPUT, ProgramFault, read_due_text};
use std::alloc::Global;
use step_replay::alone;

/// The messages that one dealer is sent, a line each, by the bytes of its due text; or the first
/// fault of these, [`ProgramFault::Input`], [`ProgramFault::Parts`] or [`ProgramFault::Form`].
/// Memory may be refused at any point.
pub fn alone_text(alloc: Global, with_frames: bool, input: &[u8]) -> Result<Vec<u8>, ProgramFault>
    ensures ok { IfOk result (λ text. spec.IsPrinted with_frames input.now text.items) }
    ensures err { IfErr result (λ fault.
        fault ≢ ProgramFault.Memory → spec.first_fault input.now ≡ Some fault) }
    ensures unwritten { IfErr result (λ fault. fault ≢ ProgramFault.Write) }
{
    if input.len() > MOST_INPUT {
        return Err(ProgramFault::Input);
    }
    let due = read_due_text(alloc, input)?;
    let messages = alone(alloc, &due.date, &due.row, due.dues.as_slice())?;
    let text = messages_text(alloc, with_frames, &due.row.name, messages.as_slice())?;
    Ok(text)
}
