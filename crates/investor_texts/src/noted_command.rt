//! What `alone --notes` prints.
ghost use Rattle.std.specs.Prelude.{◌≡◌, ◌≢◌, ◌≤◌, length, Some, true, IfOk, IfErr};
ghost use Rattle.investor_texts.specs.AloneCommand as spec;
ghost use Rattle.investor_texts.specs.InvestorText.{investor_text_of};

use crate::text_reading::{is_investors, read_investor_text};
use input_lines::{MOST_INPUT, ProgramFault};
use investor_dues::alone_investor_output;
use std::alloc::Global;
use venue_text::{investor_noted_text, noted_alone_text};

/// The messages that one firm is sent, a line each, and behind each the line of what the firm's desk
/// notes beside it, by the bytes of its due text; or the first fault of these, as
/// [`alone_command_text`](crate::alone_command_text) has them.
pub fn noted_alone_command_text(
    alloc: Global,
    with_frames: bool,
    input: &[u8],
) -> Result<Vec<u8>, ProgramFault>
    ensures ok { IfOk result (λ text. spec.IsNoted with_frames input.now text.items) }
    ensures err { IfErr result (λ fault.
        fault ≢ ProgramFault.Memory → spec.first_fault input.now ≡ Some fault) }
    ensures unwritten { IfErr result (λ fault. fault ≢ ProgramFault.Write) }
{
    if input.len() > MOST_INPUT {
        return Err(ProgramFault::Input);
    }
    if is_investors(input) {
        let investors = noted_investors_text(alloc, with_frames, input)?;
        return Ok(investors);
    }
    let dealers = noted_alone_text(alloc, with_frames, input)?;
    Ok(dealers)
}

/// The messages of an investor with their notes, by the bytes of its due text.
fn noted_investors_text(
    alloc: Global,
    with_frames: bool,
    input: &[u8],
) -> Result<Vec<u8>, ProgramFault>
    requires { length input.now ≤ MOST_INPUT }
    ensures ok { IfOk result (λ text.
        spec.IsInvestorsNoted with_frames input.now text.items) }
    ensures err { IfErr result (λ fault.
        fault ≢ ProgramFault.Memory
        → spec.fault_of_reading (investor_text_of input.now) ≡ Some fault) }
    ensures unwritten { IfErr result (λ fault. fault ≢ ProgramFault.Write) }
{
    let text = read_investor_text(alloc, input)?;
    let (messages, notes) = alone_investor_output(alloc, &text.seen, text.dues.as_slice())?;
    let printed = investor_noted_text(
        alloc,
        with_frames,
        text.seen.date(),
        &text.seen.row().name,
        notes.as_slice(),
        messages.as_slice(),
    )?;
    Ok(printed)
}
