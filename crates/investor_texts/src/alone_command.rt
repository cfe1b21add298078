//! What `alone` prints.
ghost use Rattle.std.specs.Prelude.{◌≡◌, ◌≢◌, ◌≤◌, length, Some, true, IfOk, IfErr};
ghost use Rattle.investor_texts.specs.AloneCommand as spec;
ghost use Rattle.investor_texts.specs.InvestorText.{investor_text_of};

use crate::text_reading::{is_investors, read_investor_text};
use input_lines::{MOST_INPUT, ProgramFault};
use investor_dues::alone_investor;
use std::alloc::Global;
use venue_text::{alone_text, messages_text};

/// The messages that one firm is sent, a line each, by the bytes of its due text, a dealer's or an
/// investor's; or the first fault of these, [`ProgramFault::Input`], [`ProgramFault::Parts`] or
/// [`ProgramFault::Form`]. Memory may be refused at any point.
pub fn alone_command_text(
    alloc: Global,
    with_frames: bool,
    input: &[u8],
) -> Result<Vec<u8>, ProgramFault>
    ensures ok { IfOk result (λ text. spec.IsPrinted with_frames input.now text.items) }
    ensures err { IfErr result (λ fault.
        fault ≢ ProgramFault.Memory → spec.first_fault input.now ≡ Some fault) }
    ensures unwritten { IfErr result (λ fault. fault ≢ ProgramFault.Write) }
{
    if input.len() > MOST_INPUT {
        return Err(ProgramFault::Input);
    }
    if is_investors(input) {
        let investors = investors_text(alloc, with_frames, input)?;
        return Ok(investors);
    }
    let dealers = alone_text(alloc, with_frames, input)?;
    Ok(dealers)
}

/// The messages of an investor, by the bytes of its due text.
fn investors_text(alloc: Global, with_frames: bool, input: &[u8]) -> Result<Vec<u8>, ProgramFault>
    requires { length input.now ≤ MOST_INPUT }
    ensures ok { IfOk result (λ text.
        spec.IsInvestorsPrinted with_frames input.now text.items) }
    ensures err { IfErr result (λ fault.
        fault ≢ ProgramFault.Memory
        → spec.fault_of_reading (investor_text_of input.now) ≡ Some fault) }
    ensures unwritten { IfErr result (λ fault. fault ≢ ProgramFault.Write) }
{
    let text = read_investor_text(alloc, input)?;
    let messages = alone_investor(alloc, &text.seen, text.dues.as_slice())?;
    let name = &text.seen.row().name;
    let printed = messages_text(alloc, with_frames, name, messages.as_slice())?;
    Ok(printed)
}
