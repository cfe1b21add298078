//! What each command prints.
ghost use Rattle.std.specs.Prelude.{◌≡◌, ◌≢◌, Some, None, option_map, IfOk, IfErr};
ghost use Rattle.command_arguments.specs.Arguments.{meant};
ghost use Rattle.investor_texts.specs.AloneCommand.{first_fault};
ghost use Rattle.investor_texts.specs.SoughtDays as sought_days;
ghost use Rattle.live_runs.specs.LineForms.{meant_form};
ghost use Rattle.venue_commands.specs.Runs as spec;
ghost use Rattle.venue_commands.specs.Runs.{line_form};
ghost use Rattle.venue_commands.specs.ThreadedDays as threaded;
ghost use Rattle.venue_text.specs.KeptDays as kept;

use crate::days::day_text;
use command_arguments::{VenueCommand, argument_bytes};
use input_lines::ProgramFault;
use investor_texts::{
    Sought, Whom, alone_command_text, investor_compare_text, investor_due_text,
    noted_alone_command_text,
};
use live_runs::LineForm;
use std::alloc::Global;
use std::marker::Sync;
use std::sync::Wait;
use std::thread::Threads;
use venue_text::{
    LongText, Wanted, blotter_command_text, compare_text, due_command_text, replay_text,
};

/// What a command prints for an input, or the input's first fault; memory may be refused at any
/// point.
pub(crate) fn command_text<H: Threads + Wait + Sync>(
    rt: &H,
    alloc: Global,
    command: &VenueCommand<'_>,
    input: Vec<u8>,
) -> Result<LongText, ProgramFault>
    requires { line_form (meant command.now) ≡ None }
    ensures ok { IfOk result (λ text. spec.IsTextOf (meant command.now) input.items text) }
    ensures err { IfErr result (λ fault. fault ≢ ProgramFault.Memory
        → spec.IsFaultOf (meant command.now) input.items fault) }
    ensures unwritten { IfErr result (λ fault. fault ≢ ProgramFault.Write) }
{
    match command {
        VenueCommand::Alone { frames, notes } => {
            let text = alone_by(alloc, *frames, *notes, input.as_slice())?;
            one_block(alloc, text)
        }
        VenueCommand::Replay { firm, frames } => {
            let only = argument_bytes(*firm);
            replay_text(alloc, only, *frames, input)
        }
        VenueCommand::Day { frames, woven } => day_block(rt, alloc, *frames, *woven, input),
        VenueCommand::Live { .. } => unreachable!(),
        VenueCommand::Kept(_) => unreachable!(),
        VenueCommand::Compared(_) => unreachable!(),
        VenueCommand::Due { dealer } => {
            let only = argument_bytes(*dealer);
            let text = due_command_text(alloc, only, input.as_slice())?;
            one_block(alloc, text)
        }
        VenueCommand::InvestorDue { investor } => {
            let text = investor_due_text(alloc, investor.as_bytes(), input.as_slice())?;
            one_block(alloc, text)
        }
        VenueCommand::Compare { dealer } => {
            let text = compare_text(alloc, dealer.as_bytes(), input.as_slice())?;
            one_block(alloc, text)
        }
        VenueCommand::InvestorCompare { investor } => {
            let text = investor_compare_text(alloc, investor.as_bytes(), input.as_slice())?;
            one_block(alloc, text)
        }
        VenueCommand::Blotter { firm } => {
            let text = blotter_command_text(alloc, firm.as_bytes(), input.as_slice())?;
            one_block(alloc, text)
        }
    }
}

/// What `alone` prints, with or without what is noted.
fn alone_by(
    alloc: Global,
    with_frames: bool,
    with_notes: bool,
    input: &[u8],
) -> Result<Vec<u8>, ProgramFault>
    ensures ok { IfOk result (λ text.
        spec.IsAlone with_frames with_notes input.now text.items) }
    ensures err { IfErr result (λ fault.
        fault ≢ ProgramFault.Memory → first_fault input.now ≡ Some fault) }
    ensures unwritten { IfErr result (λ fault. fault ≢ ProgramFault.Write) }
{
    if with_notes {
        return noted_alone_command_text(alloc, with_frames, input);
    }
    alone_command_text(alloc, with_frames, input)
}

/// What `day` prints, as a long text.
fn day_block<H: Threads + Wait + Sync>(
    rt: &H,
    alloc: Global,
    with_frames: bool,
    woven: bool,
    input: Vec<u8>,
) -> Result<LongText, ProgramFault>
    ensures ok { IfOk result (λ text. threaded.IsDay with_frames woven input.items text) }
    ensures err { IfErr result (λ fault. fault ≢ ProgramFault.Memory
        → threaded.IsDayFault woven input.items fault) }
    ensures unwritten { IfErr result (λ fault. fault ≢ ProgramFault.Write) }
{
    match day_text(rt, alloc, with_frames, woven, input.as_slice()) {
        Ok(text) => one_block(alloc, text),
        Err(fault) => Err(fault),
    }
}

/// A text that fits into one block, as a long one.
fn one_block(alloc: Global, text: Vec<u8>) -> Result<LongText, ProgramFault>
    ensures ok { IfOk result (λ long. long ≡ text.items) }
    ensures err { IfErr result (λ fault. fault ≡ ProgramFault.Memory) }
{
    let mut long = LongText::new(alloc);
    long.push(text)?;
    Ok(long)
}

/// Whether a command takes a day line by line, and how it prints then.
pub(crate) fn line_form<'a>(command: &VenueCommand<'a>) -> Option<LineForm<'a>>
    ensures { option_map meant_form result ≡ line_form (meant command.now) }
{
    match command {
        VenueCommand::Live { form } => Some(LineForm::Answered(*form)),
        VenueCommand::Kept(sought) => Some(LineForm::Kept(*sought)),
        VenueCommand::Compared(whom) => Some(LineForm::Compared(*whom)),
        VenueCommand::Alone { .. } => None,
        VenueCommand::Replay { .. } => None,
        VenueCommand::Day { .. } => None,
        VenueCommand::Due { .. } => None,
        VenueCommand::InvestorDue { .. } => None,
        VenueCommand::Compare { .. } => None,
        VenueCommand::InvestorCompare { .. } => None,
        VenueCommand::Blotter { .. } => None,
    }
}

/// The argument in what is asked for at the end of a day.
fn wanted_argument<'a>(wanted: Wanted<'a>) -> &'a [u8]
    ensures { result.now ≡ spec.word_in (kept.meant wanted.entry) }
{
    match wanted {
        Wanted::Messages(firm, _) => firm.unwrap_or(b""),
        Wanted::Noted(firm, _) => firm.unwrap_or(b""),
        Wanted::Due(dealer) => dealer.unwrap_or(b""),
        Wanted::Blotter(firm) => firm,
    }
}

/// The same of an investor, too.
fn sought_argument<'a>(sought: Sought<'a>) -> &'a [u8]
    ensures { result.now ≡ spec.word_sought (sought_days.meant sought.entry) }
{
    match sought {
        Sought::Firms(wanted) => wanted_argument(wanted),
        Sought::Investor(name) => name,
    }
}

/// The name of the firm for which two days are compared.
fn whose_argument<'a>(whom: Whom<'a>) -> &'a [u8]
    ensures { result.now ≡ spec.word_of_whom (sought_days.whom_meant whom.entry) }
{
    match whom {
        Whom::Dealer(name) => name,
        Whom::Investor(name) => name,
    }
}

/// The argument of a command that names a firm.
pub(crate) fn command_argument<'a>(command: &VenueCommand<'a>) -> &'a [u8]
    ensures { result.now ≡ spec.word_of (meant command.now) }
{
    match command {
        VenueCommand::Alone { .. } => b"",
        VenueCommand::Replay { firm, .. } => firm.unwrap_or("").as_bytes(),
        VenueCommand::Day { .. } => b"",
        VenueCommand::Live { .. } => b"",
        VenueCommand::Kept(sought) => sought_argument(*sought),
        VenueCommand::Due { dealer } => dealer.unwrap_or("").as_bytes(),
        VenueCommand::InvestorDue { investor } => investor.as_bytes(),
        VenueCommand::Compare { dealer } => dealer.as_bytes(),
        VenueCommand::InvestorCompare { investor } => investor.as_bytes(),
        VenueCommand::Compared(whom) => whose_argument(*whom),
        VenueCommand::Blotter { firm } => firm.as_bytes(),
    }
}
