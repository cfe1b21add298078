//! The marks of a day that goes on: each tells that a line of steps was answered.
ghost use Rattle.std.specs.Prelude.{◌≡◌, ◌++◌, OnOk, IfOk};
ghost use Rattle.venue_text.specs.LiveLines as spec;

use crate::live_form::LiveForm;
use fix_fields::{Memory, Moment, time_text};
use input_lines::ProgramFault;
use itoa::Buffer;
use std::alloc::Global;

/// The mark of a line that was answered, behind a text: `done K`, and the earliest deadline. In a
/// form without marks it is nothing.
pub(crate) fn push_done_mark(
    text: &mut Vec<u8>,
    form: LiveForm,
    line: usize,
    deadline: Option<Moment>,
) -> Result<(), Memory>
    ensures { OnOk result (text.new.items
        ≡ text.old.items ++ spec.mark_of form (spec.done_line line deadline)) }
{
    if form.marks {
        push_done_line(text, line, deadline)?;
        return Ok(());
    }
    Ok(())
}

/// `done K`, and behind it the earliest deadline where there is one.
fn push_done_line(text: &mut Vec<u8>, line: usize, deadline: Option<Moment>) -> Result<(), Memory>
    ensures { OnOk result (text.new.items ≡ text.old.items ++ spec.done_line line deadline) }
{
    let mut digits = Buffer::new();
    text.extend_from_slice(b"done ")?;
    text.extend_from_slice(digits.format(line).as_bytes())?;
    push_deadline(text, deadline)?;
    text.push(b'\n')?;
    Ok(())
}

/// A deadline behind its space.
fn push_deadline(text: &mut Vec<u8>, deadline: Option<Moment>) -> Result<(), Memory>
    ensures { OnOk result (text.new.items ≡ text.old.items ++ spec.deadline_text deadline) }
{
    let Some(moment) = deadline else {
        return Ok(());
    };
    text.push(b' ')?;
    text.extend_from_slice(time_text(moment).as_bytes())?;
    Ok(())
}

/// The mark of the line with this number, which is at fault: `fault K NAME`. In a form without
/// marks it is nothing.
pub(crate) fn fault_mark(
    alloc: Global,
    form: LiveForm,
    line: usize,
    fault: &ProgramFault,
) -> Result<Vec<u8>, Memory>
    ensures { IfOk result (λ text. text.items ≡ spec.fault_mark form line fault.now) }
{
    let mut text = Vec::new(alloc);
    if form.marks {
        push_fault_line(&mut text, line, fault)?;
        return Ok(text);
    }
    Ok(text)
}

/// `fault K NAME`.
fn push_fault_line(text: &mut Vec<u8>, line: usize, fault: &ProgramFault) -> Result<(), Memory>
    ensures { OnOk result (text.new.items ≡ text.old.items ++ spec.refused_line line fault.now) }
{
    let mut digits = Buffer::new();
    text.extend_from_slice(b"fault ")?;
    text.extend_from_slice(digits.format(line).as_bytes())?;
    text.push(b' ')?;
    text.extend_from_slice(line_fault_name(fault).as_bytes())?;
    text.push(b'\n')?;
    Ok(())
}

/// The name of a fault of a line; of any other nothing.
fn line_fault_name(fault: &ProgramFault) -> &'static str
    ensures { result.now ≡ spec.line_fault_name fault.now }
{
    match fault {
        ProgramFault::Form { .. } => "form",
        ProgramFault::UnknownFirm { .. } => "unknown firm",
        ProgramFault::UnknownRoom { .. } => "unknown room",
        ProgramFault::Stream { .. } => "stream",
        ProgramFault::Read => "",
        ProgramFault::Input => "",
        ProgramFault::Parts => "",
        ProgramFault::Config(_) => "",
        ProgramFault::Firm => "",
        ProgramFault::Day(_) => "",
        ProgramFault::Weave(_) => "",
        ProgramFault::Memory => "",
        ProgramFault::Write => "",
    }
}
