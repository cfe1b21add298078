//! How far a day that comes line by line has come, and what a line does to it.
ghost use Rattle.std.specs.Prelude.{◌≡◌, ◌≢◌, ◌<◌, ◌≤◌, ◌++◌, ◌⊎◌, [], ◌∷◌, length};
ghost use Rattle.std.specs.Prelude.{IfOk, IfErr, OnOk, OnErr};
ghost use Rattle.std.specs.Io.KnownBytes.{Appends};
ghost use Rattle.std.specs.Option.{option_to_list};
ghost use Rattle.live_runs.specs.LineForms.{meant_form};
ghost use Rattle.live_runs.specs.LiveRuns as spec;
ghost use Rattle.live_runs.specs.LiveCalls as stages;
ghost use Rattle.live_runs.specs.Written.{GainsPart};

use crate::line_forms::LineForm;
use crate::output::{print_text, report};
use input_lines::{MOST_INPUT, ProgramFault, same_text};
use investor_texts::SoughtDay;
use std::alloc::Global;
use std::io::Write;
use std::mem;
use venue_text::LiveDay;

/// How far a run has come.
pub(crate) enum Stage {
    /// The lines of the configuration so far, each with its line feed.
    Configuration(Vec<u8>),
    /// The day goes on, and each line is answered.
    Day(LiveDay),
    /// The day goes on, and its messages are kept.
    Kept(SoughtDay),
    /// The first of two days goes on.
    First(SoughtDay),
    /// The first of two days has ended, and these are the lines of the second's configuration.
    Between(SoughtDay, Vec<u8>),
    /// The second of two days goes on.
    Both(SoughtDay, SoughtDay),
}

/// As a derived one; but what a stage has is dropped by calls, and in one place. A derived drop is
/// taken apart down to each list wherever a stage ends, which takes minutes to prove.
impl Drop for Stage {
    fn drop(self) {
        match self {
            Stage::Configuration(text) => drop(text),
            Stage::Day(day) => drop(day),
            Stage::Kept(day) => drop(day),
            Stage::First(day) => drop(day),
            Stage::Between(day, text) => {
                drop(day);
                drop(text);
            }
            Stage::Both(one, other) => {
                drop(one);
                drop(other);
            }
        }
    }
}

impl Stage {
    /// At the end there is a day, and what is asked for of it is printed.
    pub(crate) fn close<W: Write>(self, alloc: Global, out: &mut W) -> Result<(), ProgramFault>
        ensures ok { OnOk result (stages.Closes self
            (record { before = W.contents out.old; after = W.contents out.new })) }
        ensures err { IfErr result (λ fault. stages.CloseFails self fault
            (record { before = W.contents out.old; after = W.contents out.new })) }
    {
        match self {
            Stage::Configuration(text) => {
                drop(text);
                Err(ProgramFault::Parts)
            }
            Stage::Day(day) => {
                drop(day);
                Ok(())
            }
            Stage::Kept(day) => {
                let text = day.into_text(alloc)?;
                print_text(out, text.as_slice())?;
                Ok(())
            }
            Stage::First(day) => {
                drop(day);
                Err(ProgramFault::Parts)
            }
            Stage::Between(day, text) => {
                drop(day);
                drop(text);
                Err(ProgramFault::Parts)
            }
            Stage::Both(one, other) => {
                let text = one.compared_text(alloc, other)?;
                print_text(out, text.as_slice())?;
                Ok(())
            }
        }
    }

    /// The stage behind a line that ends the first of two days, or the configuration of the second.
    fn turned(self, alloc: Global, form: LineForm<'_>) -> Result<Stage, ProgramFault>
        ensures ok { IfOk result (stages.Turns (meant_form form.entry) self) }
        ensures err { IfErr result (stages.TurnFails (meant_form form.entry) self) }
    {
        let LineForm::Compared(whom) = form else {
            return Ok(self);
        };
        match self {
            Stage::First(day) => Ok(Stage::Between(day, Vec::new(alloc))),
            Stage::Between(one, text) => {
                let other = SoughtDay::open_for(alloc, whom, text.as_slice())?;
                Ok(Stage::Both(one, other))
            }
            other => Ok(other),
        }
    }
}

/// The line with this number is answered.
pub(crate) fn answer_at<W: Write, E: Write>(
    alloc: Global,
    form: LineForm<'_>,
    number: usize,
    stage: &mut Stage,
    line: &[u8],
    out: &mut W,
    err: &mut E,
) -> Result<(), ProgramFault>
    ensures ok { OnOk result (stages.StageTakes (meant_form form.entry) number line.now
        stage.old stage.new
        (record { before = W.contents out.old; after = W.contents out.new })
        (record { before = E.contents err.old; after = E.contents err.new })) }
    ensures err { IfErr result (λ fault.
        stages.StageFails (meant_form form.entry) number line.now stage.old fault
        (record { before = W.contents out.old; after = W.contents out.new })
        (record { before = E.contents err.old; after = E.contents err.new })) }
{
    if is_turn(stage, line) {
        turn(alloc, form, stage)?;
        return Ok(());
    }
    match stage {
        Stage::Configuration(text) => {
            let Some(next) = next_stage(alloc, form, text, line)? else {
                return Ok(());
            };
            *stage = next;
            Ok(())
        }
        Stage::Day(day) => {
            answer_step(alloc, number, day, line, out, err)?;
            Ok(())
        }
        Stage::Kept(day) => {
            keep_step(alloc, number, day, line, err)?;
            Ok(())
        }
        Stage::First(day) => {
            keep_step(alloc, number, day, line, err)?;
            Ok(())
        }
        Stage::Between(_, text) => {
            put_line(text, line)?;
            Ok(())
        }
        Stage::Both(_, day) => {
            keep_step(alloc, number, day, line, err)?;
            Ok(())
        }
    }
}

/// Whether a line ends the first of two days, or the configuration of the second.
fn is_turn(stage: &Stage, line: &[u8]) -> bool
    ensures { result ≡ stages.is_turn stage.now line.now }
{
    match stage {
        Stage::First(_) => same_text(line, b"%%"),
        Stage::Between(_, _) => same_text(line, b"%%"),
        Stage::Configuration(_) => false,
        Stage::Day(_) => false,
        Stage::Kept(_) => false,
        Stage::Both(_, _) => false,
    }
}

/// The line that divides two days came, or the one behind the configuration of the second.
fn turn(alloc: Global, form: LineForm<'_>, stage: &mut Stage) -> Result<(), ProgramFault>
    ensures ok { OnOk result (stages.Turns (meant_form form.entry) stage.old stage.new) }
    ensures err { IfErr result (stages.TurnFails (meant_form form.entry) stage.old) }
{
    let before = mem::replace(stage, Stage::Configuration(Vec::new(alloc)));
    *stage = before.turned(alloc, form)?;
    Ok(())
}

/// A line before the day: it opens the day, or goes on with the configuration, whose text this is.
fn next_stage(
    alloc: Global,
    form: LineForm<'_>,
    text: &mut Vec<u8>,
    line: &[u8],
) -> Result<Option<Stage>, ProgramFault>
    ensures ok { IfOk result (stages.IsNext (meant_form form.entry) line.now text.old.items
        text.new.items) }
    ensures err { IfErr result (stages.IsBad (meant_form form.entry) line.now text.old.items) }
{
    if !same_text(line, b"%%") {
        put_line(text, line)?;
        return Ok(None);
    }
    let stage = open_stage(alloc, form, text.as_slice())?;
    Ok(Some(stage))
}

/// The day that a configuration opens.
fn open_stage(alloc: Global, form: LineForm<'_>, text: &[u8]) -> Result<Stage, ProgramFault>
    ensures ok { IfOk result (stages.OpensStage (meant_form form.entry) text.now) }
    ensures err { IfErr result (λ fault. fault ≢ ProgramFault.Memory
        → stages.OpensNone (meant_form form.entry) text.now fault) }
{
    match form {
        LineForm::Answered(form) => {
            let day = LiveDay::open(alloc, form, text)?;
            Ok(Stage::Day(day))
        }
        LineForm::Kept(sought) => {
            let day = SoughtDay::open(alloc, sought, text)?;
            Ok(Stage::Kept(day))
        }
        LineForm::Compared(whom) => {
            let day = SoughtDay::open_for(alloc, whom, text)?;
            Ok(Stage::First(day))
        }
    }
}

/// Puts a line behind those of a configuration.
fn put_line(text: &mut Vec<u8>, line: &[u8]) -> Result<(), ProgramFault>
    ensures ok { OnOk result (text.new.items ≡ text.old.items ++ line.now ++ 10 ∷ []) }
    ensures short { OnOk result (length text.new.items ≤ MOST_INPUT) }
    ensures err { IfErr result (λ fault. (fault ≡ ProgramFault.Memory)
        ⊎ ((fault ≡ ProgramFault.Input)
        × MOST_INPUT < length (text.old.items ++ line.now ++ 10 ∷ []))) }
{
    if line.len() >= MOST_INPUT || text.len() >= MOST_INPUT - line.len() {
        return Err(ProgramFault::Input);
    }
    text.extend_from_slice(line)?;
    text.push(b'\n')?;
    Ok(())
}

/// A line of steps is answered: its fault told, if it has one, and its text printed.
fn answer_step<W: Write, E: Write>(
    alloc: Global,
    number: usize,
    day: &mut LiveDay,
    line: &[u8],
    out: &mut W,
    err: &mut E,
) -> Result<(), ProgramFault>
    ensures ok { OnOk result (stages.DayTakes number line.now day.old day.new
        (record { before = W.contents out.old; after = W.contents out.new })
        (record { before = E.contents err.old; after = E.contents err.new })) }
    ensures err { IfErr result (λ fault. stages.DayFails number line.now day.old fault
        (record { before = W.contents out.old; after = W.contents out.new })
        (record { before = E.contents err.old; after = E.contents err.new })) }
{
    let output = day.output(alloc, number, line)?;
    report_fault(err, &output.fault);
    print_output(out, output.text.as_slice())?;
    Ok(())
}

/// A line of steps of a day that is kept is taken, and its fault told, if it has one.
fn keep_step<E: Write>(
    alloc: Global,
    number: usize,
    day: &mut SoughtDay,
    line: &[u8],
    err: &mut E,
) -> Result<(), ProgramFault>
    ensures ok { OnOk result (stages.KeepsStep number line.now day.old day.new
        (record { before = E.contents err.old; after = E.contents err.new })) }
    ensures err { IfErr result (λ fault. (fault ≡ ProgramFault.Memory)
        × (E.contents err.new ≡ E.contents err.old)) }
{
    let fault = day.keep(alloc, number, line)?;
    report_fault(err, &fault);
    Ok(())
}

/// Tells the fault of a line, if it has one.
fn report_fault<E: Write>(err: &mut E, fault: &Option<ProgramFault>)
    ensures { spec.GainsFaults (option_to_list fault.now)
        (record { before = E.contents err.old; after = E.contents err.new }) }
{
    let Some(fault) = fault else {
        return;
    };
    report(err, b"", fault);
}

/// Prints the text of a line; where there is none nothing is written.
fn print_output<W: Write>(out: &mut W, text: &[u8]) -> Result<(), ProgramFault>
    ensures ok { OnOk result (Appends (W.contents out.old) (W.contents out.new) text.now) }
    ensures err { IfErr result (λ fault. fault ≡ ProgramFault.Write) }
    ensures part { OnErr result (GainsPart text.now
        (record { before = W.contents out.old; after = W.contents out.new })) }
{
    if text.is_empty() {
        return Ok(());
    }
    print_text(out, text)?;
    Ok(())
}
