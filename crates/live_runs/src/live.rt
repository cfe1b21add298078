//! The commands that take a day line by line: `live`, which answers each line as it comes, and with
//! `--live` those that print at the end (`replay`, `due`, `dues`, `blotter` and `compare`).
ghost use Rattle.std.specs.Prelude.{◌≡◌, ◌==◌, ◌≤◌, ◌++◌, ◌⊎◌, [], ◌∷◌, length};
ghost use Rattle.std.specs.Prelude.{IfErr, IfSome, OnOk};
ghost use Rattle.live_runs.specs.LineForms.{meant_form};
ghost use Rattle.live_runs.specs.LiveRuns as spec;
ghost use Rattle.live_runs.specs.LiveCalls as stages;

use crate::line_forms::LineForm;
use crate::output::report;
use crate::stages::{Stage, answer_at};
use fix_fields::Memory;
use input_lines::{MOST_INPUT, ProgramFault};
use std::alloc::Global;
use std::io::{Read, Write};
use std::mem;

/// How many lines a day that goes on may have.
pub const MOST_LINES: usize = 1_000_000_000_000_000;

/// How many bytes are read at once.
const CHUNK: usize = 16_384;

/// How many bytes a line has room for at first: most lines have no more.
const USUAL_LINE: usize = 160;

/// A run of `live`: what was read so far.
#[derive(Drop)]
struct LiveRun<'a> {
    alloc: Global,
    form: LineForm<'a>,
    /// The number of the line that comes next, or that has begun.
    number: usize,
    /// Its bytes so far.
    line: Vec<u8>,
    stage: Stage,
}

/// Runs `live`: reads a configuration and a line `%%`, and then answers each line of steps before
/// the next one is read. A line at fault is told on `err`, and the day goes on. Or the same of a
/// command with `--live`, which prints at the end. `argument` is that of the command.
pub fn run_live<R: Read, W: Write, E: Write>(
    alloc: Global,
    form: LineForm<'_>,
    argument: &[u8],
    input: &mut R,
    out: &mut W,
    err: &mut E,
) -> u8
    ensures { spec.EndsInLive (meant_form form.entry) argument.now result (record {
      input = R.remaining input.old;
      left = R.remaining input.new;
      out = record { before = W.contents out.old; after = W.contents out.new };
      err = record { before = E.contents err.old; after = E.contents err.new };
    }) }
{
    let mut run = LiveRun::new(alloc, form);
    let Err(fault) = answer_all(&mut run, input, out, err) else {
        return 0;
    };
    report(err, argument, &fault)
}

/// Reads to the end of the input.
fn answer_all<R: Read, W: Write, E: Write>(
    run: &mut LiveRun<'_>,
    input: &mut R,
    out: &mut W,
    err: &mut E,
) -> Result<(), ProgramFault>
    ensures ok { OnOk result (IfSome (R.remaining input.old) (λ all.
        stages.AnswersAll all run.old
        (record { before = W.contents out.old; after = W.contents out.new })
        (record { before = E.contents err.old; after = E.contents err.new }))) }
    ensures err { IfErr result (λ fault. IfSome (R.remaining input.old) (λ all.
        stages.FailsIn all (R.remaining input.new) fault run.old
        (record { before = W.contents out.old; after = W.contents out.new })
        (record { before = E.contents err.old; after = E.contents err.new }))) }
{
    let mut chunk = [0; CHUNK];
    for _ in 0..u64::MAX {
        let Ok(count) = input.read(&mut chunk) else {
            return Err(ProgramFault::Read);
        };
        if count == 0 {
            run.end(out, err)?;
            return Ok(());
        }
        run.feed(&chunk[..count], out, err)?;
    }
    // No reader gives so much.
    Err(ProgramFault::Read)
}

impl<'a> LiveRun<'a> {
    /// Nothing was read.
    fn new(alloc: Global, form: LineForm<'a>) -> Self
        ensures first { stages.StandsFirst (meant_form form.entry) result }
    {
        LiveRun {
            alloc,
            form,
            number: 1,
            line: Vec::new(alloc),
            stage: Stage::Configuration(Vec::new(alloc)),
        }
    }

    /// The next bytes come: each line that they end is answered.
    fn feed<W: Write, E: Write>(
        &mut self,
        bytes: &[u8],
        out: &mut W,
        err: &mut E,
    ) -> Result<(), ProgramFault>
        ensures ok { OnOk result (stages.Feeds bytes.now self.old self.new
            (record { before = W.contents out.old; after = W.contents out.new })
            (record { before = E.contents err.old; after = E.contents err.new })) }
        ensures err { IfErr result (λ fault. stages.FeedFails bytes.now self.old fault
            (record { before = W.contents out.old; after = W.contents out.new })
            (record { before = E.contents err.old; after = E.contents err.new })) }
    {
        for byte in bytes {
            self.feed_byte(*byte, out, err)?;
        }
        Ok(())
    }

    /// The next byte comes.
    fn feed_byte<W: Write, E: Write>(
        &mut self,
        byte: u8,
        out: &mut W,
        err: &mut E,
    ) -> Result<(), ProgramFault>
        ensures ok { OnOk result (stages.Feeds (byte ∷ []) self.old self.new
            (record { before = W.contents out.old; after = W.contents out.new })
            (record { before = E.contents err.old; after = E.contents err.new })) }
        ensures err { IfErr result (λ fault. stages.FeedFails (byte ∷ []) self.old fault
            (record { before = W.contents out.old; after = W.contents out.new })
            (record { before = E.contents err.old; after = E.contents err.new })) }
    {
        if byte == b'\n' {
            self.output_line(out, err)?;
            return Ok(());
        }
        put(&mut self.line, byte)?;
        Ok(())
    }

    /// The input ends: bytes behind the last line feed are a line, too.
    fn end<W: Write, E: Write>(&mut self, out: &mut W, err: &mut E) -> Result<(), ProgramFault>
        ensures ok { OnOk result (stages.Ends self.old
            (record { before = W.contents out.old; after = W.contents out.new })
            (record { before = E.contents err.old; after = E.contents err.new })) }
        ensures err { IfErr result (λ fault. stages.EndFails self.old fault
            (record { before = W.contents out.old; after = W.contents out.new })
            (record { before = E.contents err.old; after = E.contents err.new })) }
    {
        if is_bare(&self.line) {
            let stage = mem::replace(&mut self.stage, Stage::Configuration(Vec::new(self.alloc)));
            stage.close(self.alloc, out)?;
            return Ok(());
        }
        self.output_line(out, err)?;
        let stage = mem::replace(&mut self.stage, Stage::Configuration(Vec::new(self.alloc)));
        stage.close(self.alloc, out)?;
        Ok(())
    }

    /// The line that has begun is whole.
    fn output_line<W: Write, E: Write>(
        &mut self,
        out: &mut W,
        err: &mut E,
    ) -> Result<(), ProgramFault>
        ensures empty { OnOk result (self.new.line.items ≡ []) }
        ensures ok { OnOk result (stages.LineTakes self.old self.new
            (record { before = W.contents out.old; after = W.contents out.new })
            (record { before = E.contents err.old; after = E.contents err.new })) }
        ensures err { IfErr result (λ fault. stages.LineFails self.old fault
            (record { before = W.contents out.old; after = W.contents out.new })
            (record { before = E.contents err.old; after = E.contents err.new })) }
    {
        let number = self.number;
        if number > MOST_LINES {
            return Err(ProgramFault::Input);
        }
        let line = mem::replace(&mut self.line, Vec::new(self.alloc));
        self.number = number + 1;
        let form = self.form;
        answer_at(self.alloc, form, number, &mut self.stage, &line, out, err)?;
        Ok(())
    }
}

/// Whether a line has no byte yet.
fn is_bare(line: &Vec<u8>) -> bool
    ensures { result ≡ (length line.now.items == 0) }
{
    line.is_empty()
}

/// A byte of the line that has begun.
fn put(line: &mut Vec<u8>, byte: u8) -> Result<(), ProgramFault>
    ensures ok { OnOk result (line.new.items ≡ line.old.items ++ byte ∷ []) }
    ensures short { OnOk result (length line.new.items ≤ MOST_INPUT) }
    ensures err { IfErr result (λ fault. (fault ≡ ProgramFault.Memory)
        ⊎ ((fault ≡ ProgramFault.Input) × MOST_INPUT ≤ length line.old.items)) }
{
    if line.len() >= MOST_INPUT {
        return Err(ProgramFault::Input);
    }
    make_room(line)?;
    line.push(byte)?;
    Ok(())
}

/// Before its first byte a line gets room for a usual one.
#[inline(always)]
fn make_room(line: &mut Vec<u8>) -> Result<(), Memory>
    ensures { line.new.items ≡ line.old.items }
{
    if !line.is_empty() {
        return Ok(());
    }
    line.reserve(USUAL_LINE)?;
    Ok(())
}
