//! Writing to standard output and standard error.
ghost use Rattle.std.specs.Prelude.{◌≡◌, ◌++◌, [], ◌∷◌, IfErr, OnOk, OnErr};
ghost use Rattle.std.specs.Io.KnownBytes.{Appends};
ghost use Rattle.std.specs.Bool.{OnTrue};
ghost use Rattle.std.specs.List.{flat_map};
ghost use Rattle.input_lines.specs.Faults as faults;
ghost use Rattle.live_runs.specs.Written.{GainsPart};

use input_lines::{ProgramFault, fault_line};
use std::io::Write;
use venue_text::LongText;

/// Writes a text, and says whether all of it was taken. A write that fails or takes no byte ends
/// it, an interruption like any other error.
pub fn write_text<W: Write>(out: &mut W, text: &[u8]) -> bool
    ensures whole { OnTrue result (Appends (W.contents out.old) (W.contents out.new) text.now) }
    ensures prefix { GainsPart text.now
        (record { before = W.contents out.old; after = W.contents out.new }) }
{
    let mut rest = text;
    while !rest.is_empty() {
        let Ok(count) = out.write(rest) else {
            return false;
        };
        if count == 0 {
            return false;
        }
        rest = &rest[count..];
    }
    true
}

/// Prints a text as a whole, and flushes it. The fault is [`ProgramFault::Write`], where the writer
/// gives an error or takes no byte; then a front of the text was written.
pub fn print_text<W: Write>(out: &mut W, text: &[u8]) -> Result<(), ProgramFault>
    ensures ok { OnOk result (Appends (W.contents out.old) (W.contents out.new) text.now) }
    ensures err { IfErr result (λ fault. fault ≡ ProgramFault.Write) }
    ensures part { OnErr result (GainsPart text.now
        (record { before = W.contents out.old; after = W.contents out.new })) }
{
    if !write_text(out, text) {
        return Err(ProgramFault::Write);
    }
    let flushed = out.flush();
    if flushed.is_err() {
        return Err(ProgramFault::Write);
    }
    Ok(())
}

/// Prints a long text as a whole, and flushes it, as [`print_text`] does.
pub fn print_long<W: Write>(out: &mut W, text: &LongText) -> Result<(), ProgramFault>
    ensures ok { OnOk result (Appends (W.contents out.old) (W.contents out.new) text.now) }
    ensures err { IfErr result (λ fault. fault ≡ ProgramFault.Write) }
    ensures part { OnErr result (GainsPart text.now
        (record { before = W.contents out.old; after = W.contents out.new })) }
{
    if !write_blocks(out, text.blocks()) {
        return Err(ProgramFault::Write);
    }
    let flushed = out.flush();
    if flushed.is_err() {
        return Err(ProgramFault::Write);
    }
    Ok(())
}

/// Writes texts one behind the other, as [`write_text`] writes one.
fn write_blocks<W: Write>(out: &mut W, blocks: &[Vec<u8>]) -> bool
    ensures whole { OnTrue result (Appends (W.contents out.old) (W.contents out.new)
        (flat_map (λ block. block.items) blocks.now)) }
    ensures prefix { GainsPart (flat_map (λ block. block.items) blocks.now)
        (record { before = W.contents out.old; after = W.contents out.new }) }
{
    for block in blocks {
        if !write_text(out, block.as_slice()) {
            return false;
        }
    }
    true
}

/// Tells a fault of a run in one line, and returns the status of a run that has one. `argument` is
/// the one that names a firm.
pub fn report<E: Write>(err: &mut E, argument: &[u8], fault: &ProgramFault) -> u8
    ensures status { result ≡ 1 }
    ensures told { GainsPart (faults.told_line argument.now fault.now)
        (record { before = E.contents err.old; after = E.contents err.new }) }
{
    let line = fault_line(fault);
    if !matches!(fault, ProgramFault::Firm) {
        write_text(err, line.as_bytes());
        return 1;
    }
    write_named(err, line.as_bytes(), argument);
    1
}

/// Writes a line: its front, and the argument that it ends with.
fn write_named<E: Write>(err: &mut E, front: &[u8], argument: &[u8])
    ensures { GainsPart (front.now ++ argument.now ++ 10 ∷ [])
        (record { before = E.contents err.old; after = E.contents err.new }) }
{
    if !write_text(err, front) {
        return;
    }
    if !write_text(err, argument) {
        return;
    }
    write_text(err, b"\n");
}
