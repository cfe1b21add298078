//! A run of the program.
ghost use Rattle.std.specs.Prelude.{◌≡◌, [], ◌∷◌, None, map, IfErr, IfSome, OnOk};
ghost use Rattle.clap.specs.Words.{kind_of};
ghost use Rattle.venue_commands.specs.Runs.{line_form};
ghost use Rattle.command_arguments.specs.Arguments.{meant};
ghost use Rattle.venue_commands.specs.Runs as spec;

use crate::texts::{command_argument, command_text, line_form};
use clap::Error;
use command_arguments::{Response, VenueCommand, read_command, response_to};
use input_lines::ProgramFault;
use live_runs::{print_long, print_text, read_input, report, run_live, write_text};
use std::alloc::Global;
use std::convert::AsStr;
use std::io::{Read, Write};
use std::marker::Sync;
use std::sync::Wait;
use std::thread::Threads;

/// Runs the program: reads what its arguments ask for from `input`, prints it to `out`, and
/// returns the exit status: 0 is done. A fault is told in one line on `err`, with status 1; wrong
/// arguments have status 2. No arguments at all mean `alone`.
pub fn run_program<H: Threads + Wait + Sync, S: AsStr, R: Read, W: Write, E: Write>(
    rt: &H,
    alloc: Global,
    arguments: &[S],
    input: &mut R,
    out: &mut W,
    err: &mut E,
) -> u8
    ensures { spec.EndsAsAsked (map S.text arguments.now) result (record {
      input = R.remaining input.old;
      left = R.remaining input.new;
      out = record { before = W.contents out.old; after = W.contents out.new };
      err = record { before = E.contents err.old; after = E.contents err.new };
    }) }
{
    if arguments.is_empty() {
        let command = VenueCommand::Alone {
            frames: false,
            notes: false,
        };
        return run_command(rt, alloc, &command, input, out, err);
    }
    match read_command(alloc, arguments) {
        Ok(command) => run_command(rt, alloc, &command, input, out, err),
        Err(error) => report_error(alloc, &error, out, err),
    }
}

/// Prints what a command asks for, or tells the fault.
fn run_command<H: Threads + Wait + Sync, R: Read, W: Write, E: Write>(
    rt: &H,
    alloc: Global,
    command: &VenueCommand<'_>,
    input: &mut R,
    out: &mut W,
    err: &mut E,
) -> u8
    ensures { spec.EndsOf (line_form (meant command.now)) (meant command.now) result (record {
      input = R.remaining input.old;
      left = R.remaining input.new;
      out = record { before = W.contents out.old; after = W.contents out.new };
      err = record { before = E.contents err.old; after = E.contents err.new };
    }) }
{
    let Some(form) = line_form(command) else {
        return run_text_command(rt, alloc, command, input, out, err);
    };
    run_live(alloc, form, command_argument(command), input, out, err)
}

/// The same of a command that prints one text.
fn run_text_command<H: Threads + Wait + Sync, R: Read, W: Write, E: Write>(
    rt: &H,
    alloc: Global,
    command: &VenueCommand<'_>,
    input: &mut R,
    out: &mut W,
    err: &mut E,
) -> u8
    requires { line_form (meant command.now) ≡ None }
    ensures { spec.EndsInCommand (meant command.now) result (record {
      input = R.remaining input.old;
      left = R.remaining input.new;
      out = record { before = W.contents out.old; after = W.contents out.new };
      err = record { before = E.contents err.old; after = E.contents err.new };
    }) }
{
    let Err(fault) = print_command(rt, alloc, command, input, out) else {
        return 0;
    };
    report(err, command_argument(command), &fault)
}

/// Prints the help that the arguments ask for, or says on `err` why they are wrong.
fn report_error<W: Write, E: Write>(alloc: Global, error: &Error, out: &mut W, err: &mut E) -> u8
    ensures { spec.EndsTold (kind_of error.now ∷ []) result
        (record { before = W.contents out.old; after = W.contents out.new })
        (record { before = E.contents err.old; after = E.contents err.new }) }
{
    match response_to(alloc, error) {
        Response::Help(text) => print_help(text.as_bytes(), out, err),
        Response::Wrong(text) => {
            write_text(err, text.as_bytes());
            2
        }
        Response::Memory => report(err, b"", &ProgramFault::Memory),
    }
}

/// Prints a help text.
fn print_help<W: Write, E: Write>(text: &[u8], out: &mut W, err: &mut E) -> u8
    ensures { spec.EndsInText text.now result
        (record { before = W.contents out.old; after = W.contents out.new })
        (record { before = E.contents err.old; after = E.contents err.new }) }
{
    let Err(fault) = print_text(out, text) else {
        return 0;
    };
    report(err, b"", &fault)
}

/// Prints what a command asks for.
fn print_command<H: Threads + Wait + Sync, R: Read, W: Write>(
    rt: &H,
    alloc: Global,
    command: &VenueCommand<'_>,
    input: &mut R,
    out: &mut W,
) -> Result<(), ProgramFault>
    requires { line_form (meant command.now) ≡ None }
    ensures ok { OnOk result (IfSome (R.remaining input.old) (λ all. spec.HasPrinted
        (meant command.now) all
        (record { before = W.contents out.old; after = W.contents out.new }))) }
    ensures err { IfErr result (λ fault. spec.FaultLeaves (meant command.now) fault
        (R.remaining input.old)
        (record { before = W.contents out.old; after = W.contents out.new })) }
{
    let bytes = read_input(alloc, input)?;
    let text = match command_text(rt, alloc, command, bytes) {
        Ok(text) => text,
        Err(fault) => return Err(fault),
    };
    print_long(out, &text)
}
