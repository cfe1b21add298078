//! The process: its arguments, and the exit code of its run.
ghost use Rattle.std.specs.Prelude.{map, string_bytes};
ghost use Rattle.std.specs.Process.{exit_status};
ghost use Rattle.venue_commands.specs.Runs as spec;

use crate::program::run_program;
use input_lines::ProgramFault;
use live_runs::{report, write_text};
use std::alloc::Global;
use std::env;
use std::io::{ErrorKind, Read, Write};
use std::marker::Sync;
use std::process::ExitCode;
use std::rt::Env;
use std::sync::Wait;
use std::thread::Threads;
use thiserror::Error;

/// Why the arguments of the process could not be read.
#[derive(Debug, Drop, Error)]
pub enum ArgumentFault {
    /// One of them is no UTF-8.
    #[error("invalid UTF-8 was detected in one or more arguments")]
    NotUtf8,
    /// Memory was refused.
    #[error("out of memory")]
    Memory,
}

/// What is told of an argument that is no UTF-8.
const NOT_UTF8: &str = "error: invalid UTF-8 was detected in one or more arguments

For more information, try '--help'.
";

/// The arguments behind the program's name.
pub fn process_arguments<R: Env + AllocGlobal>(rt: &R) -> Result<Vec<String>, ArgumentFault> {
    let all = match env::args(rt) {
        Ok(all) => all,
        Err(error) => return Err(argument_fault(error.kind())),
    };
    let mut arguments = Vec::new(rt.alloc());
    for argument in all.skip(1) {
        if arguments.push(argument).is_err() {
            return Err(ArgumentFault::Memory);
        }
    }
    Ok(arguments)
}

/// Why arguments could not be read, by the kind of the error: one that is no UTF-8 is invalid data.
fn argument_fault(kind: ErrorKind) -> ArgumentFault {
    match kind {
        ErrorKind::InvalidData => ArgumentFault::NotUtf8,
        _ => ArgumentFault::Memory,
    }
}

/// Runs the program with the arguments of the process, and gives the process the status of the run.
pub fn run_process<H: Threads + Wait + Sync, R: Read, W: Write, E: Write>(
    rt: &H,
    alloc: Global,
    arguments: &Result<Vec<String>, ArgumentFault>,
    input: &mut R,
    out: &mut W,
    err: &mut E,
) -> ExitCode
    ensures { spec.EndsProcess (spec.as_texts (λ v. map string_bytes v.items) arguments.now)
        (exit_status result) (record {
          input = R.remaining input.old;
          left = R.remaining input.new;
          out = record { before = W.contents out.old; after = W.contents out.new };
          err = record { before = E.contents err.old; after = E.contents err.new };
        }) }
{
    let status = run_status(rt, alloc, arguments, input, out, err);
    ExitCode::from(status)
}

/// The status of a run with these arguments.
fn run_status<H: Threads + Wait + Sync, R: Read, W: Write, E: Write>(
    rt: &H,
    alloc: Global,
    arguments: &Result<Vec<String>, ArgumentFault>,
    input: &mut R,
    out: &mut W,
    err: &mut E,
) -> u8
    ensures { spec.EndsProcess (spec.as_texts (λ v. map string_bytes v.items) arguments.now)
        result (record {
          input = R.remaining input.old;
          left = R.remaining input.new;
          out = record { before = W.contents out.old; after = W.contents out.new };
          err = record { before = E.contents err.old; after = E.contents err.new };
        }) }
{
    match arguments {
        Ok(arguments) => run_program(rt, alloc, arguments.as_slice(), input, out, err),
        Err(ArgumentFault::NotUtf8) => {
            write_text(err, NOT_UTF8.as_bytes());
            2
        }
        Err(ArgumentFault::Memory) => report(err, b"", &ProgramFault::Memory),
    }
}
