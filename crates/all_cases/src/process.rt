//! A process with arguments in memory.
use crate::runs::{Ended, words_of};
use crate::streams::{Pace, Sink, Source};
use case_lines::{CaseFault, bytes_of};
use std::alloc::Global;
use std::env::FillError;
use std::marker::Sync;
use std::process::ExitCode;
use std::rt::Env;
use std::sync::Wait;
use std::thread::Threads;
use venue_commands::{process_arguments, run_process};

/// A process with these arguments, the first of them its name.
#[derive(Drop)]
struct Process {
    arguments: Vec<Vec<u8>>,
}

impl Env for Process {
    fn arg(&self, i: usize, buf: &mut [u8]) -> Result<usize, FillError> {
        let Some(argument) = self.arguments.get(i) else {
            return Err(FillError::NotPresent);
        };
        if argument.len() > buf.len() {
            return Err(FillError::TooLong);
        }
        buf[..argument.len()].copy_from_slice(argument.as_slice());
        Ok(argument.len())
    }

    fn var(&self, _name: &str, _buf: &mut [u8]) -> Result<usize, FillError> {
        Err(FillError::NotPresent)
    }

    fn var_at(&self, _i: usize, _buf: &mut [u8]) -> Result<usize, FillError> {
        Err(FillError::NotPresent)
    }
}

/// How a process with these arguments ends over an input.
pub(crate) fn ended_process<H: Threads + Wait + Sync>(
    rt: &H,
    alloc: Global,
    words: &str,
    bytes: &[u8],
) -> Result<Ended, CaseFault> {
    let process = (process_of(alloc, words)?, alloc);
    let arguments = process_arguments(&process);
    let mut input = Source::new(bytes, Pace::whole());
    let mut out = Sink::new(alloc, Pace::whole());
    let mut err = Sink::new(alloc, Pace::whole());
    let code = run_process(rt, alloc, &arguments, &mut input, &mut out, &mut err);
    let status = status_of(&code)?;
    Ok(Ended {
        status,
        out: out.into_held(),
        err: err.into_held(),
    })
}

/// The process with these arguments behind its name, in which `\xHH` stands for any byte.
fn process_of(alloc: Global, words: &str) -> Result<Process, CaseFault> {
    let mut arguments = Vec::new(alloc);
    arguments.push(bytes_of(alloc, "rfq_venue")?)?;
    let words = words_of(alloc, words)?;
    for word in words.as_slice() {
        arguments.push(bytes_of(alloc, word)?)?;
    }
    Ok(Process { arguments })
}

/// The status that an exit code gives.
fn status_of(code: &ExitCode) -> Result<u8, CaseFault> {
    for status in 0..3_u8 {
        if *code == ExitCode::from(status) {
            return Ok(status);
        }
    }
    Err(CaseFault::Condition)
}
