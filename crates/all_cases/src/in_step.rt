//! A run that is given each line of steps once the answer of the line before it was flushed.
use crate::runs::Ended;
use crate::streams::{Pace, Sink};
use std::alloc::Global;
use std::cell::Cell;
use std::io;
use std::io::{Read, Write};
use std::marker::Sync;
use std::sync::Wait;
use std::thread::Threads;
use venue_commands::run_program;

/// A reader that gives a line a call. Behind the first line `%%` it fails, unless the writer was
/// flushed once for each line that was given there.
#[derive(Drop)]
struct Asking<'a> {
    bytes: &'a [u8],
    /// How many lines were given behind that line, once it was.
    asked: Option<u64>,
    flushed: &'a Cell<u64>,
}

/// A writer that counts how often it is flushed.
#[derive(Drop)]
struct Answering<'a> {
    held: Vec<u8>,
    flushed: &'a Cell<u64>,
}

/// How many bytes the first line of a text has, with its line feed.
fn line_len(text: &[u8]) -> usize {
    match text.iter().position(|byte| *byte == b'\n') {
        Some(at) => at.saturating_add(1),
        None => text.len(),
    }
}

impl<'a> Asking<'a> {
    /// Whether each line that was given has its answer.
    fn is_answered(&self) -> bool {
        match self.asked {
            Some(asked) => self.flushed.get() == asked,
            None => true,
        }
    }

    /// Counts a line that is given.
    fn count(&mut self, line: &[u8]) {
        if let Some(asked) = self.asked {
            self.asked = Some(asked.saturating_add(1));
            return;
        }
        if line == b"%%\n".as_slice() {
            self.asked = Some(0);
        }
    }
}

impl<'a> Read for Asking<'a> {
    fn read(&mut self, buf: &mut [u8]) -> io::Result<usize> {
        if !self.is_answered() {
            return Err(io::Error::from(io::ErrorKind::Other));
        }
        let line = line_len(self.bytes);
        let count = buf.len().min(self.bytes.len()).min(line);
        let (front, behind) = self.bytes.split_at(count);
        buf[..count].copy_from_slice(front);
        self.bytes = behind;
        if count > 0 {
            self.count(front);
        }
        Ok(count)
    }
}

impl<'a> Write for Answering<'a> {
    fn write(&mut self, buf: &[u8]) -> io::Result<usize> {
        self.held.extend_from_slice(buf)?;
        Ok(buf.len())
    }

    fn flush(&mut self) -> io::Result<()> {
        self.flushed.set(self.flushed.get().saturating_add(1));
        Ok(())
    }
}

/// Runs the program with these arguments over an input, line by line.
pub(crate) fn ran_in_step<H: Threads + Wait + Sync>(
    rt: &H,
    alloc: Global,
    words: &[&str],
    bytes: &[u8],
) -> Ended {
    let flushed = Cell::new(0);
    let mut input = Asking {
        bytes,
        asked: None,
        flushed: &flushed,
    };
    let mut out = Answering {
        held: Vec::new(alloc),
        flushed: &flushed,
    };
    let mut err = Sink::new(alloc, Pace::whole());
    let status = run_program(rt, alloc, words, &mut input, &mut out, &mut err);
    let Answering { held, .. } = out;
    Ended {
        status,
        out: held,
        err: err.into_held(),
    }
}
