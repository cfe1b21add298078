//! Readers and writers in memory that give or take little, or fail.
ghost use Rattle.std.specs.Prelude.{◌≤◌};

use std::alloc::Global;
use std::io;
use std::io::{Read, Write};

/// How a reader gives, or a writer takes.
#[derive(Clone, Copy, Debug, PartialEq, Eq)]
pub(crate) struct Pace {
    /// How many bytes at most in one call.
    pub(crate) most: usize,
    /// How many bytes before it fails.
    pub(crate) left: usize,
    /// A writer that takes nothing where it would fail.
    pub(crate) stops: bool,
    /// A writer whose flush fails.
    pub(crate) unflushed: bool,
}

impl Pace {
    /// All of it, at once.
    pub(crate) fn whole() -> Pace {
        Pace {
            most: usize::MAX,
            left: usize::MAX,
            stops: false,
            unflushed: false,
        }
    }

    /// All of it up to this many bytes.
    pub(crate) fn up_to(left: usize) -> Pace {
        let mut pace = Pace::whole();
        pace.left = left;
        pace
    }
}

/// A reader of bytes that fails once, where its pace says so, and then goes on.
#[derive(Drop)]
pub(crate) struct Source<'a> {
    bytes: &'a [u8],
    pace: Pace,
}

impl<'a> Source<'a> {
    /// A reader of these bytes.
    pub(crate) fn new(bytes: &'a [u8], pace: Pace) -> Source<'a> {
        Source { bytes, pace }
    }
}

impl<'a> Read for Source<'a> {
    fn read(&mut self, buf: &mut [u8]) -> io::Result<usize> {
        if self.pace.left == 0 {
            self.pace.left = usize::MAX;
            return Err(io::Error::from(io::ErrorKind::Interrupted));
        }
        let most = self.pace.most.min(self.pace.left);
        let count = buf.len().min(self.bytes.len()).min(most);
        let (front, behind) = self.bytes.split_at(count);
        buf[..count].copy_from_slice(front);
        self.bytes = behind;
        self.pace.left -= count;
        Ok(count)
    }
}

/// A writer that holds what it takes.
#[derive(Drop)]
pub(crate) struct Sink {
    held: Vec<u8>,
    pace: Pace,
}

impl Sink {
    /// A writer that holds nothing yet.
    pub(crate) fn new(alloc: Global, pace: Pace) -> Sink {
        Sink {
            held: Vec::new(alloc),
            pace,
        }
    }

    /// What it holds.
    pub(crate) fn into_held(self) -> Vec<u8> {
        self.held
    }
}

impl Write for Sink {
    fn write(&mut self, buf: &[u8]) -> io::Result<usize> {
        let count = buf.len().min(self.pace.most).min(self.pace.left);
        if count == 0 && !self.pace.stops {
            return Err(io::Error::from(io::ErrorKind::Interrupted));
        }
        self.held.extend_from_slice(&buf[..count])?;
        self.pace.left -= count;
        Ok(count)
    }

    fn flush(&mut self) -> io::Result<()> {
        if self.pace.unflushed {
            return Err(io::Error::from(io::ErrorKind::Other));
        }
        Ok(())
    }
}
