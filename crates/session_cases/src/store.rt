//! What is kept under the numbers of a session.
use case_lines::CaseFault;
use fix_fields::{Moment, read_frame};
use fix_sessions::{Body, Stored};
use std::alloc::Global;

/// A message as it is kept.
#[derive(Drop)]
pub struct Entry {
    /// Its number.
    pub number: u64,
    /// Its frame: MsgType (35) and what stands behind the session's header.
    pub bytes: Vec<u8>,
    /// The moment at which it was kept.
    pub first: Moment,
    /// It was kept under another number before a reset.
    pub is_copy: bool,
    /// It is a Reject or a BusinessMessageReject of the session.
    pub is_own: bool,
}

impl Entry {
    /// Whether its MsgType (35) is this one.
    pub fn is(&self, msg_type: &[u8]) -> bool {
        match read_frame(&self.bytes) {
            Ok(frame) => frame.get(35) == Some(msg_type),
            Err(_) => false,
        }
    }

    /// The message as a session takes it.
    pub fn stored(&self) -> Option<Stored<'_>> {
        let Ok(frame) = read_frame(&self.bytes) else {
            return None;
        };
        let body = Body::new(frame)?;
        Some(Stored {
            body,
            first: self.first,
            is_copy: self.is_copy,
        })
    }
}

/// What is kept, in the order of its numbers.
#[derive(Drop)]
pub struct Store {
    alloc: Global,
    entries: Vec<Entry>,
}

impl Store {
    /// Nothing.
    pub fn new(alloc: Global) -> Store {
        Store {
            alloc,
            entries: Vec::new(alloc),
        }
    }

    /// Keeps a message behind the others.
    pub fn push(&mut self, entry: Entry) -> Result<(), CaseFault> {
        self.entries.push(entry)?;
        Ok(())
    }

    /// What is kept under a number.
    pub fn at(&self, number: u64) -> Option<Stored<'_>> {
        for entry in &self.entries {
            if entry.number == number {
                return entry.stored();
            }
        }
        None
    }

    /// The bytes that are kept under a number.
    pub fn bytes_at(&self, number: u64) -> Result<Vec<u8>, CaseFault> {
        for entry in &self.entries {
            if entry.number == number {
                return Ok(entry.bytes.clone()?);
            }
        }
        Ok(Vec::new(self.alloc))
    }

    /// The first number above this one under which something is kept.
    pub fn behind(&self, number: u64) -> u64 {
        for entry in &self.entries {
            if entry.number > number {
                return entry.number;
            }
        }
        999_999_999
    }

    /// Keeps no Rejects and BusinessMessageRejects of the session any more.
    pub fn drop_rejects(&mut self) -> Result<(), CaseFault> {
        let mut left = Vec::new(self.alloc);
        for entry in self.entries.drain(..) {
            if !entry.is_own {
                left.push(entry)?;
            }
        }
        self.entries = left;
        Ok(())
    }

    /// Gives those messages of the venue above a number the numbers from 2 on, as copies, and keeps
    /// no others. It answers how many they are.
    pub fn renumber(&mut self, had: u64) -> Result<u64, CaseFault> {
        let mut left = Vec::new(self.alloc);
        for entry in self.entries.drain(..) {
            if entry.number <= had || entry.is_own || entry.is(b"0") {
                continue;
            }
            let number = left.len() as u64 + 2;
            left.push(Entry {
                number,
                is_copy: true,
                ..entry
            })?;
        }
        let copies = left.len() as u64;
        self.entries = left;
        Ok(copies)
    }
}
