//! What is kept under the numbers of a session: the caller's part.
use case_lines::{CaseFault, push_line};
use std::alloc::Global;

/// A message that is kept.
#[derive(Clone, Copy)]
pub struct Row {
    /// Its number.
    pub number: u64,
    /// `V` of a message of the venue, else its MsgType (35).
    pub kind: u8,
    /// Which message of the venue it is, or which message it answers.
    pub which: u64,
    /// When it was sent first.
    pub first: u64,
    /// It was kept under another number before a reset.
    pub is_copy: bool,
}

impl Row {
    /// Whether it is a message of the venue.
    fn is_of_venue(&self) -> bool {
        self.kind == b'V'
    }
}

/// All that is kept, in the order of its numbers.
#[derive(Drop)]
pub struct Rows {
    alloc: Global,
    rows: Vec<Row>,
}

impl Rows {
    /// Nothing.
    pub fn new(alloc: Global) -> Rows {
        Rows {
            alloc,
            rows: Vec::new(alloc),
        }
    }

    /// Keeps a message behind the others.
    pub fn push(&mut self, row: Row) -> Result<(), CaseFault> {
        self.rows.push(row)?;
        Ok(())
    }

    /// Keeps no Rejects and BusinessMessageRejects any more.
    pub fn drop_rejects(&mut self) -> Result<(), CaseFault> {
        let mut left = Vec::new(self.alloc);
        for row in &self.rows {
            if row.is_of_venue() {
                left.push(*row)?;
            }
        }
        self.rows = left;
        Ok(())
    }

    /// How many messages of the venue are kept above a number.
    pub fn above(&self, had: u64) -> u64 {
        let mut count: u64 = 0;
        for row in &self.rows {
            if row.is_of_venue() && row.number > had {
                count = count.saturating_add(1);
            }
        }
        count
    }

    /// Gives these the numbers from 2 on, as copies, and keeps no others.
    pub fn renumber(&mut self, had: u64) -> Result<(), CaseFault> {
        let mut left = Vec::new(self.alloc);
        let mut number: u64 = 2;
        for row in &self.rows {
            if row.is_of_venue() && row.number > had {
                left.push(Row {
                    number,
                    is_copy: true,
                    ..*row
                })?;
                number = number.saturating_add(1);
            }
        }
        self.rows = left;
        Ok(())
    }

    /// A line for each.
    pub fn print(&self, answer: &mut String) -> Result<(), CaseFault> {
        for row in &self.rows {
            let (number, which, first) = (row.number, row.which, row.first);
            let kind = char::from(row.kind);
            let copy = u8::from(row.is_copy);
            let line = format!(in self.alloc; "kept {number} {kind} {which} {first} {copy}")?;
            push_line(answer, line.as_str())?;
        }
        Ok(())
    }
}
