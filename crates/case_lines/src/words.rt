//! The words of a line.
use crate::faults::CaseFault;
use fix_fields::{Date, Moment, read_moment};

/// The words of a line, divided by one space each.
#[derive(Drop)]
pub struct Words<'a> {
    left: &'a str,
}

impl<'a> Words<'a> {
    /// The words of this line.
    pub fn of(line: &'a str) -> Words<'a> {
        Words { left: line }
    }

    /// The next word. There is none at the line's end, and none between two spaces.
    pub fn word(&mut self) -> Result<&'a str, CaseFault> {
        let left = self.left;
        let (word, behind) = left.split_once(' ').unwrap_or((left, ""));
        if word.is_empty() {
            return Err(CaseFault::Form);
        }
        self.left = behind;
        Ok(word)
    }

    /// The next word, as a number in decimal.
    pub fn number(&mut self) -> Result<u64, CaseFault> {
        let word = self.word()?;
        word.parse::<u64>().map_err(|_| CaseFault::Form)
    }

    /// The next word, as a number of 32 bits in decimal.
    pub fn short_number(&mut self) -> Result<u32, CaseFault> {
        let word = self.word()?;
        word.parse::<u32>().map_err(|_| CaseFault::Form)
    }

    /// The next word, as the number of a firm in decimal.
    pub fn firm(&mut self) -> Result<u16, CaseFault> {
        let word = self.word()?;
        word.parse::<u16>().map_err(|_| CaseFault::Form)
    }

    /// The next word, as a moment of the day: `HH:MM:SS` or `HH:MM:SS.sss`.
    pub fn moment(&mut self) -> Result<Moment, CaseFault> {
        let word = self.word()?;
        moment_of(word.as_bytes()).ok_or(CaseFault::Form)
    }

    /// All that is left of the line.
    pub fn rest(&mut self) -> &'a str {
        let left = self.left;
        self.left = "";
        left
    }

    /// The line has no further word.
    pub fn end(&self) -> Result<(), CaseFault> {
        if self.left.is_empty() {
            return Ok(());
        }
        Err(CaseFault::Form)
    }

    /// Whether the line has no further word.
    pub fn is_at_end(&self) -> bool {
        self.left.is_empty()
    }
}

/// The moment that a time of day spells.
fn moment_of(time: &[u8]) -> Option<Moment> {
    let date = Date::new(b"20250314")?;
    let mut stamp = *b"20250314-00:00:00.000";
    if time.len() > 12 {
        return None;
    }
    let end = 9 + time.len();
    stamp[9..end].copy_from_slice(time);
    read_moment(&date, &stamp[..end]).ok()
}
