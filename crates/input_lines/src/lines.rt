//! The lines of a text, and the parts of a text that a byte divides.
ghost use Rattle.std.specs.Prelude.{◌≡◌, ◌<◌, ◌≤◌, ◌+◌, ◌==◌, length};
ghost use Rattle.input_lines.specs.Lines as spec;

use crate::parts::{cut_at, same_text};
use std::marker::Model;

/// How many bytes an input has at most.
pub const MOST_INPUT: usize = 16_777_216;

/// The parts of a text that are each ended by one byte, the last one also without it.
#[derive(Drop)]
pub struct Parts<'a> {
    rest: &'a [u8],
    end: u8,
}

impl<'a> Model for Parts<'a> {
    ghost use Rattle.std.specs.Prelude.{ℕ, List};
    ghost use Rattle.input_lines.specs.Lines.{parts_of};

    ghost Value = { List (List ℕ) };

    ghost view = { λ parts. parts_of parts.end parts.rest.now };
}

impl<'a> Parts<'a> {
    /// The parts of `text` that `end` ends.
    pub fn new(text: &'a [u8], end: u8) -> Self
        ensures { result ≡ spec.parts_of end text.entry.now }
    {
        Parts { rest: text, end }
    }
}

impl<'a> Iterator for Parts<'a> {
    ghost use Rattle.std.specs.Iterator.{YieldsFirstBy, item_count};

    type Item = &'a [u8];

    ghost next_gives = { YieldsFirstBy (λ part. part.now) (λ rest. rest) };

    ghost remaining = { item_count (λ rest. rest) };

    fn next(&mut self) -> Option<&'a [u8]> {
        if self.rest.is_empty() {
            return None;
        }
        let (part, rest) = cut_at(self.rest, self.end);
        self.rest = rest;
        Some(part)
    }
}

/// The lines of a text that are not skipped, each with its number.
#[derive(Drop)]
pub struct NumberedLines<'a> {
    rest: &'a [u8],
    number: usize,
}

impl<'a> Model for NumberedLines<'a> {
    ghost use Rattle.std.specs.Prelude.{ℕ, List, ◌+◌, ◌≤◌, ◌<◌, length};
    ghost use Rattle.input_lines.specs.Lines.{spoken_from, parts_of};
    ghost use Rattle.input_lines.specs.declared.lines.TheConstants.{MOST_INPUT};

    ghost Value = { List (ℕ × List ℕ) };

    ghost view = { λ lines. spoken_from lines.number (parts_of 10 lines.rest.now) };

    ghost invariant = { λ lines. lines.number + length lines.rest.now ≤ MOST_INPUT + 1 };
}

impl<'a> NumberedLines<'a> {
    /// The lines of a text that are not skipped.
    pub fn new(text: &'a [u8]) -> Self
        requires { length text.now ≤ MOST_INPUT }
        ensures { result ≡ spec.spoken_lines text.entry.now }
    {
        NumberedLines::numbered(text, 1)
    }

    /// The same of a text whose first line has this number.
    pub(crate) fn numbered(text: &'a [u8], number: usize) -> Self
        requires { number + length text.now ≤ MOST_INPUT + 1 }
        ensures { result ≡ spec.spoken_from number (spec.lines_of text.entry.now) }
    {
        NumberedLines { rest: text, number }
    }
}

impl<'a> Iterator for NumberedLines<'a> {
    ghost use Rattle.std.specs.Iterator.{YieldsFirstBy, item_count};

    type Item = (usize, &'a [u8]);

    ghost next_gives = { YieldsFirstBy (λ line. (line.0, line.1.now)) (λ rest. rest) };

    ghost remaining = { item_count (λ rest. rest) };

    fn next(&mut self) -> Option<(usize, &'a [u8])> {
        while !self.rest.is_empty() {
            let number = self.number;
            let (line, rest) = cut_at(self.rest, b'\n');
            self.rest = rest;
            self.number = number + 1;
            if !is_skipped(line) {
                return Some((number, line));
            }
        }
        None
    }
}

/// Whether a line says nothing: it is empty or begins with `#`.
pub fn is_skipped(line: &[u8]) -> bool
    ensures { result ≡ spec.is_skipped line.now }
{
    match line.first() {
        None => true,
        Some(first) => *first == b'#',
    }
}

/// Whether a line of the text is `%%`, which divides an input.
pub fn has_divider(text: &[u8]) -> bool
    ensures { result ≡ spec.has_divider text.now }
{
    Parts::new(text, b'\n').any(|line| same_text(line, b"%%"))
}

/// The number that a line behind the last one would have.
pub fn one_past(text: &[u8]) -> usize
    requires { length text.now ≤ MOST_INPUT }
    ensures { result ≡ spec.one_past text.now }
{
    Parts::new(text, b'\n').count() + 1
}
