//! The parts of an input that lines `%%` divide.
ghost use Rattle.std.specs.Prelude.{◌≡◌, ◌≤◌, ◌+◌, false, length, None, Ok, Err, IfSome};
ghost use Rattle.std.specs.List.{list_any};
ghost use Rattle.input_lines.specs.Lines.{lines_of};
ghost use Rattle.input_lines.specs.PartReading.{StandsApart};
ghost use Rattle.input_lines.specs.VenueParts as spec;

use crate::faults::ProgramFault;
use crate::lines::{MOST_INPUT, NumberedLines, has_divider};
use crate::parts::{cut_at, same_text};
use std::marker::Model;

/// A part of an input, which further lines may divide.
#[derive(Drop)]
pub(crate) struct InputPart<'a> {
    text: &'a [u8],
    first: usize,
}

impl<'a> Model for InputPart<'a> {
    ghost use Rattle.std.specs.Prelude.{◌+◌, ◌≤◌, length};
    ghost use Rattle.input_lines.specs.Lines.{lines_of};
    ghost use Rattle.input_lines.specs.VenueParts.{InputPart};
    ghost use Rattle.input_lines.specs.declared.lines.TheConstants.{MOST_INPUT};

    ghost Value = { InputPart };

    ghost view = { λ part. record { first = part.first; lines = lines_of part.text.now } };

    ghost invariant = { λ part. part.first + length part.text.now ≤ MOST_INPUT + 1 };
}

/// A part of an input behind which a line divides it.
#[derive(Drop)]
pub(crate) struct ClosedPart<'a> {
    text: &'a [u8],
    first: usize,
}

impl<'a> Model for ClosedPart<'a> {
    ghost use Rattle.std.specs.Prelude.{◌≡◌, ◌+◌, ◌≤◌, length};
    ghost use Rattle.input_lines.specs.Lines.{lines_of};
    ghost use Rattle.input_lines.specs.VenueParts.{InputPart, text_of_lines};
    ghost use Rattle.input_lines.specs.declared.lines.TheConstants.{MOST_INPUT};

    ghost Value = { InputPart };

    ghost view = { λ part. record { first = part.first; lines = lines_of part.text.now } };

    ghost invariant = { λ part. (part.first + length part.text.now ≤ MOST_INPUT + 1)
        × (part.text.now ≡ text_of_lines (lines_of part.text.now)) };
}

impl<'a> InputPart<'a> {
    /// The whole of an input.
    pub(crate) fn whole(input: &'a [u8]) -> Self
        requires { length input.now ≤ MOST_INPUT }
        ensures { result ≡ spec.whole input.entry.now }
    {
        InputPart {
            text: input,
            first: 1,
        }
    }

    /// What stands before the first line that divides the part, and what stands behind it.
    #[tactic(auto, using(crate::proofs::PartLemmas::part_is_divided, crate::proofs::PartLemmas::part_is_whole))]
    pub(crate) fn divide(self) -> Result<(ClosedPart<'a>, InputPart<'a>), ProgramFault>
        ensures { result ≡ spec.divided self.entry }
    {
        let Some(divided) = divide(self.text) else {
            return Err(ProgramFault::Parts);
        };
        let before = ClosedPart {
            text: divided.before,
            first: self.first,
        };
        let behind = InputPart {
            text: divided.behind,
            first: self.first + divided.count + 1,
        };
        Ok((before, behind))
    }

    /// The part, where it is the last one.
    pub(crate) fn last(self) -> Result<Self, ProgramFault>
        ensures { result ≡ spec.undivided self.entry }
    {
        if has_divider(self.text) {
            return Err(ProgramFault::Parts);
        }
        Ok(self)
    }

    /// Its lines that are not skipped.
    pub(crate) fn spoken(self) -> NumberedLines<'a>
        ensures { result ≡ spec.spoken_in self.entry }
    {
        NumberedLines::numbered(self.text, self.first)
    }
}

impl<'a> ClosedPart<'a> {
    /// Its text.
    pub(crate) fn text(self) -> &'a [u8]
        ensures { result.now ≡ spec.text_of self.entry }
    {
        self.text
    }

    /// Its lines that are not skipped.
    pub(crate) fn spoken(self) -> NumberedLines<'a>
        ensures { result ≡ spec.spoken_in self.entry }
    {
        NumberedLines::numbered(self.text, self.first)
    }
}

/// A text at the first line that divides it.
#[derive(Drop)]
struct Divided<'a> {
    /// What stands before that line.
    before: &'a [u8],
    /// How many lines that is.
    count: usize,
    /// What stands behind it.
    behind: &'a [u8],
}

/// Finds the first line that divides a text.
fn divide(text: &[u8]) -> Option<Divided<'_>>
    ensures apart { IfSome result (λ divided.
        StandsApart text.now divided.before.now divided.count divided.behind.now) }
    ensures whole { result ≡ None → list_any spec.is_divider (lines_of text.now) ≡ false }
{
    let mut rest = text;
    let mut count = 0;
    while !rest.is_empty() {
        let (line, behind) = cut_at(rest, b'\n');
        if same_text(line, b"%%") {
            return Some(Divided {
                before: &text[..text.len() - rest.len()],
                count,
                behind,
            });
        }
        rest = behind;
        count += 1;
    }
    None
}
