//! One run of the program, and how it ended.
use crate::streams::{Pace, Sink, Source};
use case_lines::{CaseFault, push_text};
use std::alloc::Global;
use std::marker::Sync;
use std::sync::Wait;
use std::thread::Threads;
use venue_commands::run_program;

/// How a run ended: its status, and what it wrote.
#[derive(Drop)]
pub(crate) struct Ended {
    pub(crate) status: u8,
    pub(crate) out: Vec<u8>,
    pub(crate) err: Vec<u8>,
}

/// How the three streams of a run behave.
#[derive(Clone, Copy, Debug, PartialEq, Eq)]
pub(crate) struct Paces {
    pub(crate) input: Pace,
    pub(crate) out: Pace,
    pub(crate) err: Pace,
}

impl Paces {
    /// Nothing fails.
    pub(crate) fn whole() -> Paces {
        let whole = Pace::whole();
        Paces {
            input: whole,
            out: whole,
            err: whole,
        }
    }
}

/// The program, over an input.
#[derive(Drop)]
pub(crate) struct Program<'a, H: Threads + Wait + Sync> {
    pub(crate) rt: &'a H,
    pub(crate) alloc: Global,
    pub(crate) input: &'a [u8],
}

impl<'a, H: Threads + Wait + Sync> Program<'a, H> {
    /// Runs it with these arguments.
    pub(crate) fn ran(&self, words: &[&str], paces: Paces) -> Ended {
        self.ran_over(self.input, words, paces)
    }

    /// Runs it with these arguments over another input.
    pub(crate) fn ran_over(&self, bytes: &[u8], words: &[&str], paces: Paces) -> Ended {
        let mut input = Source::new(bytes, paces.input);
        let mut out = Sink::new(self.alloc, paces.out);
        let mut err = Sink::new(self.alloc, paces.err);
        let status = run_program(self.rt, self.alloc, words, &mut input, &mut out, &mut err);
        Ended {
            status,
            out: out.into_held(),
            err: err.into_held(),
        }
    }
}

/// The arguments of a command, divided by one space each; `""` stands for the empty one.
pub(crate) fn words_of<'a>(alloc: Global, text: &'a str) -> Result<Vec<&'a str>, CaseFault> {
    let mut words = Vec::new(alloc);
    if text.is_empty() {
        return Ok(words);
    }
    for word in text.split(' ') {
        let is_empty = word == "\"\"";
        words.push(if is_empty { "" } else { word })?;
    }
    Ok(words)
}

impl Ended {
    /// Nothing was run.
    pub(crate) fn nothing(alloc: Global) -> Ended {
        Ended {
            status: 0,
            out: Vec::new(alloc),
            err: Vec::new(alloc),
        }
    }

    /// The status, and what was told on standard error: each line of it behind `! `. What is told
    /// of wrong arguments is `..` alone.
    pub(crate) fn tell(&self, answer: &mut String) -> Result<(), CaseFault> {
        writeln!(answer, "{}", self.status)?;
        if self.status == 2 {
            let told = if self.err.is_empty() { "" } else { "! ..\n" };
            answer.push_str(told)?;
            return Ok(());
        }
        push_lines(answer, "! ", self.err.as_slice())
    }

    /// The same, and behind it each line of standard output.
    pub(crate) fn show(&self, answer: &mut String) -> Result<(), CaseFault> {
        self.tell(answer)?;
        push_lines(answer, "", self.out.as_slice())
    }

    /// The same with the first lines and the last ones of standard output, and between them how
    /// many others there are.
    pub(crate) fn show_ends(
        &self,
        first: u64,
        last: u64,
        answer: &mut String,
    ) -> Result<(), CaseFault> {
        self.tell(answer)?;
        let (front, behind) = cut_behind(self.out.as_slice(), first);
        let lines = count_lines(behind);
        let between = lines.saturating_sub(last);
        let (_, end) = cut_behind(behind, between);
        push_lines(answer, "", front)?;
        writeln!(answer, ".. {between}")?;
        push_lines(answer, "", end)
    }

    /// Each line of standard output behind a text that it has to begin with; all, of a run that has
    /// a fault.
    pub(crate) fn show_behind(&self, front: &[u8], answer: &mut String) -> Result<(), CaseFault> {
        if self.status != 0 || !self.err.is_empty() {
            return self.show(answer);
        }
        let out = self.out.as_slice();
        if !out.starts_with(front) {
            return Err(CaseFault::Condition);
        }
        let Some(behind) = out.get(front.len()..) else {
            return Err(CaseFault::Condition);
        };
        push_lines(answer, "", behind)
    }

    /// Each line of standard output that tells what is noted beside a message.
    pub(crate) fn show_notes(&self, answer: &mut String) -> Result<(), CaseFault> {
        for line in self.out.split_inclusive(|byte| *byte == b'\n') {
            if is_note(line) {
                push_line(answer, line)?;
            }
        }
        Ok(())
    }
}

/// Whether a line tells what is noted beside a message. No firm has a name in small letters.
pub(crate) fn is_note(line: &[u8]) -> bool {
    line.starts_with(b"why ") || line.starts_with(b"trade ")
}

/// Appends the first lines of a text.
pub(crate) fn first_lines(text: &[u8], lines: u64, answer: &mut String) -> Result<(), CaseFault> {
    let (front, _) = cut_behind(text, lines);
    push_lines(answer, "", front)
}

/// How many line feeds a text has.
fn count_lines(text: &[u8]) -> u64 {
    let mut lines: u64 = 0;
    for byte in text {
        if *byte == b'\n' {
            lines = lines.saturating_add(1);
        }
    }
    lines
}

/// The first lines of a text, and what stands behind them.
fn cut_behind(text: &[u8], lines: u64) -> (&[u8], &[u8]) {
    let mut left = lines;
    for (at, byte) in text.iter().enumerate() {
        if left == 0 {
            return text.split_at(at);
        }
        if *byte == b'\n' {
            left -= 1;
        }
    }
    (text, &[])
}

/// Appends the lines of a text, each behind `front`. A last line without its line feed has `\c` at
/// its end, and a space at the end of a line is `\x20`.
fn push_lines(answer: &mut String, front: &str, text: &[u8]) -> Result<(), CaseFault> {
    for line in text.split_inclusive(|byte| *byte == b'\n') {
        answer.push_str(front)?;
        push_line(answer, line)?;
    }
    Ok(())
}

/// Appends a line, with its line feed or without.
fn push_line(answer: &mut String, line: &[u8]) -> Result<(), CaseFault> {
    let (text, end) = match line {
        [text @ .., b' ', b'\n'] => (text, "\\x20\n"),
        [text @ .., b'\n'] => (text, "\n"),
        text => (text, "\\c\n"),
    };
    push_text(answer, text)?;
    answer.push_str(end)?;
    Ok(())
}
