//! Runs that are held against each other.
ghost use Rattle.std.specs.Prelude.{◌<◌, IfOk};

use crate::in_row::InRow;
use crate::runs::{Ended, Paces, Program, is_note, words_of};
use crate::streams::Pace;
use case_lines::{Call, CaseFault, Words};
use std::alloc::Global;
use std::marker::Sync;
use std::sync::Wait;
use std::thread::Threads;

impl<'a, H: Threads + Wait + Sync> Program<'a, H> {
    /// `each read STEP ARGUMENTS`, `each write STEP ARGUMENTS` or `each stop STEP ARGUMENTS`: a run
    /// for each count of bytes behind which a stream fails.
    pub(crate) fn each(&self, call: &mut Call<'_>) -> Result<(), CaseFault> {
        match call.words.word()? {
            "read" => self.each_read(call),
            "write" => self.each_write(call, false),
            "stop" => self.each_write(call, true),
            _ => Err(CaseFault::Form),
        }
    }

    /// `STEP ARGUMENTS`: runs the program once for each count of bytes, a multiple of the step,
    /// behind which its reader fails, up to all of them. Each answer stands behind the first and
    /// the last count that has it.
    fn each_read(&self, call: &mut Call<'_>) -> Result<(), CaseFault> {
        let step = step_of(&mut call.words)?;
        let words = words_of(call.alloc, call.words.rest())?;
        let mut in_row = InRow::new(call.alloc);
        let mut paces = Paces::whole();
        for count in (0..=self.input.len()).step_by(step) {
            paces.input = Pace::up_to(count);
            let text = self.shown(words.as_slice(), paces)?;
            in_row.take(count, text, &mut call.answer)?;
        }
        in_row.end(&mut call.answer)
    }

    /// What a run shows.
    fn shown(&self, words: &[&str], paces: Paces) -> Result<String, CaseFault> {
        let ended = self.ran(words, paces);
        let mut text = String::new(self.alloc);
        ended.show(&mut text)?;
        Ok(text)
    }

    /// `STEP ARGUMENTS`: the same with a writer that fails, or takes nothing any more. Each answer
    /// says whether the writer holds these first bytes of what is printed whole.
    fn each_write(&self, call: &mut Call<'_>, stops: bool) -> Result<(), CaseFault> {
        let step = step_of(&mut call.words)?;
        let words = words_of(call.alloc, call.words.rest())?;
        let mut paces = Paces::whole();
        let whole = self.ran(words.as_slice(), paces);
        let mut in_row = InRow::new(call.alloc);
        paces.out.stops = stops;
        for count in (0..whole.out.len()).step_by(step) {
            paces.out.left = count;
            let text = self.shown_prefix(words.as_slice(), paces, whole.out.as_slice())?;
            in_row.take(count, text, &mut call.answer)?;
        }
        in_row.end(&mut call.answer)
    }

    /// How a run ended whose writer takes so many bytes, and whether it printed as many of a text.
    fn shown_prefix(
        &self,
        words: &[&str],
        paces: Paces,
        whole: &[u8],
    ) -> Result<String, CaseFault> {
        let ended = self.ran(words, paces);
        let mut text = String::new(self.alloc);
        ended.tell(&mut text)?;
        let is_prefix = whole.get(..paces.out.left) == Some(ended.out.as_slice());
        text.push_str(if is_prefix {
            "a prefix\n"
        } else {
            "no prefix\n"
        })?;
        Ok(text)
    }

    /// `same live ..` or `same alone ..`: what one command prints is held against another.
    pub(crate) fn same(&self, call: &mut Call<'_>) -> Result<(), CaseFault> {
        match call.words.word()? {
            "live" => self.same_live(call),
            "alone" => self.same_alone(call),
            _ => Err(CaseFault::Form),
        }
    }

    /// `[--frames] FIRM..`: `live` over an input without its turns sends each firm what `replay`
    /// has for it with them.
    fn same_live(&self, call: &mut Call<'_>) -> Result<(), CaseFault> {
        let (frames, firms) = form_of(call.words.rest());
        let lines = without_turns(self.alloc, self.input)?;
        let live = self.ran_in_form(&["live"], frames, lines.as_slice())?;
        live.tell(&mut call.answer)?;
        self.same_firms(firms, frames, live.out.as_slice(), &mut call.answer)
    }

    /// Whether `replay` has for each firm its lines of what `live` printed.
    fn same_firms(
        &self,
        firms: &str,
        frames: bool,
        printed: &[u8],
        answer: &mut String,
    ) -> Result<(), CaseFault> {
        for firm in words_of(self.alloc, firms)?.as_slice() {
            let own = lines_of(self.alloc, printed, firm)?;
            let is_same = self.is_replayed(firm, frames, own.as_slice())?;
            push_same(answer, firm, is_same)?;
        }
        Ok(())
    }

    /// Whether `replay` has these lines for a firm.
    fn is_replayed(&self, firm: &str, frames: bool, lines: &[u8]) -> Result<bool, CaseFault> {
        let replayed = self.ran_in_form(&["replay", firm], frames, self.input)?;
        let is_same = replayed.status == 0 && lines == replayed.out.as_slice();
        Ok(is_same)
    }

    /// `[--frames] DEALER..`: `alone` over what `due` prints of each dealer prints what `replay`
    /// has for it.
    fn same_alone(&self, call: &mut Call<'_>) -> Result<(), CaseFault> {
        let (frames, dealers) = form_of(call.words.rest());
        for dealer in words_of(self.alloc, dealers)?.as_slice() {
            let is_same = self.is_same_alone(dealer, frames)?;
            push_same(&mut call.answer, dealer, is_same)?;
        }
        Ok(())
    }

    /// Whether it does so for this dealer.
    fn is_same_alone(&self, dealer: &str, frames: bool) -> Result<bool, CaseFault> {
        let due = self.ran(&["due", dealer], Paces::whole());
        let alone = self.ran_in_form(&["alone"], frames, due.out.as_slice())?;
        let are_done = due.status == 0 && alone.status == 0;
        let has_lines = self.is_replayed(dealer, frames, alone.out.as_slice())?;
        let is_same = are_done && has_lines;
        Ok(is_same)
    }

    /// `noted ARGUMENTS`: how a run with `--notes` behind these ended, each line that tells what is
    /// noted, and whether all else is what a run without that flag prints.
    pub(crate) fn noted(&self, call: &mut Call<'_>) -> Result<(), CaseFault> {
        let mut words = words_of(call.alloc, call.words.rest())?;
        let plain = self.ran(words.as_slice(), Paces::whole());
        words.push("--notes")?;
        let noted = self.ran(words.as_slice(), Paces::whole());
        noted.tell(&mut call.answer)?;
        noted.show_notes(&mut call.answer)?;
        let rest = without_notes(self.alloc, noted.out.as_slice())?;
        push_same(
            &mut call.answer,
            "rest",
            rest.as_slice() == plain.out.as_slice(),
        )
    }

    /// Runs a command over an input, with `--frames` or without.
    fn ran_in_form(
        &self,
        command: &[&str],
        frames: bool,
        input: &[u8],
    ) -> Result<Ended, CaseFault> {
        let mut words = Vec::from_slice(self.alloc, command)?;
        if frames {
            words.push("--frames")?;
        }
        Ok(self.ran_over(input, words.as_slice(), Paces::whole()))
    }
}

/// The step between two counts.
fn step_of(words: &mut Words<'_>) -> Result<usize, CaseFault>
    ensures { IfOk result (λ step. 0 < step) }
{
    let number = words.number()?;
    let Ok(step) = usize::try_from(number) else {
        return Err(CaseFault::Condition);
    };
    if step == 0 {
        return Err(CaseFault::Condition);
    }
    Ok(step)
}

/// Whether `--frames` stands before the names, and the names.
fn form_of(words: &str) -> (bool, &str) {
    let Some(names) = words.strip_prefix("--frames ") else {
        return (false, words);
    };
    (true, names)
}

/// The lines of an input but those of turns.
fn without_turns(alloc: Global, input: &[u8]) -> Result<Vec<u8>, CaseFault> {
    let mut lines = Vec::new(alloc);
    for line in input.split_inclusive(|byte| *byte == b'\n') {
        if !line.starts_with(b"turn ") {
            lines.extend_from_slice(line)?;
        }
    }
    Ok(lines)
}

/// The lines of a text but those that tell what is noted.
fn without_notes(alloc: Global, text: &[u8]) -> Result<Vec<u8>, CaseFault> {
    let mut lines = Vec::new(alloc);
    for line in text.split_inclusive(|byte| *byte == b'\n') {
        if !is_note(line) {
            lines.extend_from_slice(line)?;
        }
    }
    Ok(lines)
}

/// The lines of a text that begin with this firm's name.
fn lines_of(alloc: Global, text: &[u8], firm: &str) -> Result<Vec<u8>, CaseFault> {
    let front = format!(in alloc; "{firm} ")?;
    let mut lines = Vec::new(alloc);
    for line in text.split_inclusive(|byte| *byte == b'\n') {
        if line.starts_with(front.as_bytes()) {
            lines.extend_from_slice(line)?;
        }
    }
    Ok(lines)
}

/// Answers whether two texts of a firm are the same.
fn push_same(answer: &mut String, firm: &str, is_same: bool) -> Result<(), CaseFault> {
    let word = if is_same { "same" } else { "differs" };
    writeln!(answer, "{firm} {word}")?;
    Ok(())
}
