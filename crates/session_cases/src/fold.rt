//! What is recovered of a firm's session, driven by lines.
//!
//! | call | what it says |
//! |---|---|
//! | `entry PLACE NUMBER` | an entry of the firm |
//! | `act PLACE reset` | an operator's act on its session |
//! | `message HASH MOMENT` | what the venue gives it, with the running hash up to it |
//! | `note KIND EPOCH NUMBER EXPECTED HAD GIVEN HASH MOMENT MORE` | its next note. MORE is `Y` or `N` of A, the message that is answered of 3 and j, the last place and that of the act of R |
//! | `session` | nothing more comes |
//!
//! A hash is shown by its first digits, `-` is none. `session` answers the session, and a line for each
//! number that is kept: its kind, which message of the venue it is or answers, when it was sent first, and
//! whether it is a copy. Or `refused`.
use crate::kept::{Row, Rows};
use crate::notes::{Line, digest_of, note_of};
use case_lines::{Call, CaseFault, Place, Words, push_line};
use session_recovery::{
    Digest, NoteKind, Recovered, after_entry, after_message, after_note, recovered_from_nothing,
};
use std::alloc::Global;

/// A message of the venue.
#[derive(Clone, Copy)]
struct Given {
    digest: Digest,
    moment: u64,
}

/// An entry of the firm.
#[derive(Clone, Copy)]
struct Entry {
    place: u64,
    number: u64,
}

/// How far the fold is, and what it is of.
#[derive(Drop)]
pub struct Fold {
    alloc: Global,
    session: Recovered,
    is_refused: bool,
    kept: Rows,
    given: Vec<Given>,
    entries: Vec<Entry>,
    acts: Vec<u64>,
}

impl Place for Fold {
    fn call(&mut self, call: &mut Call<'_>) -> Result<(), CaseFault> {
        match call.name {
            "entry" => self.hear_entry(&mut call.words)?,
            "act" => self.hear_act(&mut call.words)?,
            "message" => self.hear_message(&mut call.words)?,
            "note" => {
                let line = note_of(&mut call.words)?;
                self.read(&line)?;
            }
            "session" => {
                self.end()?;
                self.print(&mut call.answer)?;
            }
            _ => return Err(CaseFault::Form),
        }
        call.words.end()
    }
}

impl Fold {
    /// Before anything was said.
    pub fn new(alloc: Global) -> Result<Fold, CaseFault> {
        Ok(Fold {
            alloc,
            session: recovered_from_nothing(),
            is_refused: false,
            kept: Rows::new(alloc),
            given: Vec::new(alloc),
            entries: Vec::new(alloc),
            acts: Vec::new(alloc),
        })
    }

    /// `entry PLACE NUMBER`.
    fn hear_entry(&mut self, words: &mut Words<'_>) -> Result<(), CaseFault> {
        let place = words.number()?;
        let number = words.number()?;
        self.entries.push(Entry { place, number })?;
        Ok(())
    }

    /// `act PLACE reset`.
    fn hear_act(&mut self, words: &mut Words<'_>) -> Result<(), CaseFault> {
        let place = words.number()?;
        if words.word()? != "reset" {
            return Err(CaseFault::Form);
        }
        self.acts.push(place)?;
        Ok(())
    }

    /// `message HASH MOMENT`.
    fn hear_message(&mut self, words: &mut Words<'_>) -> Result<(), CaseFault> {
        let digest = digest_of(words.word()?)?;
        let moment = words.number()?;
        self.given.push(Given { digest, moment })?;
        Ok(())
    }

    /// The venue's message behind this many.
    fn at(&self, before: u64) -> Option<Given> {
        let place = usize::try_from(before).ok()?;
        self.given.get(place).copied()
    }

    /// The venue's next message gets its number.
    fn give(&mut self) -> Result<(), CaseFault> {
        let before = self.session;
        let Some(message) = self.at(before.given) else {
            self.is_refused = true;
            return Ok(());
        };
        let Ok(next) = after_message(&before, message.digest) else {
            self.is_refused = true;
            return Ok(());
        };
        self.session = next;
        if next.day.next > before.day.next {
            self.kept.push(Row {
                number: before.day.next,
                kind: b'V',
                which: next.given,
                first: message.moment,
                is_copy: false,
            })?;
        }
        Ok(())
    }

    /// As many of them get theirs as a note names.
    fn give_up_to(&mut self, given: u64) -> Result<(), CaseFault> {
        for _ in 0..self.given.len() {
            if self.session.given < given {
                self.give()?;
            }
        }
        Ok(())
    }

    /// Whether an operator has done what a note carries out.
    fn is_ordered(&self, kind: NoteKind) -> bool {
        let NoteKind::Reset { act, .. } = kind else {
            return true;
        };
        self.acts.contains(&act)
    }

    /// A note is read.
    fn read(&mut self, line: &Line) -> Result<(), CaseFault> {
        if self.is_refused {
            return Ok(());
        }
        self.give_up_to(line.note.given)?;
        let copies = self.kept.above(line.note.had);
        let next = after_note(&self.session, &line.note, copies);
        match next {
            Ok(next) if self.is_ordered(line.note.kind) => {
                self.session = next;
                self.keep(line)?;
            }
            _ => self.is_refused = true,
        }
        Ok(())
    }

    /// What is kept once it is read.
    fn keep(&mut self, line: &Line) -> Result<(), CaseFault> {
        match line.note.kind {
            NoteKind::Logon { resets: true, .. } => self.kept.drop_rejects(),
            NoteKind::Reset { .. } => self.kept.renumber(line.note.had),
            NoteKind::Reject => self.kept.push(Row {
                number: line.note.number,
                kind: line.kind,
                which: line.answers,
                first: line.note.moment,
                is_copy: false,
            }),
            _ => Ok(()),
        }
    }

    /// Behind all notes: the other messages of the venue, and the entries.
    fn end(&mut self) -> Result<(), CaseFault> {
        let all = self.given.len() as u64;
        self.give_up_to(all)?;
        for entry in &self.entries {
            match after_entry(&self.session, entry.place, entry.number) {
                Ok(next) => self.session = next,
                Err(_) => self.is_refused = true,
            }
        }
        Ok(())
    }

    /// What is recovered.
    fn print(&self, answer: &mut String) -> Result<(), CaseFault> {
        if self.is_refused {
            return push_line(answer, "refused");
        }
        let (epoch, since) = (self.session.epoch, self.session.since);
        let day = self.session.day;
        let (expected, next, had) = (day.expected, day.next, day.had);
        let (first, last, kept) = (day.first_given, day.last_given, day.last_kept);
        let is_one_free = u8::from(day.is_one_free);
        let was_taken = u8::from(day.was_taken);
        let is_reset = u8::from(day.is_reset);
        let front = format!(in self.alloc; "session {epoch} {since} {expected} {next} {had}")?;
        let behind = format!(in self.alloc;
            " {first} {last} {kept} {is_one_free} {was_taken} {is_reset}"
        )?;
        answer.push_str(front.as_str())?;
        push_line(answer, behind.as_str())?;
        self.kept.print(answer)
    }
}
