//! The steps of a start.
ghost use Rattle.std.specs.Prelude.{◌≡◌};
ghost use Rattle.session_recovery.specs.Notes as notes;
ghost use Rattle.session_recovery_c.specs.Lines as lines;
ghost use Rattle.session_recovery_c.specs.Verdicts.{IsEntryVerdict, IsMessageVerdict, IsNoteVerdict};

use crate::lines::{NoteNumbers, note_of};
use crate::verdicts::{GOES_ON, NO_KIND, code};
use session_recovery::{
    Digest, Recovered, after_entry, after_message, after_note, recovered_from_nothing,
};

/// The session before any note.
#[unsafe(no_mangle)]
pub extern "C" fn session_recovery_begin(session: &mut Recovered)
    ensures { session.new ≡ notes.from_nothing }
{
    *session = recovered_from_nothing();
}

/// The venue's next message: the running hash of all of its messages up to this one.
#[unsafe(no_mangle)]
pub extern "C" fn session_recovery_message(session: &mut Recovered, hash: &Digest) -> u32
    ensures { IsMessageVerdict session.old hash.now session.new result }
{
    let next = match after_message(session, *hash) {
        Ok(next) => next,
        Err(why) => return code(why),
    };
    *session = next;
    GOES_ON
}

/// The next note. Of a reset: so many messages of the venue are kept under numbers above its HAD.
#[unsafe(no_mangle)]
pub extern "C" fn session_recovery_note(
    session: &mut Recovered,
    line: &NoteNumbers,
    copies: u64,
) -> u32
    ensures { IsNoteVerdict session.old (lines.note_of line.now) copies session.new result }
{
    let Some(note) = note_of(line) else {
        return NO_KIND;
    };
    let next = match after_note(session, &note, copies) {
        Ok(next) => next,
        Err(why) => return code(why),
    };
    *session = next;
    GOES_ON
}

/// Behind all notes and messages: the next entry of the firm, by its place and its number.
#[unsafe(no_mangle)]
pub extern "C" fn session_recovery_entry(session: &mut Recovered, place: u64, number: u64) -> u32
    ensures { IsEntryVerdict session.old place number session.new result }
{
    let next = match after_entry(session, place, number) {
        Ok(next) => next,
        Err(why) => return code(why),
    };
    *session = next;
    GOES_ON
}
