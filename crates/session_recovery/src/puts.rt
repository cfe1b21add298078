//! What a turn of a session puts into the batch that is filled.
ghost use Rattle.std.specs.Prelude.{◌≡◌, Option};
ghost use Rattle.session_recovery.specs.Puts as spec;

use crate::days::LAST_NUMBER;
use crate::notes::{Digest, Note, NoteKind};
use fix_sessions::{Day, Said, Turn, Word};

/// What stands before a turn.
#[repr(C)]
#[derive(Clone, Copy, Debug, PartialEq, Eq)]
pub struct Standing {
    /// How many resets by an operator were carried out.
    pub epoch: u64,
    /// How many messages the venue has given the firm.
    pub given: u64,
    /// Their running hash.
    pub digest: Digest,
    /// The time of the turn, in milliseconds from the beginning of the calendar.
    pub moment: u64,
}

/// The notes that a turn puts, in this order. The body of a Reject's is what is kept of it.
#[derive(Clone, Copy, Debug, PartialEq, Eq)]
pub struct Put {
    /// The session is locked by this turn.
    pub locked: Option<Note>,
    /// Of its first message.
    pub first: Option<Note>,
    /// Of its second.
    pub second: Option<Note>,
    /// The expected number is above the last that is used up, by this turn.
    pub mark: Option<Note>,
}

/// What a message puts, where it uses a number of the session's own.
fn kind_of(last_logon: u64, word: &Word) -> Option<NoteKind>
    ensures { result ≡ spec.kind_of last_logon word.now }
{
    match word {
        Word::Logon { resets, .. } => Some(NoteKind::Logon {
            last_logon,
            resets: *resets,
        }),
        Word::Heartbeat => Some(NoteKind::Own),
        Word::Answer { .. } => Some(NoteKind::Own),
        Word::TestRequest { .. } => Some(NoteKind::Own),
        Word::ResendRequest { .. } => Some(NoteKind::Own),
        Word::Reject { .. } => Some(NoteKind::Reject),
        Word::Fill { .. } => None,
        Word::Logout { .. } => Some(NoteKind::Logout),
        Word::Foreign { .. } => Some(NoteKind::Logout),
        Word::LogoutFor { .. } => Some(NoteKind::Logout),
        Word::Denied { .. } => Some(NoteKind::Reject),
        Word::Kept { .. } => None,
        Word::Again { .. } => None,
    }
}

/// A note of what stood before a turn, with what the session counts after it: also of a reset, a
/// release and a mark, whose number is 0.
pub fn note_of(standing: &Standing, after: &Day, number: u64, kind: NoteKind) -> Note
    ensures { result ≡ spec.note_of standing.now after.now number kind }
{
    Note {
        epoch: standing.epoch,
        number,
        given: standing.given,
        digest: standing.digest,
        moment: standing.moment,
        expected: after.expected,
        had: after.had,
        kind,
    }
}

/// The note of a message.
fn note_said(standing: &Standing, after: &Day, said: &Option<Said>) -> Option<Note>
    ensures { result ≡ spec.note_said standing.now after.now said.now }
{
    let Some(said) = said else {
        return None;
    };
    let Some(kind) = kind_of(after.last_logon, &said.word) else {
        return None;
    };
    Some(note_of(standing, after, said.number, kind))
}

/// The note of a session that is locked by a turn.
fn note_locked(standing: &Standing, before: &Day, after: &Day) -> Option<Note>
    ensures { result ≡ spec.note_locked standing.now before.now after.now }
{
    if after.is_locked && !before.is_locked {
        Some(note_of(standing, after, 0, NoteKind::Locked))
    } else {
        None
    }
}

/// The note of a session whose numbers are used up by what a turn counts.
fn note_used_up(standing: &Standing, before: &Day, after: &Day) -> Option<Note>
    ensures { result ≡ spec.note_used_up standing.now before.now after.now }
{
    if after.expected > LAST_NUMBER && !(before.expected > LAST_NUMBER) {
        Some(note_of(standing, after, 0, NoteKind::Mark))
    } else {
        None
    }
}

/// The notes that a turn puts, but for those of an operator's reset and release ([`note_of`]).
pub fn put_by(standing: &Standing, before: &Day, turn: &Turn) -> Put
    ensures { result ≡ spec.put_by standing.now before.now turn.now }
{
    let after = turn.session.day;
    Put {
        locked: note_locked(standing, before, &after),
        first: note_said(standing, &after, &turn.first),
        second: note_said(standing, &after, &turn.second),
        mark: note_used_up(standing, before, &after),
    }
}
