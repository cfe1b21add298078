//! The numbers of a note's line.
ghost use Rattle.std.specs.Prelude.{◌≡◌};
ghost use Rattle.session_recovery_c.specs.Lines as spec;

use session_recovery::{Digest, Note, NoteKind};

/// The numbers of a note's line. What its kind has not is 0 and false.
#[repr(C)]
#[derive(Clone, Copy)]
pub struct NoteNumbers {
    /// How many resets by an operator were carried out before it.
    pub epoch: u64,
    /// MsgSeqNum (34) of the message, or 0 where there is none.
    pub number: u64,
    /// The number that the firm's next message has, after it.
    pub expected: u64,
    /// The number of the last TestRequest that the firm has answered, or 0.
    pub had: u64,
    /// How many messages the venue had given the firm before it.
    pub given: u64,
    /// Their running hash.
    pub hash: Digest,
    /// When it was put, in milliseconds from the beginning of the calendar.
    pub moment: u64,
    /// Of A: SendingTime (52) of the Logon, counted likewise.
    pub last_logon: u64,
    /// Of R: the last place among the entries before it.
    pub last: u64,
    /// Of R, and of L that releases: the place of the act that it carries out.
    pub act: u64,
    /// The byte that names its kind.
    pub kind: u32,
    /// Of A: ResetSeqNumFlag (141) is Y.
    pub resets: bool,
    /// Of L: the session is locked, and not released.
    pub is_locked: bool,
}

/// What a note is of, by the byte of its kind.
fn kind_of(line: &NoteNumbers) -> Option<NoteKind>
    ensures { result ≡ spec.kind_of line.now }
{
    match line.kind {
        65 => Some(NoteKind::Logon {
            last_logon: line.last_logon,
            resets: line.resets,
        }),
        48 | 49 | 50 => Some(NoteKind::Own),
        51 | 106 => Some(NoteKind::Reject),
        53 => Some(NoteKind::Logout),
        82 => Some(NoteKind::Reset {
            since: line.last,
            act: line.act,
        }),
        76 => Some(lock_of(line)),
        77 => Some(NoteKind::Mark),
        _ => None,
    }
}

/// A lock, or its release.
fn lock_of(line: &NoteNumbers) -> NoteKind
    ensures { result ≡ spec.lock_of line.now }
{
    if line.is_locked {
        NoteKind::Locked
    } else {
        NoteKind::Released { act: line.act }
    }
}

/// The note that C hands in.
pub(crate) fn note_of(line: &NoteNumbers) -> Option<Note>
    ensures { result ≡ spec.note_of line.now }
{
    let kind = kind_of(line)?;
    Some(Note {
        epoch: line.epoch,
        number: line.number,
        given: line.given,
        digest: line.hash,
        moment: line.moment,
        expected: line.expected,
        had: line.had,
        kind,
    })
}
