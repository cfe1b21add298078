//! A note as a line has it.
use case_lines::{CaseFault, Words};
use session_recovery::{Digest, Note, NoteKind};

/// A note, and which message its Reject answers.
#[derive(Drop)]
pub struct Line {
    /// The note.
    pub note: Note,
    /// The byte that names its kind.
    pub kind: u8,
    /// Of a Reject: the number of the message.
    pub answers: u64,
}

/// The note of `KIND EPOCH NUMBER EXPECTED HAD GIVEN HASH MOMENT MORE`.
pub fn note_of(words: &mut Words<'_>) -> Result<Line, CaseFault> {
    let letter = words.word()?;
    let kind = *letter.as_bytes().first().ok_or(CaseFault::Form)?;
    let epoch = words.number()?;
    let number = words.number()?;
    let expected = words.number()?;
    let had = words.number()?;
    let given = words.number()?;
    let digest = digest_of(words.word()?)?;
    let moment = words.number()?;
    let (of_kind, answers) = more_of(kind, words)?;
    let note = Note {
        epoch,
        number,
        given,
        digest,
        moment,
        expected,
        had,
        kind: of_kind,
    };
    Ok(Line {
        note,
        kind,
        answers,
    })
}

/// What stands behind the moment.
fn more_of(kind: u8, words: &mut Words<'_>) -> Result<(NoteKind, u64), CaseFault> {
    match kind {
        b'A' => {
            let resets = words.word()? == "Y";
            let of_kind = NoteKind::Logon {
                last_logon: 0,
                resets,
            };
            Ok((of_kind, 0))
        }
        b'0' | b'1' | b'2' => Ok((NoteKind::Own, 0)),
        b'3' | b'j' => Ok((NoteKind::Reject, words.number()?)),
        b'5' => Ok((NoteKind::Logout, 0)),
        b'R' => {
            let since = words.number()?;
            let act = words.number()?;
            Ok((NoteKind::Reset { since, act }, 0))
        }
        b'M' => Ok((NoteKind::Mark, 0)),
        _ => Err(CaseFault::Form),
    }
}

/// A hash by its first digits, at most sixteen; `-` is none.
pub fn digest_of(digits: &str) -> Result<Digest, CaseFault> {
    let mut first: u64 = 0;
    if digits != "-" {
        for digit in digits.as_bytes() {
            let value = u64::from(value_of(*digit).ok_or(CaseFault::Form)?);
            let more = first.checked_mul(16).ok_or(CaseFault::Form)?;
            first = more.checked_add(value).ok_or(CaseFault::Form)?;
        }
    }
    Ok(Digest {
        first,
        second: 0,
        third: 0,
        fourth: 0,
    })
}

/// What a hexadecimal digit says.
fn value_of(digit: u8) -> Option<u8> {
    match digit {
        b'0'..=b'9' => Some(digit - b'0'),
        b'a'..=b'f' => Some(digit - b'a' + 10),
        _ => None,
    }
}
