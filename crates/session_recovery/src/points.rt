//! How far the fold is.
ghost use Rattle.std.specs.Prelude.{◌≡◌, ◌≤◌, true, MatchOption, MatchResult, Some};
ghost use Rattle.session_recovery.specs.Notes as spec;
ghost use Rattle.session_recovery.specs.Refusals.{IsRefused, IsRefusedEntry, IsRefusedMessage};

use crate::days::{first_day, is_counted, is_used_up, keeps_message, noted_day, number_due};
use crate::notes::{Digest, Note, NoteKind, is_same};
use crate::refusals::{MOST, MOST_NEXT, Refusal};
use fix_sessions::Day;

/// The session of a firm as far as it is recovered.
#[repr(C)]
#[derive(Clone, Copy, Debug, PartialEq, Eq)]
pub struct Recovered {
    /// How many resets by an operator were carried out.
    pub epoch: u64,
    /// The last place among the entries before the last of them, or 0.
    pub since: u64,
    /// The place of the last act of an operator that a note names, or 0.
    pub act: u64,
    /// How many messages the venue has given the firm, those without a number too.
    pub given: u64,
    /// Their running hash.
    pub digest: Digest,
    /// The number of the firm's last message since the last reset that has an entry, or 0.
    pub taken: u64,
    /// What the session has kept of its day, but for whether the venue is open and the firm
    /// suspended.
    pub day: Day,
}

/// The session before any note.
pub fn recovered_from_nothing() -> Recovered
    ensures { result ≡ spec.from_nothing }
{
    let digest = Digest {
        first: 0,
        second: 0,
        third: 0,
        fourth: 0,
    };
    Recovered {
        epoch: 0,
        since: 0,
        act: 0,
        given: 0,
        digest,
        taken: 0,
        day: first_day(),
    }
}

/// The session once the venue's next message has a number: the next one of the day before, unless its
/// numbers are used up. The hash is that of all messages of the venue up to this one.
pub fn after_message(r: &Recovered, digest: Digest) -> Result<Recovered, Refusal>
    ensures { MatchResult result (λ next. next ≡ spec.after_message r.now digest) (λ why. IsRefusedMessage r.now why) }
{
    let r = *r;
    if r.given > MOST {
        return Err(Refusal::TooFar);
    }
    let day = if is_used_up(&r.day) {
        r.day
    } else {
        keeps_message(r.day)
    };
    Ok(Recovered {
        given: r.given + 1,
        digest,
        day,
        ..r
    })
}

/// Whether an operator's act is behind the last that a note has named, and a reset behind its act.
fn is_act_next(r: &Recovered, kind: NoteKind) -> bool
    ensures { result ≡ spec.is_act_next r.now kind }
{
    match kind {
        NoteKind::Reset { since, act } => r.act < act && act <= since && r.since <= since,
        NoteKind::Released { act } => r.act < act,
        NoteKind::Logon { .. } => true,
        NoteKind::Own => true,
        NoteKind::Reject => true,
        NoteKind::Logout => true,
        NoteKind::Locked => true,
        NoteKind::Mark => true,
    }
}

/// Why a note does not follow on what stands before it.
fn fault_of(r: &Recovered, n: &Note) -> Option<Refusal>
    ensures { MatchOption result (spec.follows r.now n.now ≡ true) (λ why. IsRefused r.now n.now why) }
{
    if n.epoch != r.epoch {
        return Some(Refusal::Epoch);
    }
    if n.given != r.given {
        return Some(Refusal::Given);
    }
    if !is_same(&n.digest, &r.digest) {
        return Some(Refusal::Hash);
    }
    if n.number != number_due(&r.day, n.kind) {
        return Some(Refusal::Number);
    }
    if n.had < r.day.had {
        return Some(Refusal::Had);
    }
    if !is_counted(&r.day, n) {
        return Some(Refusal::Expected);
    }
    if !is_act_next(r, n.kind) {
        return Some(Refusal::Act);
    }
    None
}

/// The session once a note is read that follows.
fn noted(r: Recovered, n: &Note, copies: u64) -> Recovered
    requires epoch { r.epoch ≤ 1000000000000000000 }
    requires next { r.day.next ≤ 1000000000 }
    ensures { result ≡ spec.noted r n.now copies n.now.kind }
{
    let day = noted_day(r.day, n, copies);
    match n.kind {
        NoteKind::Reset { since, act } => Recovered {
            epoch: r.epoch + 1,
            since,
            act,
            taken: 0,
            day,
            ..r
        },
        NoteKind::Released { act } => Recovered { act, day, ..r },
        NoteKind::Logon { .. } => Recovered { day, ..r },
        NoteKind::Own => Recovered { day, ..r },
        NoteKind::Reject => Recovered { day, ..r },
        NoteKind::Logout => Recovered { day, ..r },
        NoteKind::Locked => Recovered { day, ..r },
        NoteKind::Mark => Recovered { day, ..r },
    }
}

/// The session once a note is read, if the note follows on what stands before it. Of a reset: so many
/// messages of the venue are kept under numbers above [`Note::had`], and have the numbers from 2 on
/// now, in their order.
pub fn after_note(r: &Recovered, n: &Note, copies: u64) -> Result<Recovered, Refusal>
    ensures { MatchResult result (λ next. spec.after_note r.now n.now copies ≡ Some next) (λ why. IsRefused r.now n.now why) }
{
    if r.epoch > MOST || r.day.next > MOST_NEXT {
        return Err(Refusal::TooFar);
    }
    if let Some(why) = fault_of(r, n) {
        return Err(why);
    }
    Ok(noted(*r, n, copies))
}

/// The session once an entry counts by which the venue was given a message of the firm, behind all
/// notes, if the numbers of these entries rise.
pub fn after_entry(r: &Recovered, place: u64, number: u64) -> Result<Recovered, Refusal>
    ensures { MatchResult result (λ next. spec.after_entry r.now place number ≡ Some next) (λ why. IsRefusedEntry r.now place number why) }
{
    let r = *r;
    if place <= r.since {
        return Ok(r);
    }
    if number <= r.taken {
        return Err(Refusal::NotBehind);
    }
    if number > MOST {
        return Err(Refusal::TooFar);
    }
    let day = Day {
        expected: r.day.expected.max(number + 1),
        was_taken: true,
        ..r.day
    };
    Ok(Recovered {
        taken: number,
        day,
        ..r
    })
}
