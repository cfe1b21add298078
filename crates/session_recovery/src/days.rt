//! What a note makes of the session's day.
ghost use Rattle.std.specs.Prelude.{◌≡◌, ◌≤◌};
ghost use Rattle.session_recovery.specs.Notes as spec;

use crate::notes::{Note, NoteKind};
use fix_sessions::Day;

/// The last number that a session uses up.
pub const LAST_NUMBER: u64 = 999_999_990;

/// Whether the numbers of a day are used up.
pub(crate) fn is_used_up(d: &Day) -> bool
    ensures { result ≡ spec.is_used_up d.now }
{
    d.next > LAST_NUMBER || d.expected > LAST_NUMBER
}

/// A day at which nothing was said.
pub(crate) fn first_day() -> Day
    ensures { result ≡ spec.first_day }
{
    Day {
        expected: 1,
        next: 2,
        had: 0,
        first_given: 0,
        last_given: 0,
        last_kept: 0,
        is_one_free: true,
        was_taken: false,
        is_reset: false,
        reset_at: 0,
        is_locked: false,
        last_logon: 0,
        is_open: false,
        is_suspended: false,
    }
}

/// The day once a message of the venue has the next number.
pub(crate) fn keeps_message(d: Day) -> Day
    requires { d.next ≤ LAST_NUMBER }
    ensures { result ≡ spec.keeps_message d }
{
    let first_given = if d.first_given == 0 {
        d.next
    } else {
        d.first_given
    };
    Day {
        next: d.next + 1,
        first_given,
        last_given: d.next,
        last_kept: d.next,
        ..d
    }
}

/// The day once numbers begin at 1 again, and so many messages have the numbers from 2 on.
fn begun_again(moment: u64, copies: u64) -> Day
    ensures { result ≡ spec.begun_again moment copies }
{
    let copies = copies.min(LAST_NUMBER);
    let last = if copies == 0 { 0 } else { copies + 1 };
    Day {
        next: copies + 2,
        first_given: if copies == 0 { 0 } else { 2 },
        last_given: last,
        last_kept: last,
        is_reset: true,
        reset_at: moment,
        ..first_day()
    }
}

/// Number 1, or the next.
fn one_or_next(d: &Day, has_one: bool) -> u64
    ensures { result ≡ spec.one_or_next d.now has_one }
{
    if has_one { 1 } else { d.next }
}

/// The next number behind that.
fn next_behind(d: &Day, has_one: bool) -> u64
    requires { d.now.next ≤ 1000000000 }
    ensures { result ≡ spec.next_behind d.now has_one }
{
    if has_one { d.next } else { d.next + 1 }
}

/// The day once it counts what a note counts.
fn counted_by(d: Day, n: &Note) -> Day
    ensures { result ≡ spec.counted_by d n.now }
{
    Day {
        expected: n.expected,
        had: n.had,
        ..d
    }
}

/// The day once the answer to a Logon is noted.
fn logged_on(d: Day, n: &Note, last_logon: u64, resets: bool) -> Day
    requires { d.next ≤ 1000000000 }
    ensures { result ≡ spec.logged_on d n.now last_logon resets }
{
    Day {
        next: next_behind(&d, d.is_one_free || resets),
        last_kept: if resets { d.last_given } else { d.last_kept },
        is_one_free: false,
        is_reset: false,
        last_logon,
        ..counted_by(d, n)
    }
}

/// The day once a Logout is noted.
fn logged_out(d: Day, n: &Note) -> Day
    requires { d.next ≤ 1000000000 }
    ensures { result ≡ spec.logged_out d n.now }
{
    Day {
        next: next_behind(&d, d.is_one_free),
        is_one_free: false,
        ..counted_by(d, n)
    }
}

/// The day once a note is read; a reset gives so many copies new numbers.
pub(crate) fn noted_day(d: Day, n: &Note, copies: u64) -> Day
    requires { d.next ≤ 1000000000 }
    ensures { result ≡ spec.noted_day d n.now copies n.now.kind }
{
    match n.kind {
        NoteKind::Logon { last_logon, resets } => logged_on(d, n, last_logon, resets),
        NoteKind::Own => Day {
            next: d.next + 1,
            ..counted_by(d, n)
        },
        NoteKind::Reject => Day {
            next: d.next + 1,
            last_kept: d.next,
            ..counted_by(d, n)
        },
        NoteKind::Logout => logged_out(d, n),
        NoteKind::Reset { .. } => begun_again(n.moment, copies),
        NoteKind::Locked => Day {
            is_locked: true,
            ..counted_by(d, n)
        },
        NoteKind::Released { .. } => Day {
            is_locked: false,
            ..counted_by(d, n)
        },
        NoteKind::Mark => counted_by(d, n),
    }
}

/// The number that a note's message uses, or 0.
pub(crate) fn number_due(d: &Day, kind: NoteKind) -> u64
    ensures { result ≡ spec.number_due d.now kind }
{
    match kind {
        NoteKind::Logon { resets, .. } => one_or_next(d, d.is_one_free || resets),
        NoteKind::Own => d.next,
        NoteKind::Reject => d.next,
        NoteKind::Logout => one_or_next(d, d.is_one_free),
        NoteKind::Reset { .. } => 0,
        NoteKind::Locked => 0,
        NoteKind::Released { .. } => 0,
        NoteKind::Mark => 0,
    }
}

/// Whether the expected number goes on: it does not fall, but by a Logon with 141=Y.
pub(crate) fn is_counted(d: &Day, n: &Note) -> bool
    ensures { result ≡ spec.is_counted d.now n.now n.now.kind }
{
    match n.kind {
        NoteKind::Logon { resets, .. } => {
            if resets {
                n.expected == 2
            } else {
                d.expected <= n.expected
            }
        }
        NoteKind::Own => d.expected <= n.expected,
        NoteKind::Reject => d.expected <= n.expected,
        NoteKind::Logout => d.expected <= n.expected,
        NoteKind::Reset { .. } => d.expected <= n.expected,
        NoteKind::Locked => d.expected <= n.expected,
        NoteKind::Released { .. } => d.expected <= n.expected,
        NoteKind::Mark => d.expected <= n.expected,
    }
}
