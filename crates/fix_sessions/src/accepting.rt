//! The answer to a Logon that is accepted.
ghost use Rattle.std.specs.Prelude.{◌≡◌, ◌≤◌, ◌<◌, IsTrue};
ghost use Rattle.fix_sessions.specs.Logons as spec;

use crate::messages::{Reading, Terms};
use crate::outcomes::{alive, quiet, said};
use crate::state::{Day, LAST_NUMBER, Line, Phase, Session};
use crate::turns::{Turn, Way, Word};

/// The value of a field, or 0.
pub(crate) fn value_or_zero(reading: Reading) -> u64
    ensures { result ≡ spec.value_or_zero reading }
{
    match reading {
        Reading::Missing => 0,
        Reading::Faulty => 0,
        Reading::Is { value } => value,
    }
}

/// Whether the answer has number 1: it is the day's first, or the Logon resets numbers.
fn has_one(d: &Day, terms: &Terms) -> bool
    ensures { result ≡ spec.has_one d.now terms.now }
{
    d.is_one_free || terms.resets
}

/// The number of the answer.
pub(crate) fn answer_number(d: &Day, terms: &Terms) -> u64
    ensures { result ≡ spec.answer_number d.now terms.now }
{
    if has_one(d, terms) { 1 } else { d.next }
}

/// The number that is expected, once numbers are reset.
pub(crate) fn expected_by(d: &Day, terms: &Terms) -> u64
    ensures { result ≡ spec.expected_by d.now terms.now }
{
    if terms.resets { 1 } else { d.expected }
}

/// Whether messages before the Logon are missing.
fn has_gap(d: &Day, terms: &Terms) -> bool
    ensures { result ≡ spec.has_gap d.now terms.now }
{
    expected_by(d, terms) < terms.number
}

/// The day once a Logon is accepted.
fn accepted_day(d: Day, terms: &Terms) -> Day
    requires next { d.next ≤ LAST_NUMBER }
    requires expected { d.expected ≤ LAST_NUMBER }
    ensures { result ≡ spec.accepted_day d terms.now }
{
    let before = expected_by(&d, terms);
    let expected = if has_gap(&d, terms) {
        before
    } else {
        before + 1
    };
    let next = if has_one(&d, terms) {
        d.next
    } else {
        d.next + 1
    };
    let last_kept = if terms.resets {
        d.last_given
    } else {
        d.last_kept
    };
    Day {
        expected,
        next,
        last_kept,
        is_one_free: false,
        is_reset: false,
        last_logon: value_or_zero(terms.sent),
        ..d
    }
}

/// The first number that a firm requests by NextExpectedMsgSeqNum (789), or that of the answer.
fn first_wanted(expects: Reading, answer: u64) -> u64
    ensures { result ≡ spec.first_wanted expects answer }
{
    match expects {
        Reading::Missing => answer,
        Reading::Faulty => answer,
        Reading::Is { value } => { if value < answer { value } else { answer } }
    }
}

/// From which number on a gap fill has one number alone.
fn split_of(before: &Day, after: &Day, terms: &Terms) -> u64
    ensures { result ≡ spec.split_of before.now after.now terms.now }
{
    if !has_one(before, terms) {
        return before.next;
    }
    if after.next == 2 { 1 } else { after.next }
}

/// The connection once its Logon is accepted.
fn accepted_line(before: &Day, after: &Day, connection: u64, now: u64, terms: &Terms) -> Line
    requires { IsTrue (spec.is_heartbeat terms.now.seconds) }
    ensures { result ≡ spec.accepted_line before.now after.now connection now terms.now }
{
    let answer = answer_number(before, terms);
    let is_gap = has_gap(before, terms);
    let is_missing = matches!(terms.expects, Reading::Missing);
    Line {
        connection,
        heartbeat: value_or_zero(terms.seconds) * 1_000,
        received: now,
        sent: now,
        gap: if is_gap { terms.number } else { 0 },
        gap_since: now,
        again: first_wanted(terms.expects, answer),
        again_end: answer,
        fresh: after.next,
        split: split_of(before, after, terms),
        first_test: 0,
        last_test: 0,
        test_since: now,
        overtook: 0,
        settling_since: now,
        is_settled: false,
        is_held: false,
        is_asked: false,
        is_test_due: true,
        is_request_due: is_gap && is_missing,
    }
}

/// NextExpectedMsgSeqNum (789) of the answer.
fn answered_expects(after: &Day, expects: Reading) -> Option<u64>
    ensures { result ≡ spec.answered_expects after.now expects }
{
    match expects {
        Reading::Missing => None,
        Reading::Faulty => None,
        Reading::Is { .. } => Some(after.expected),
    }
}

/// A Logon is accepted.
pub(crate) fn accepts<'a>(s: Session, connection: u64, now: u64, terms: Terms) -> Turn<'a>
    requires next { s.day.next ≤ LAST_NUMBER }
    requires expected { s.day.expected ≤ LAST_NUMBER }
    requires heartbeat { IsTrue (spec.is_heartbeat terms.seconds) }
    ensures { result ≡ spec.accepts s connection now terms }
{
    let number = answer_number(&s.day, &terms);
    let day = accepted_day(s.day, &terms);
    let line = accepted_line(&s.day, &day, connection, now, &terms);
    let word = Word::Logon {
        seconds: value_or_zero(terms.seconds),
        resets: terms.resets,
        expects: answered_expects(&day, terms.expects),
    };
    let session = Session {
        day,
        phase: Phase::On { line },
        waiting: alive(s.waiting),
    };
    Turn {
        first: said(number, Way::Leaves, word),
        drops_rejects: terms.resets,
        ..quiet(session, connection)
    }
}
