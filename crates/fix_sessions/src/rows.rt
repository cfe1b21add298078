//! The later messages of a connection, row by row.
ghost use Rattle.std.specs.Prelude.{◌≡◌, ◌≤◌, ◌<◌};
ghost use Rattle.fix_sessions.specs.Rows as spec;

use crate::denials::denies;
use crate::logons::{is_off, is_today};
use crate::messages::{Incoming, Kind, Origin, Reading, TestId};
use crate::outcomes::{
    alive, answers, counted, counted_if, leaves, logs_out, moved_to, parts, rejects,
    rejects_and_logs_out, stays,
};
use crate::requests::{Asked, again_from, asked_of, at, highest_left};
use crate::settling::tested;
use crate::state::{Clock, Day, LAST_NUMBER, Line, Live};
use crate::turns::{Notice, Turn, Why, Word};

/// The session once something came.
fn heard_at(a: Live, now: u64) -> Live
    ensures { result ≡ spec.heard_at a now }
{
    let line = Line {
        received: now,
        is_asked: false,
        ..a.line
    };
    Live {
        line,
        waiting: alive(a.waiting),
        ..a
    }
}

/// A ResendRequest.
fn requested<'a>(a: Live, now: u64, m: Origin<'a>, first: Reading, last: Reading) -> Turn<'a>
    requires expected { a.day.expected ≤ LAST_NUMBER }
    requires next { a.day.next ≤ LAST_NUMBER }
    requires left { spec.highest_left a.line ≤ LAST_NUMBER }
    ensures { result ≡ spec.requested a now m.entry first last }
{
    match asked_of(highest_left(&a.line), first, last) {
        Asked::Wrong { fault } => rejects(a, now, m, fault),
        Asked::Numbers { first, last } => {
            let after = counted_if(a, now, m.number);
            let line = again_from(after.line, first, last);
            stays(Live { line, ..after })
        }
    }
}

/// A SequenceReset in reset mode.
fn resets_to<'a>(a: Live, now: u64, m: Origin<'a>, next: Reading) -> Turn<'a>
    requires expected { a.day.expected ≤ LAST_NUMBER }
    requires next { a.day.next ≤ LAST_NUMBER }
    ensures { result ≡ spec.resets_to a now m.entry next }
{
    match next {
        Reading::Missing => rejects(a, now, m, at(36, 1)),
        Reading::Faulty => rejects(a, now, m, at(36, 6)),
        Reading::Is { value } => {
            if a.day.expected < value {
                return stays(moved_to(a, now, value));
            }
            if value == a.day.expected {
                return stays(a);
            }
            rejects(a, now, m, at(36, 5))
        }
    }
}

/// What is missing is to be requested, once.
fn missing_noted(a: Live, number: u64) -> Live
    ensures { result ≡ spec.missing_noted a number }
{
    let gap = if a.line.gap < number {
        number
    } else {
        a.line.gap
    };
    let line = Line {
        gap,
        is_request_due: a.line.gap == 0 || a.line.is_request_due,
        ..a.line
    };
    Live { line, ..a }
}

/// A message above the expected number.
fn above<'a>(a: Live, now: u64, m: Origin<'a>, number: u64, kind: &Kind<'a>) -> Turn<'a>
    requires expected { a.day.expected ≤ LAST_NUMBER }
    requires next { a.day.next ≤ LAST_NUMBER }
    requires left { spec.highest_left a.line ≤ LAST_NUMBER }
    ensures { result ≡ spec.above a now m.entry number kind.now }
{
    match kind {
        Kind::Logout => leaves(a, Why::Answered),
        Kind::ResendRequest { first, last } => {
            requested(missing_noted(a, number), now, m, *first, *last)
        }
        _ => stays(missing_noted(a, number)),
    }
}

/// Whether a time is after that at which a message was sent.
fn is_after_sent(sent: Reading, first: u64) -> bool
    ensures { result ≡ spec.is_after_sent sent first }
{
    match sent {
        Reading::Missing => false,
        Reading::Faulty => false,
        Reading::Is { value } => value < first,
    }
}

/// A message that came before and is sent again.
fn repeated_below<'a>(a: Live, now: u64, m: Incoming<'a>) -> Turn<'a>
    requires expected { a.day.expected ≤ LAST_NUMBER }
    requires next { a.day.next ≤ LAST_NUMBER }
    ensures { result ≡ spec.repeated_below a now m.entry m.entry.first_sent }
{
    let (sent, first_sent) = (m.sent, m.first_sent);
    let Incoming { origin, .. } = m;
    match first_sent {
        Reading::Missing => rejects(a, now, origin, at(122, 1)),
        Reading::Faulty => stays(a),
        Reading::Is { value } => {
            if !is_after_sent(sent, value) {
                return stays(a);
            }
            rejects_and_logs_out(a, now, origin, at(122, 10), Why::Clock)
        }
    }
}

/// A message below the expected number.
fn below<'a>(a: Live, now: u64, m: Incoming<'a>) -> Turn<'a>
    requires expected { a.day.expected ≤ LAST_NUMBER }
    requires next { a.day.next ≤ LAST_NUMBER }
    ensures { result ≡ spec.below a now m.entry }
{
    if m.is_repeat {
        return repeated_below(a, now, m);
    }
    let why = Why::TooLow {
        expected: a.day.expected,
    };
    logs_out(a, now, m.origin.number, Word::Logout { why })
}

/// A gap fill.
fn fills<'a>(a: Live, now: u64, m: Origin<'a>, number: u64, next: Reading) -> Turn<'a>
    requires expected { a.day.expected ≤ LAST_NUMBER }
    requires next { a.day.next ≤ LAST_NUMBER }
    ensures { result ≡ spec.fills a now m.entry number next }
{
    match next {
        Reading::Missing => rejects(a, now, m, at(36, 1)),
        Reading::Faulty => rejects(a, now, m, at(36, 6)),
        Reading::Is { value } => {
            if number < value {
                return stays(moved_to(a, now, value));
            }
            rejects(a, now, m, at(36, 5))
        }
    }
}

/// The message is the venue's.
fn takes<'a>(a: Live, now: u64) -> Turn<'a>
    requires { a.day.expected ≤ LAST_NUMBER }
    ensures { result ≡ spec.takes a now }
{
    let after = counted(a, now);
    let day = Day {
        was_taken: true,
        ..after.day
    };
    Turn {
        takes: Some(a.day.expected),
        ..stays(Live { day, ..after })
    }
}

/// A TestRequest.
fn tests<'a>(a: Live, now: u64, m: Origin<'a>, id: TestId<'a>) -> Turn<'a>
    requires expected { a.day.expected ≤ LAST_NUMBER }
    requires next { a.day.next ≤ LAST_NUMBER }
    ensures { result ≡ spec.tests a now m.entry id.entry }
{
    match id {
        TestId::Missing => rejects(a, now, m, at(112, 1)),
        TestId::TooLong => rejects(a, now, m, at(112, 5)),
        TestId::Is { id } => answers(counted(a, now), now, Word::Answer { id }),
    }
}

/// The expected message, by what it says.
fn by_kind<'a>(a: Live, now: u64, m: Origin<'a>, number: u64, kind: Kind<'a>) -> Turn<'a>
    requires expected { a.day.expected ≤ LAST_NUMBER }
    requires next { a.day.next ≤ LAST_NUMBER }
    requires left { spec.highest_left a.line ≤ LAST_NUMBER }
    ensures { result ≡ spec.by_kind a now m.entry number kind.entry }
{
    match kind {
        Kind::Heartbeat { answers } => stays(tested(counted(a, now), answers)),
        Kind::Reject => Turn {
            notice: Some(Notice::Rejected),
            ..stays(counted(a, now))
        },
        Kind::TestRequest { id } => tests(a, now, m, id),
        Kind::ResendRequest { first, last } => requested(a, now, m, first, last),
        Kind::Fill { next } => fills(a, now, m, number, next),
        Kind::Reset { next } => resets_to(a, now, m, next),
        Kind::Logout => leaves(counted(a, now), Why::Answered),
        Kind::Logon => {
            let why = Why::LoggedOn;
            parts(counted(a, now), now, Word::Logout { why })
        }
        Kind::Denied { denial } => denies(a, now, m, denial),
        Kind::Other => takes(a, now),
    }
}

/// The expected message, by its form.
fn by_form<'a>(a: Live, now: u64, m: Incoming<'a>, number: u64) -> Turn<'a>
    requires expected { a.day.expected ≤ LAST_NUMBER }
    requires next { a.day.next ≤ LAST_NUMBER }
    requires left { spec.highest_left a.line ≤ LAST_NUMBER }
    ensures { result ≡ spec.by_form a now m.entry number m.entry.flaw }
{
    let flaw = m.flaw;
    let Incoming { origin, kind, .. } = m;
    if let Some(fault) = flaw {
        return rejects(a, now, origin, fault);
    }
    by_kind(a, now, origin, number, kind)
}

/// The expected message that is sent again, by OrigSendingTime (122).
fn by_times<'a>(a: Live, clock: &Clock, m: Incoming<'a>, number: u64, sent: u64) -> Turn<'a>
    requires expected { a.day.expected ≤ LAST_NUMBER }
    requires next { a.day.next ≤ LAST_NUMBER }
    requires left { spec.highest_left a.line ≤ LAST_NUMBER }
    ensures { result ≡ spec.by_times a clock.now m.entry number sent m.entry.first_sent }
{
    let now = clock.moment;
    match m.first_sent {
        Reading::Missing => rejects(a, now, m.origin, at(122, 1)),
        Reading::Faulty => rejects(a, now, m.origin, at(122, 6)),
        Reading::Is { value } => {
            if !is_today(clock, value) || value < a.day.reset_at {
                return rejects(a, now, m.origin, at(122, 5));
            }
            if sent < value {
                return rejects_and_logs_out(a, now, m.origin, at(122, 10), Why::Clock);
            }
            by_form(a, now, m, number)
        }
    }
}

/// The expected message, by SendingTime (52).
fn expected_message<'a>(a: Live, clock: &Clock, m: Incoming<'a>, number: u64) -> Turn<'a>
    requires expected { a.day.expected ≤ LAST_NUMBER }
    requires next { a.day.next ≤ LAST_NUMBER }
    requires left { spec.highest_left a.line ≤ LAST_NUMBER }
    ensures { result ≡ spec.expected_message a clock.now m.entry number }
{
    let now = clock.moment;
    match m.sent {
        Reading::Missing => rejects(a, now, m.origin, at(52, 1)),
        Reading::Faulty => rejects(a, now, m.origin, at(52, 6)),
        Reading::Is { value } => {
            if m.is_repeat {
                return by_times(a, clock, m, number, value);
            }
            if is_off(clock, value) {
                return rejects_and_logs_out(a, now, m.origin, at(52, 10), Why::Clock);
            }
            by_form(a, now, m, number)
        }
    }
}

/// A message by its number.
fn by_number<'a>(a: Live, clock: &Clock, m: Incoming<'a>, number: u64) -> Turn<'a>
    requires expected { a.day.expected ≤ LAST_NUMBER }
    requires next { a.day.next ≤ LAST_NUMBER }
    requires left { spec.highest_left a.line ≤ LAST_NUMBER }
    ensures { result ≡ spec.by_number a clock.now m.entry number }
{
    if a.day.expected < number {
        let Incoming { origin, kind, .. } = m;
        return above(a, clock.moment, origin, number, &kind);
    }
    if number < a.day.expected {
        return below(a, clock.moment, m);
    }
    expected_message(a, clock, m, number)
}

/// A message that is no SequenceReset in reset mode.
fn if_numbered<'a>(a: Live, clock: &Clock, m: Incoming<'a>) -> Turn<'a>
    requires expected { a.day.expected ≤ LAST_NUMBER }
    requires next { a.day.next ≤ LAST_NUMBER }
    requires left { spec.highest_left a.line ≤ LAST_NUMBER }
    ensures { result ≡ spec.if_numbered a clock.now m.entry m.entry.origin.number }
{
    let Some(number) = m.origin.number else {
        return parts(a, clock.moment, Word::Logout { why: Why::Number });
    };
    if let Some(tag) = m.stranger {
        return rejects_and_logs_out(a, clock.moment, m.origin, at(tag, 9), Why::Names);
    }
    by_number(a, clock, m, number)
}

/// A message of the connection by which the firm is logged on.
pub(crate) fn came_on<'a>(a: Live, clock: &Clock, m: Incoming<'a>) -> Turn<'a>
    requires expected { a.day.expected ≤ LAST_NUMBER }
    requires next { a.day.next ≤ LAST_NUMBER }
    requires left { spec.highest_left a.line ≤ LAST_NUMBER }
    ensures { result ≡ spec.came_on a clock.now m.entry }
{
    if m.version.is_some() {
        return foreign(a, clock.moment, m);
    }
    let a = heard_at(a, clock.moment);
    let reset = reset_in(&m.kind);
    let Some(next) = reset else {
        return if_numbered(a, clock, m);
    };
    let Incoming { origin, .. } = m;
    resets_to(a, clock.moment, origin, next)
}

/// NewSeqNo (36) of a SequenceReset in reset mode.
fn reset_in(kind: &Kind) -> Option<Reading>
    ensures { result ≡ spec.reset_in kind.now }
{
    match kind {
        Kind::Reset { next } => Some(*next),
        _ => None,
    }
}

/// A message of another BeginString (8).
fn foreign<'a>(a: Live, now: u64, m: Incoming<'a>) -> Turn<'a>
    requires expected { a.day.expected ≤ LAST_NUMBER }
    requires next { a.day.next ≤ LAST_NUMBER }
    ensures { result ≡ spec.foreign a now m.entry.origin.number m.entry.version }
{
    let Incoming {
        origin,
        version,
        ..
    } = m;
    let Some(version) = version else {
        return stays(a);
    };
    logs_out(a, now, origin.number, Word::Foreign { version })
}

/// A message that is too long.
pub(crate) fn came_long<'a>(a: Live, now: u64, number: Option<u64>) -> Turn<'a>
    requires expected { a.day.expected ≤ LAST_NUMBER }
    requires next { a.day.next ≤ LAST_NUMBER }
    ensures { result ≡ spec.came_long a now number }
{
    let why = Why::TooLong;
    logs_out(a, now, number, Word::Logout { why })
}
