//! What time brings about.
ghost use Rattle.std.specs.Prelude.{◌≡◌, ◌≤◌, ◌<◌};
ghost use Rattle.fix_sessions.specs.Steps as spec;

use crate::holding::free;
use crate::outcomes::{disconnects, ended, is_clear, leaves, live, quiet, said, says, stays, used};
use crate::sending::{is_resending, requests};
use crate::state::{
    GAP_WAIT, LAST_NUMBER, LEAST_SILENCE, LOGOUT_WAIT, Line, Live, Phase, SETTLE_WAIT, Session,
    TEST_WAIT,
};
use crate::turns::{Turn, Way, Why, Word};

/// Time passes for whoever has the session.
pub(crate) fn tick_by<'a>(s: Session, now: u64) -> Turn<'a>
    requires { s.day.next ≤ LAST_NUMBER }
    ensures { result ≡ spec.tick_by s now s.phase }
{
    match s.phase {
        Phase::Away => quiet(s, 0),
        Phase::Leaving { connection, since } => {
            if now.saturating_sub(since) >= LOGOUT_WAIT {
                return ended(free(s), connection);
            }
            quiet(s, connection)
        }
        Phase::On { line } => {
            let a = live(&s, line);
            tick_on(a, now)
        }
    }
}

/// Time passes for a firm that is logged on.
fn tick_on<'a>(a: Live, now: u64) -> Turn<'a>
    requires { a.day.next ≤ LAST_NUMBER }
    ensures { result ≡ spec.tick_on a now }
{
    let a = still_settling(a, now);
    if is_over(&a.line, now) {
        return disconnects(a);
    }
    if is_dead(&a.line, now) {
        return leaves(a, Why::Silent);
    }
    due(made_due(a, now), now)
}

/// Settling is measured from the last resend.
fn still_settling(a: Live, now: u64) -> Live
    ensures { result ≡ spec.still_settling a now }
{
    if !is_resending(&a.line) {
        return a;
    }
    let line = Line {
        settling_since: now,
        ..a.line
    };
    Live { line, ..a }
}

/// Whether settling has taken too long.
fn is_over(l: &Line, now: u64) -> bool
    ensures { result ≡ spec.is_over l.now now }
{
    !l.is_settled && now.saturating_sub(l.settling_since) >= SETTLE_WAIT
}

/// How long nothing came.
fn silence(l: &Line, now: u64) -> u64
    ensures { result ≡ spec.silence l.now now }
{
    now.saturating_sub(l.received)
}

/// Whether nothing came for 2.4 times HeartBtInt, and for six seconds.
fn is_dead(l: &Line, now: u64) -> bool
    ensures { result ≡ spec.is_dead l.now now }
{
    silence(l, now) >= LEAST_SILENCE && is_past(silence(l, now), l.heartbeat, 12)
}

/// Whether a span is at least so many fifths of HeartBtInt.
fn is_past(span: u64, heartbeat: u64, fifths: u64) -> bool
    ensures { result ≡ spec.is_past span heartbeat fifths }
{
    u128::from(span) * 5 >= u128::from(heartbeat) * u128::from(fifths)
}

/// Whether nothing came for 1.2 times HeartBtInt, and no TestRequest was sent for it.
fn is_silent(l: &Line, now: u64) -> bool
    ensures { result ≡ spec.is_silent l.now now }
{
    !l.is_asked && is_past(silence(l, now), l.heartbeat, 6)
}

/// Whether a TestRequest of settling has had no answer for ten seconds.
fn is_unanswered(l: &Line, now: u64) -> bool
    ensures { result ≡ spec.is_unanswered l.now now }
{
    if l.is_settled || l.last_test == 0 || is_resending(l) {
        return false;
    }
    now.saturating_sub(l.test_since) >= TEST_WAIT
}

/// What time makes due.
fn made_due(a: Live, now: u64) -> Live
    ensures { result ≡ spec.made_due a now }
{
    let is_silent = is_silent(&a.line, now);
    let is_late = now.saturating_sub(a.line.gap_since) >= GAP_WAIT;
    let line = Line {
        is_asked: a.line.is_asked || is_silent,
        is_test_due: a.line.is_test_due || is_silent || is_unanswered(&a.line, now),
        is_request_due: a.line.is_request_due || is_late,
        ..a.line
    };
    Live { line, ..a }
}

/// A message of the session's own leaves that is due.
fn due<'a>(a: Live, now: u64) -> Turn<'a>
    requires { a.day.next ≤ LAST_NUMBER }
    ensures { result ≡ spec.due a now }
{
    let is_clear = is_clear(&a);
    if is_resending(&a.line) || (!a.line.is_held && !is_clear) {
        return stays(a);
    }
    if is_clear && requests(&a.line) {
        return requests_missing(a, now);
    }
    if a.line.is_test_due {
        return tests_firm(a, now);
    }
    if is_clear && now.saturating_sub(a.line.sent) >= a.line.heartbeat {
        return says(a, now, Word::Heartbeat);
    }
    stays(a)
}

/// What is missing is requested.
fn requests_missing<'a>(a: Live, now: u64) -> Turn<'a>
    requires { a.day.next ≤ LAST_NUMBER }
    ensures { result ≡ spec.requests_missing a now }
{
    let first = a.day.expected;
    let line = Line {
        gap_since: now,
        is_request_due: false,
        ..a.line
    };
    says(Live { line, ..a }, now, Word::ResendRequest { first })
}

/// A TestRequest leaves. Where it overtakes what waits, no earlier one settles.
fn tests_firm<'a>(a: Live, now: u64) -> Turn<'a>
    requires { a.day.next ≤ LAST_NUMBER }
    ensures { result ≡ spec.tests_firm a now }
{
    let number = a.day.next;
    let is_clear = is_clear(&a);
    let line = Line {
        sent: now,
        fresh: if is_clear { number + 1 } else { a.line.fresh },
        overtook: if is_clear { a.line.overtook } else { number },
        first_test: if a.line.first_test == 0 {
            number
        } else {
            a.line.first_test
        },
        last_test: number,
        test_since: now,
        is_test_due: false,
        ..a.line
    };
    let day = used(a.day);
    Turn {
        first: said(number, Way::Leaves, Word::TestRequest { id: number }),
        ..stays(Live { day, line, ..a })
    }
}
