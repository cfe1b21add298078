//! What leaves of what is kept: the numbers that the firm requests again, and behind them those that
//! have not left.
ghost use Rattle.std.specs.Prelude.{◌≡◌, ◌≤◌, ◌<◌, ◌+◌};
ghost use Rattle.fix_sessions.specs.Sending as spec;

use crate::bodies::Body;
use crate::holding::{free, holder, is_spent};
use crate::outcomes::{ended, is_clear, live, quiet, said, stays};
use crate::state::{Clock, Day, LAST_NUMBER, Line, Live, Phase, Session, Waiting};
use crate::turns::{Stored, Turn, Want, Way, Word};

/// Whether numbers are to be sent again.
pub(crate) fn is_resending(l: &Line) -> bool
    ensures { result ≡ spec.is_resending l.now }
{
    l.again < l.again_end
}

/// Whether what is missing is to be requested.
pub(crate) fn requests(l: &Line) -> bool
    ensures { result ≡ spec.requests l.now }
{
    l.is_request_due && 0 < l.gap
}

/// A message of its own, where one is due.
fn wants_of_its_own(is_due: bool) -> Want
    ensures { result ≡ spec.wants_of_its_own is_due }
{
    if is_due { Want::Tick } else { Want::Nothing }
}

/// What a session asks for in which the firm is logged on.
fn wants_on(a: &Live) -> Want
    ensures { result ≡ spec.wants_on a.now }
{
    if is_resending(&a.line) {
        return Want::Again {
            number: a.line.again,
        };
    }
    if a.line.is_held {
        return wants_of_its_own(a.line.is_test_due);
    }
    if a.line.fresh < a.day.next {
        return Want::Fresh {
            number: a.line.fresh,
        };
    }
    wants_of_its_own(a.line.is_test_due || requests(&a.line))
}

/// What a session asks for that is free: the Logon of a connection that waited.
fn wants_waiting(waiting: Option<Waiting>) -> Want
    ensures { result ≡ spec.wants_waiting waiting }
{
    match waiting {
        None => Want::Nothing,
        Some(waiting) => Want::Logon {
            connection: waiting.connection,
        },
    }
}

/// What the session asks of its caller, after each event.
#[tactic(auto, unfolding(crate::specs::Sending::wants))]
pub fn wants(session: &Session) -> Want
    ensures { result ≡ spec.wants session.now }
{
    let s = *session;
    match s.phase {
        Phase::Away => wants_waiting(s.waiting),
        Phase::Leaving { .. } => Want::Nothing,
        Phase::On { line } => {
            let a = live(&s, line);
            wants_on(&a)
        }
    }
}

/// Whether the last TestRequest was among what was sent again, so that no answer to it will come.
fn covers_test(l: &Line, to: u64) -> bool
    ensures { result ≡ spec.covers_test l.now to }
{
    !l.is_settled && 0 < l.last_test && l.last_test < to && l.again_end <= to
}

/// The connection once all below a number was sent again.
fn again_to(l: Line, now: u64, to: u64) -> Line
    ensures { result ≡ spec.again_to l now to }
{
    let is_past = l.fresh < to;
    Line {
        again: to,
        sent: now,
        fresh: if is_past { to } else { l.fresh },
        is_held: l.is_held && !is_past,
        is_test_due: l.is_test_due || covers_test(&l, to),
        ..l
    }
}

/// Where what is kept next begins, or what is sent again ends.
fn before_kept(l: &Line, next_kept: u64) -> u64
    requires { l.now.again < l.now.again_end }
    ensures { result ≡ spec.before_kept l.now next_kept }
{
    if next_kept <= l.again {
        return l.again + 1;
    }
    if next_kept < l.again_end {
        return next_kept;
    }
    l.again_end
}

/// Where a gap fill ends: before what is kept next, and before the answer to this connection's
/// Logon. From there on it has one number.
fn fill_end(l: &Line, next_kept: u64) -> u64
    requires { l.now.again < l.now.again_end }
    ensures { result ≡ spec.fill_end l.now next_kept }
{
    if l.again >= l.split {
        return l.again + 1;
    }
    let end = before_kept(l, next_kept);
    if l.split < end { l.split } else { end }
}

/// A gap fill leaves.
fn fills_gap<'a>(a: Live, now: u64, next_kept: u64) -> Turn<'a>
    requires { a.line.again < a.line.again_end }
    ensures { result ≡ spec.fills_gap a now next_kept }
{
    let number = a.line.again;
    let next = fill_end(&a.line, next_kept);
    let line = again_to(a.line, now, next);
    Turn {
        first: said(number, Way::Leaves, Word::Fill { next }),
        ..stays(Live { line, ..a })
    }
}

/// What is requested again leaves.
fn again_of<'a>(a: Live, now: u64, next_kept: u64, stored: Option<Stored<'a>>) -> Turn<'a>
    requires { a.line.again < a.line.again_end }
    ensures { result ≡ spec.again_of a now next_kept stored.entry }
{
    let Some(stored) = stored else {
        return fills_gap(a, now, next_kept);
    };
    let number = a.line.again;
    if stored.body.is(b"0") {
        return fills_gap(a, now, number + 1);
    }
    let line = again_to(a.line, now, number + 1);
    let Stored {
        body,
        first,
        is_copy,
    } = stored;
    let word = Word::Again {
        body,
        is_copy,
        first,
    };
    Turn {
        first: said(number, Way::Leaves, word),
        ..stays(Live { line, ..a })
    }
}

/// The connection once a number has left, or had.
fn passed(l: Line) -> Line
    requires { l.fresh ≤ LAST_NUMBER + 5 }
    ensures { result ≡ spec.passed l }
{
    Line {
        fresh: l.fresh + 1,
        ..l
    }
}

/// What waits leaves, unless it is a Reject and the firm has not answered.
fn fresh_of<'a>(a: Live, now: u64, stored: Option<Stored<'a>>) -> Turn<'a>
    requires { a.line.fresh ≤ LAST_NUMBER + 5 }
    ensures { result ≡ spec.fresh_of a now stored.entry }
{
    let Some(stored) = stored else {
        let line = passed(a.line);
        return stays(Live { line, ..a });
    };
    if stored.body.is(b"3") && !a.line.is_settled {
        let line = Line {
            is_held: true,
            ..a.line
        };
        return stays(Live { line, ..a });
    }
    let number = a.line.fresh;
    let line = Line {
        sent: now,
        ..passed(a.line)
    };
    let Stored { body, is_copy, .. } = stored;
    Turn {
        first: said(number, Way::Leaves, Word::Kept { body, is_copy }),
        ..stays(Live { line, ..a })
    }
}

/// What is kept under the number that the session asks for ([`wants`]), or none where nothing is
/// that may leave; and the next number under which something is kept.
#[tactic(auto, unfolding(crate::specs::Sending::hands))]
pub fn hands<'a>(
    session: &Session,
    clock: &Clock,
    next_kept: u64,
    stored: Option<Stored<'a>>,
) -> Turn<'a>
    ensures { result ≡ spec.hands session.now clock.now.moment next_kept stored.entry }
{
    let s = *session;
    let now = clock.moment;
    if is_spent(&s) {
        return ended(free(s), holder(&s.phase));
    }
    match s.phase {
        Phase::Away => quiet(s, 0),
        Phase::Leaving { connection, .. } => quiet(s, connection),
        Phase::On { line } => {
            let a = live(&s, line);
            hands_on(a, now, next_kept, stored)
        }
    }
}

/// The same in a session in which the firm is logged on.
fn hands_on<'a>(a: Live, now: u64, next_kept: u64, stored: Option<Stored<'a>>) -> Turn<'a>
    requires { a.day.next ≤ LAST_NUMBER }
    ensures { result ≡ spec.hands_on a now next_kept stored.entry }
{
    if is_resending(&a.line) {
        return again_of(a, now, next_kept, stored);
    }
    if !a.line.is_held && a.line.fresh < a.day.next {
        return fresh_of(a, now, stored);
    }
    stays(a)
}

/// The day once a message of the venue has the next number.
pub(crate) fn keeps_one(d: Day) -> Day
    requires { d.next ≤ LAST_NUMBER }
    ensures { result ≡ spec.keeps_one d }
{
    let first_given = if d.first_given == 0 {
        d.next
    } else {
        d.first_given
    };
    Day {
        next: d.next + 1,
        first_given,
        last_given: d.next,
        last_kept: d.next,
        ..d
    }
}

/// The venue gives a message to a firm that is logged on.
pub(crate) fn given_on<'a>(a: Live, now: u64, body: Body<'a>) -> Turn<'a>
    requires next { a.day.next ≤ LAST_NUMBER }
    requires fresh { a.line.fresh ≤ LAST_NUMBER + 5 }
    ensures { result ≡ spec.given_on a now body.entry }
{
    let number = a.day.next;
    let day = keeps_one(a.day);
    let may_leave = is_clear(&a) && (a.line.is_settled || !body.is(b"3"));
    let word = Word::Kept {
        body,
        is_copy: false,
    };
    if !may_leave {
        return Turn {
            first: said(number, Way::Kept, word),
            ..stays(Live { day, ..a })
        };
    }
    let line = Line {
        sent: now,
        ..passed(a.line)
    };
    Turn {
        first: said(number, Way::KeptAndLeaves, word),
        ..stays(Live { day, line, ..a })
    }
}
