//! What a session may do with an event.
ghost use Rattle.std.specs.Prelude.{◌≡◌, ◌≤◌, ◌<◌, ◌+◌};
ghost use Rattle.fix_sessions.specs.Outcomes as spec;

use crate::messages::Origin;
use crate::state::{Day, LAST_NUMBER, Line, Live, Phase, Session, Waiting};
use crate::turns::{Ending, Fault, Said, Turn, Way, Why, Word};

/// Nothing is said, and the connection stands.
pub(crate) fn quiet<'a>(session: Session, connection: u64) -> Turn<'a>
    ensures { result ≡ spec.quiet session connection }
{
    Turn {
        session,
        connection,
        first: None,
        second: None,
        takes: None,
        drops_rejects: false,
        ending: Ending::Stands,
        notice: None,
    }
}

/// Nothing is said, and the connection ends.
pub(crate) fn ended<'a>(session: Session, connection: u64) -> Turn<'a>
    ensures { result ≡ spec.ended session connection }
{
    Turn {
        ending: Ending::Ends,
        ..quiet(session, connection)
    }
}

/// A message under a number.
pub(crate) fn said<'a>(number: u64, way: Way, word: Word<'a>) -> Option<Said<'a>>
    ensures { result ≡ spec.said number way word.entry }
{
    Some(Said { number, way, word })
}

/// Something came: an older connection is not dead.
pub(crate) fn alive(waiting: Option<Waiting>) -> Option<Waiting>
    ensures { result ≡ spec.alive waiting }
{
    match waiting {
        None => None,
        Some(waiting) => Some(Waiting {
            is_alive: true,
            ..waiting
        }),
    }
}

/// A session in which the firm is logged on by a connection.
pub(crate) fn live(s: &Session, line: Line) -> Live
    ensures { result ≡ spec.live s.now line }
{
    Live {
        day: s.day,
        line,
        waiting: s.waiting,
    }
}

/// The session in which a firm is logged on.
pub(crate) fn standing(a: Live) -> Session
    ensures { result ≡ spec.standing a }
{
    Session {
        day: a.day,
        phase: Phase::On { line: a.line },
        waiting: a.waiting,
    }
}

/// The session once its connection is gone.
pub(crate) fn away(a: Live) -> Session
    ensures { result ≡ spec.away a }
{
    Session {
        day: a.day,
        phase: Phase::Away,
        waiting: a.waiting,
    }
}

/// The session once a Logout has left.
fn leaving(a: Live, now: u64) -> Session
    ensures { result ≡ spec.leaving a now }
{
    Session {
        day: a.day,
        phase: Phase::Leaving {
            connection: a.line.connection,
            since: now,
        },
        waiting: a.waiting,
    }
}

/// Nothing is said.
pub(crate) fn stays<'a>(a: Live) -> Turn<'a>
    ensures { result ≡ spec.stays a }
{
    quiet(standing(a), a.line.connection)
}

/// The connection ends, and nothing is said.
pub(crate) fn disconnects<'a>(a: Live) -> Turn<'a>
    ensures { result ≡ spec.disconnects a }
{
    ended(away(a), a.line.connection)
}

/// The session expects another number: what was missing below it is no more.
pub(crate) fn moved_to(a: Live, now: u64, number: u64) -> Live
    ensures { result ≡ spec.moved_to a now number }
{
    let gap = if number <= a.line.gap { a.line.gap } else { 0 };
    let day = Day {
        expected: number,
        ..a.day
    };
    let line = Line {
        gap,
        gap_since: now,
        ..a.line
    };
    Live { day, line, ..a }
}

/// A message is counted.
pub(crate) fn counted(a: Live, now: u64) -> Live
    requires { a.day.expected ≤ LAST_NUMBER }
    ensures { result ≡ spec.counted a now }
{
    moved_to(a, now, a.day.expected + 1)
}

/// A message is counted if it bears the expected number.
pub(crate) fn counted_if(a: Live, now: u64, number: Option<u64>) -> Live
    requires { a.day.expected ≤ LAST_NUMBER }
    ensures { result ≡ spec.counted_if a now number }
{
    let Some(number) = number else {
        return a;
    };
    if number == a.day.expected {
        return counted(a, now);
    }
    a
}

/// Nothing is to be sent again, and no number waits.
pub(crate) fn is_clear(a: &Live) -> bool
    ensures { result ≡ spec.is_clear a.now }
{
    a.line.again_end <= a.line.again && a.line.fresh == a.day.next
}

/// The next number is used up.
pub(crate) fn used(d: Day) -> Day
    requires { d.next ≤ LAST_NUMBER + 5 }
    ensures { result ≡ spec.used d }
{
    Day {
        next: d.next + 1,
        ..d
    }
}

/// An answer of the session's own is kept under the next number.
pub(crate) fn keeping(d: Day) -> Day
    requires { d.next ≤ LAST_NUMBER + 5 }
    ensures { result ≡ spec.keeping d }
{
    Day {
        next: d.next + 1,
        last_kept: d.next,
        ..d
    }
}

/// What has left once the next number did.
pub(crate) fn sent_next(a: &Live, now: u64) -> Line
    requires { a.now.day.next ≤ LAST_NUMBER + 5 }
    ensures { result ≡ spec.sent_next a.now now }
{
    Line {
        sent: now,
        fresh: a.day.next + 1,
        ..a.line
    }
}

/// A message of the session's own leaves.
pub(crate) fn says<'a>(a: Live, now: u64, word: Word<'a>) -> Turn<'a>
    requires { a.day.next ≤ LAST_NUMBER }
    ensures { result ≡ spec.says a now word.entry }
{
    let day = used(a.day);
    let line = sent_next(&a, now);
    Turn {
        first: said(a.day.next, Way::Leaves, word),
        ..stays(Live { day, line, ..a })
    }
}

/// An answer leaves; where others wait it is kept, and waits behind them.
pub(crate) fn answers<'a>(a: Live, now: u64, word: Word<'a>) -> Turn<'a>
    requires { a.day.next ≤ LAST_NUMBER }
    ensures { result ≡ spec.answers a now word.entry }
{
    if is_clear(&a) {
        return says(a, now, word);
    }
    let day = used(a.day);
    Turn {
        first: said(a.day.next, Way::Kept, word),
        ..stays(Live { day, ..a })
    }
}

/// A Reject of a message.
fn reject_of<'a>(m: Origin<'a>, fault: Fault) -> Word<'a>
    ensures { result ≡ spec.reject_of m.entry fault }
{
    let Origin { number, msg_type } = m;
    let number = match number {
        Some(number) => number,
        None => 0,
    };
    Word::Reject {
        number,
        kind: msg_type,
        fault,
    }
}

/// A Reject leaves; while others wait, or the firm has not answered, it waits.
fn rejects_now<'a>(a: Live, now: u64, word: Word<'a>) -> Turn<'a>
    requires { a.day.next ≤ LAST_NUMBER }
    ensures { result ≡ spec.rejects_now a now word.entry }
{
    let number = a.day.next;
    let day = keeping(a.day);
    if is_clear(&a) && a.line.is_settled {
        let line = sent_next(&a, now);
        return Turn {
            first: said(number, Way::KeptAndLeaves, word),
            ..stays(Live { day, line, ..a })
        };
    }
    Turn {
        first: said(number, Way::Kept, word),
        ..stays(Live { day, ..a })
    }
}

/// A message is rejected, and counted if it bears the expected number.
pub(crate) fn rejects<'a>(a: Live, now: u64, m: Origin<'a>, fault: Fault) -> Turn<'a>
    requires expected { a.day.expected ≤ LAST_NUMBER }
    requires next { a.day.next ≤ LAST_NUMBER }
    ensures { result ≡ spec.rejects a now m.entry fault }
{
    let after = counted_if(a, now, m.number);
    rejects_now(after, now, reject_of(m, fault))
}

/// Whether a Logout may leave: nothing waits, and the firm has answered.
fn may_log_out(a: &Live) -> bool
    ensures { result ≡ spec.may_log_out a.now }
{
    is_clear(a) && a.line.is_settled
}

/// A Logout leaves, if it may, and the firm's own is waited for; else the connection ends.
pub(crate) fn parts<'a>(a: Live, now: u64, word: Word<'a>) -> Turn<'a>
    requires { a.day.next ≤ LAST_NUMBER }
    ensures { result ≡ spec.parts a now word.entry }
{
    if !may_log_out(&a) {
        return disconnects(a);
    }
    let number = a.day.next;
    let day = used(a.day);
    let session = leaving(Live { day, ..a }, now);
    Turn {
        first: said(number, Way::Leaves, word),
        ..quiet(session, a.line.connection)
    }
}

/// A Logout leaves, if it may, and the connection ends.
pub(crate) fn leaves<'a>(a: Live, why: Why) -> Turn<'a>
    requires { a.day.next ≤ LAST_NUMBER }
    ensures { result ≡ spec.leaves a why }
{
    if !may_log_out(&a) {
        return disconnects(a);
    }
    let number = a.day.next;
    let day = used(a.day);
    Turn {
        first: said(number, Way::Leaves, Word::Logout { why }),
        ..disconnects(Live { day, ..a })
    }
}

/// A message is answered with a Logout, and counted if it bears the expected number.
pub(crate) fn logs_out<'a>(a: Live, now: u64, number: Option<u64>, word: Word<'a>) -> Turn<'a>
    requires expected { a.day.expected ≤ LAST_NUMBER }
    requires next { a.day.next ≤ LAST_NUMBER }
    ensures { result ≡ spec.logs_out a now number word.entry }
{
    parts(counted_if(a, now, number), now, word)
}

/// A Reject, and a Logout behind it: a Reject alone until the firm has answered.
fn reject_and_logout<'a>(a: Live, now: u64, word: Word<'a>, why: Why) -> Turn<'a>
    requires { a.day.next ≤ LAST_NUMBER }
    ensures { result ≡ spec.reject_and_logout a now word.entry why }
{
    if !a.line.is_settled {
        return rejects_now(a, now, word);
    }
    let number = a.day.next;
    let kept = keeping(a.day);
    if !is_clear(&a) {
        return Turn {
            first: said(number, Way::Kept, word),
            ..disconnects(Live { day: kept, ..a })
        };
    }
    let day = used(kept);
    let session = leaving(Live { day, ..a }, now);
    Turn {
        first: said(number, Way::KeptAndLeaves, word),
        second: said(number + 1, Way::Leaves, Word::Logout { why }),
        ..quiet(session, a.line.connection)
    }
}

/// A message is rejected and answered with a Logout, and counted if it bears the expected number.
pub(crate) fn rejects_and_logs_out<'a>(
    a: Live,
    now: u64,
    m: Origin<'a>,
    fault: Fault,
    why: Why,
) -> Turn<'a>
    requires expected { a.day.expected ≤ LAST_NUMBER }
    requires next { a.day.next ≤ LAST_NUMBER }
    ensures { result ≡ spec.rejects_and_logs_out a now m.entry fault why }
{
    let after = counted_if(a, now, m.number);
    reject_and_logout(after, now, reject_of(m, fault), why)
}
