//! The events of a session.
ghost use Rattle.std.specs.Prelude.{◌≡◌, ◌≤◌, ◌<◌};
ghost use Rattle.fix_sessions.specs.Heard as heard;
ghost use Rattle.fix_sessions.specs.Rows as rows;
ghost use Rattle.fix_sessions.specs.Steps as spec;

use crate::bodies::Body;
use crate::denials::as_taken;
use crate::heard::{heard_of, is_logout};
use crate::holding::{free, holder, is_free, is_spent};
use crate::logons::{came_first, without};
use crate::messages::Heard;
use crate::outcomes::{ended, live, quiet, said, stays};
use crate::rows::{came_long, came_on};
use crate::sending::{given_on, keeps_one};
use crate::state::{Clock, Day, LAST_NUMBER, LOGOUT_WAIT, Live, Phase, Session, Waiting};
use crate::texts::Names;
use crate::ticks::tick_by;
use crate::turns::{Denial, Notice, Turn, Way, Word};

/// The session of a day that begins.
pub fn new_session() -> Session
    ensures { result ≡ spec.new_session }
{
    Session {
        day: new_day(),
        phase: Phase::Away,
        waiting: None,
    }
}

/// A day that begins: number 1 is left for its first answer to a Logon.
pub(crate) fn new_day() -> Day
    ensures { result ≡ spec.new_day }
{
    Day {
        expected: 1,
        next: 2,
        had: 0,
        first_given: 0,
        last_given: 0,
        last_kept: 0,
        is_one_free: true,
        was_taken: false,
        is_reset: false,
        reset_at: 0,
        is_locked: false,
        last_logon: 0,
        is_open: false,
        is_suspended: false,
    }
}

/// A message came on a connection: all of its bytes, and no more. For the first one of a
/// connection, [`crate::question`] says whose credentials are asked for, and `is_known` whether
/// they are right. With a denial the gateway does not take it: a Logon is refused, a message that
/// would be given to the venue is answered with a BusinessMessageReject, and all else is as without.
#[tactic(auto, unfolding(crate::specs::Steps::came))]
pub fn came<'a>(
    names: &Names,
    session: &Session,
    connection: u64,
    clock: &Clock,
    bytes: &'a [u8],
    is_known: bool,
    denial: Option<Denial<'a>>,
) -> Turn<'a>
    ensures { result ≡ spec.came names.now session.now connection clock.now bytes.now is_known denial.entry }
{
    let s = *session;
    if is_spent(&s) {
        return ended(freed_of(s, connection), connection);
    }
    if !has(&s.phase, connection) {
        return came_first(names, s, connection, clock, bytes, is_known, denial);
    }
    match s.phase {
        Phase::Away => came_first(names, s, connection, clock, bytes, is_known, denial),
        Phase::Leaving { .. } => came_leaving(names, s, connection, bytes),
        Phase::On { line } => {
            let a = live(&s, line);
            came_live(names, a, clock, bytes, denial)
        }
    }
}

/// A message came on the connection by which the firm is logged on.
fn came_live<'a>(
    names: &Names,
    a: Live,
    clock: &Clock,
    bytes: &'a [u8],
    denial: Option<Denial<'a>>,
) -> Turn<'a>
    requires expected { a.day.expected ≤ LAST_NUMBER }
    requires next { a.day.next ≤ LAST_NUMBER }
    requires left { rows.highest_left a.line ≤ LAST_NUMBER }
    ensures { result ≡ spec.came_as a clock.now (heard.as_taken denial.entry (heard.heard_of names.now bytes.now)) }
{
    match as_taken(heard_of(names, bytes), denial) {
        Heard::Garbled => stays(a),
        Heard::TooLong { number } => came_long(a, clock.moment, number),
        Heard::Message { message } => came_on(a, clock, message),
    }
}

/// A message came behind a Logout: the firm's own is counted, and ends the connection.
fn came_leaving<'a>(names: &Names, s: Session, connection: u64, bytes: &'a [u8]) -> Turn<'a>
    requires { s.day.expected ≤ LAST_NUMBER }
    ensures { result ≡ spec.came_leaving names.now s connection bytes.now }
{
    if !is_logout(bytes) {
        return quiet(s, connection);
    }
    let Heard::Message { message } = heard_of(names, bytes) else {
        return quiet(s, connection);
    };
    let s = last_counted(s, message.origin.number);
    ended(free(s), connection)
}

/// The session once the firm's Logout came.
fn last_counted(s: Session, number: Option<u64>) -> Session
    requires { s.day.expected ≤ LAST_NUMBER }
    ensures { result ≡ spec.last_counted s number }
{
    let Some(number) = number else {
        return s;
    };
    if number != s.day.expected {
        return s;
    }
    let day = Day {
        expected: s.day.expected + 1,
        ..s.day
    };
    Session { day, ..s }
}

/// Whether a connection has the session.
fn has(phase: &Phase, connection: u64) -> bool
    ensures { result ≡ spec.has phase.now connection }
{
    match phase {
        Phase::Away => false,
        Phase::On { line } => line.connection == connection,
        Phase::Leaving {
            connection: last,
            ..
        } => *last == connection,
    }
}

/// The session once a connection is gone.
fn freed_of(s: Session, connection: u64) -> Session
    ensures { result ≡ spec.freed_of s connection }
{
    if has(&s.phase, connection) {
        return free(s);
    }
    let waiting = without(connection, s.waiting);
    Session { waiting, ..s }
}

/// A connection is gone.
pub fn gone<'a>(session: &Session, connection: u64) -> Turn<'a>
    ensures { result ≡ spec.gone session.now connection }
{
    quiet(freed_of(*session, connection), connection)
}

/// The venue gives a message: it gets the next number and is kept. It leaves where the firm is
/// logged on, and nothing before it is left to send. Where the numbers of the day are used up,
/// nothing is done.
#[tactic(auto, unfolding(crate::specs::Steps::given))]
pub fn given<'a>(session: &Session, clock: &Clock, body: Body<'a>) -> Turn<'a>
    ensures { result ≡ spec.given session.now clock.now.moment body.entry }
{
    let s = *session;
    if is_spent(&s) {
        return quiet(s, 0);
    }
    match s.phase {
        Phase::Away => waits_away(s, 0, body),
        Phase::Leaving { connection, .. } => waits_away(s, connection, body),
        Phase::On { line } => {
            let a = live(&s, line);
            given_on(a, clock.moment, body)
        }
    }
}

/// A message of the venue waits for the firm's next Logon.
fn waits_away<'a>(s: Session, connection: u64, body: Body<'a>) -> Turn<'a>
    requires { s.day.next ≤ LAST_NUMBER }
    ensures { result ≡ spec.waits_away s connection body.entry }
{
    let number = s.day.next;
    let day = keeps_one(s.day);
    let word = Word::Kept {
        body,
        is_copy: false,
    };
    Turn {
        first: said(number, Way::Kept, word),
        ..quiet(Session { day, ..s }, connection)
    }
}

/// Time passes. What is due leaves, one message a call.
#[tactic(auto, unfolding(crate::specs::Steps::tick))]
pub fn tick<'a>(session: &Session, clock: &Clock) -> Turn<'a>
    ensures { result ≡ spec.tick session.now clock.now.moment }
{
    let s = *session;
    if is_spent(&s) {
        return ended(free(s), holder(&s.phase));
    }
    if let Some(waiting) = s.waiting {
        if is_decided(&s.phase, waiting, clock.moment) {
            return decided(s, waiting);
        }
    }
    tick_by(s, clock.moment)
}

/// Whether it is known whether an older connection is dead.
fn is_decided(phase: &Phase, waiting: Waiting, now: u64) -> bool
    ensures { result ≡ spec.is_decided phase.now waiting now }
{
    !is_free(phase) && now.saturating_sub(waiting.since) >= LOGOUT_WAIT
}

/// Nothing came on the old connection, so that it is dead; or something did, and the new one ends.
fn decided<'a>(s: Session, waiting: Waiting) -> Turn<'a>
    ensures { result ≡ spec.decided s waiting }
{
    if waiting.is_alive {
        return ended(Session { waiting: None, ..s }, waiting.connection);
    }
    Turn {
        notice: Some(Notice::Dead),
        ..ended(free(s), holder(&s.phase))
    }
}
