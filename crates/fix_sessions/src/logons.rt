//! The first message of a connection.
ghost use Rattle.std.specs.Prelude.{◌≡◌, ◌≤◌, ◌<◌, IsTrue};
ghost use Rattle.fix_sessions.specs.Logons as spec;

use crate::accepting::{accepts, answer_number, expected_by, value_or_zero};
use crate::heard::logon_of;
use crate::messages::{Reading, Terms};
use crate::outcomes::{ended, quiet, said};
use crate::state::{
    CLOCK_GAP, Clock, DAY_LENGTH, Day, LAST_NUMBER, LONGEST_HEARTBEAT, Line, Phase, Session,
    Waiting,
};
use crate::texts::Names;
use crate::turns::{Denial, Ending, Notice, Turn, Way, Why, Word};

/// Whether a time is more than two minutes from the time of arrival.
pub(crate) fn is_off(clock: &Clock, time: u64) -> bool
    ensures { result ≡ spec.is_off clock.now time }
{
    let arrival = clock.midnight + clock.moment;
    time.saturating_sub(arrival) > CLOCK_GAP || arrival.saturating_sub(time) > CLOCK_GAP
}

/// Whether a time is of the session's day.
pub(crate) fn is_today(clock: &Clock, time: u64) -> bool
    ensures { result ≡ spec.is_today clock.now time }
{
    clock.midnight <= time && time < clock.midnight + DAY_LENGTH
}

/// Whether SendingTime (52) of a Logon is the venue's time.
fn is_in_time(clock: &Clock, sent: Reading) -> bool
    ensures { result ≡ spec.is_in_time clock.now sent }
{
    match sent {
        Reading::Missing => false,
        Reading::Faulty => false,
        Reading::Is { value } => is_today(clock, value) && !is_off(clock, value),
    }
}

/// Whether HeartBtInt (108) is 1 to 300.
fn is_heartbeat(seconds: Reading) -> bool
    ensures { result ≡ spec.is_heartbeat seconds }
{
    match seconds {
        Reading::Missing => false,
        Reading::Faulty => false,
        Reading::Is { value } => 1 <= value && value <= LONGEST_HEARTBEAT,
    }
}

/// Whether the venue owes the firm nothing: all that is kept has left, and the firm has answered a
/// later TestRequest.
fn owes_nothing(d: &Day) -> bool
    ensures { result ≡ spec.owes_nothing d.now }
{
    d.last_kept <= d.had
}

/// The day once the number of a Logout is used up that refuses a Logon.
fn refusal_day(d: Day) -> Day
    requires { d.next ≤ LAST_NUMBER }
    ensures { result ≡ spec.refusal_day d }
{
    if d.is_one_free {
        return Day {
            is_one_free: false,
            ..d
        };
    }
    Day {
        next: d.next + 1,
        ..d
    }
}

/// Whether a Logout that refuses a Logon is safe: no engine can take it for a message that it
/// misses.
fn is_safe(d: &Day, terms: &Terms) -> bool
    ensures { result ≡ spec.is_safe d.now terms.now }
{
    d.is_one_free || terms.resets || owes_nothing(d)
}

/// A Logon is refused: by a Logout if it is safe, else the connection ends.
fn refuses<'a>(
    s: Session,
    connection: u64,
    terms: Terms,
    logout: Word<'a>,
    notice: Notice,
) -> Turn<'a>
    requires { s.day.next ≤ LAST_NUMBER }
    ensures { result ≡ spec.refuses s connection terms logout.entry notice }
{
    if !is_safe(&s.day, &terms) {
        return Turn {
            notice: Some(notice),
            ..ended(s, connection)
        };
    }
    let number = if s.day.is_one_free { 1 } else { s.day.next };
    let day = refusal_day(s.day);
    Turn {
        first: said(number, Way::Leaves, logout),
        ending: Ending::Parts,
        notice: Some(notice),
        ..quiet(Session { day, ..s }, connection)
    }
}

/// A Logon is refused for a reason.
fn refused<'a>(s: Session, connection: u64, terms: Terms, why: Why) -> Turn<'a>
    requires { s.day.next ≤ LAST_NUMBER }
    ensures { result ≡ spec.refused s connection terms why }
{
    let logout = Word::Logout { why };
    refuses(s, connection, terms, logout, Notice::Refused { why })
}

/// The session of an engine that has lost its store.
fn locked(s: Session) -> Session
    ensures { result ≡ spec.locked s }
{
    let day = Day {
        is_locked: true,
        ..s.day
    };
    Session { day, ..s }
}

/// Whether an engine shows for the first time that it has lost its store.
fn shows_loss(d: &Day, clock: &Clock, terms: &Terms) -> bool
    ensures { result ≡ spec.shows_loss d.now clock.now terms.now }
{
    let is_later = d.last_logon < value_or_zero(terms.sent);
    !d.is_locked
        && !terms.resets
        && terms.number < d.expected
        && (is_later || !is_in_time(clock, terms.sent))
}

/// A Logon is refused before its number is looked at, and the session is locked where the engine
/// shows that it has lost its store.
fn refuses_early<'a>(
    s: Session,
    connection: u64,
    clock: &Clock,
    terms: Terms,
    logout: Word<'a>,
    notice: Notice,
) -> Turn<'a>
    requires { s.day.next ≤ LAST_NUMBER }
    ensures { result ≡ spec.refuses_early s connection clock.now terms logout.entry notice }
{
    if shows_loss(&s.day, clock, &terms) {
        return refuses(locked(s), connection, terms, logout, Notice::LostStore);
    }
    refuses(s, connection, terms, logout, notice)
}

/// A Logon is refused early, for a reason.
fn refused_early<'a>(s: Session, connection: u64, clock: &Clock, terms: Terms, why: Why) -> Turn<'a>
    requires { s.day.next ≤ LAST_NUMBER }
    ensures { result ≡ spec.refused_early s connection clock.now terms why }
{
    let logout = Word::Logout { why };
    refuses_early(s, connection, clock, terms, logout, Notice::Refused { why })
}

/// A Logout in the gateway's words, where it gives some.
fn logout_of<'a>(why: Why, denial: Option<Denial<'a>>) -> Word<'a>
    ensures { result ≡ spec.logout_of why denial.entry }
{
    let Some(denial) = denial else {
        return Word::Logout { why };
    };
    let Denial { text, .. } = denial;
    Word::LogoutFor { text }
}

/// A Logon is refused for a reason, in the gateway's words where it gives some.
fn refused_for<'a>(
    s: Session,
    connection: u64,
    clock: &Clock,
    terms: Terms,
    why: Why,
    denial: Option<Denial<'a>>,
) -> Turn<'a>
    requires { s.day.next ≤ LAST_NUMBER }
    ensures { result ≡ spec.refused_for s connection clock.now terms why denial.entry }
{
    let logout = logout_of(why, denial);
    refuses_early(s, connection, clock, terms, logout, Notice::Refused { why })
}

/// Whether 789 is no number from 1 to the next that the venue will send.
fn is_ahead(expects: Reading, answer: u64) -> bool
    ensures { result ≡ spec.is_ahead expects answer }
{
    match expects {
        Reading::Missing => false,
        Reading::Faulty => true,
        Reading::Is { value } => value == 0 || value > answer,
    }
}

/// A Logon under a number that came before.
fn too_low<'a>(s: Session, connection: u64, terms: Terms) -> Turn<'a>
    requires { s.day.next ≤ LAST_NUMBER }
    ensures { result ≡ spec.too_low s connection terms }
{
    let why = Why::TooLow {
        expected: s.day.expected,
    };
    if s.day.last_logon >= value_or_zero(terms.sent) {
        return refused(s, connection, terms, why);
    }
    let logout = Word::Logout { why };
    refuses(locked(s), connection, terms, logout, Notice::LostStore)
}

/// Whether numbers may be reset by the firm: the venue was given nothing of it, and it is not known
/// to have anything of the venue's.
fn may_reset(d: &Day) -> bool
    ensures { result ≡ spec.may_reset d.now }
{
    !d.was_taken && !(0 < d.first_given && d.first_given <= d.had)
}

/// A Logon by its number.
fn judged_number<'a>(s: Session, connection: u64, now: u64, terms: Terms) -> Turn<'a>
    requires next { s.day.next ≤ LAST_NUMBER }
    requires expected { s.day.expected ≤ LAST_NUMBER }
    requires heartbeat { IsTrue (spec.is_heartbeat terms.seconds) }
    ensures { result ≡ spec.judged_number s connection now terms }
{
    if s.day.is_locked {
        return refused(s, connection, terms, Why::Lost);
    }
    if s.day.is_reset && !terms.resets && terms.number != 1 {
        return refused(s, connection, terms, Why::Begin);
    }
    if terms.number < expected_by(&s.day, &terms) {
        return too_low(s, connection, terms);
    }
    if is_ahead(terms.expects, answer_number(&s.day, &terms)) {
        return refused(s, connection, terms, Why::Ahead);
    }
    accepts(s, connection, now, terms)
}

/// A Logon by what it asks for.
fn judged_terms<'a>(s: Session, connection: u64, clock: &Clock, terms: Terms) -> Turn<'a>
    requires next { s.day.next ≤ LAST_NUMBER }
    requires expected { s.day.expected ≤ LAST_NUMBER }
    ensures { result ≡ spec.judged_terms s connection clock.now terms }
{
    if !terms.is_plain {
        return refused_early(s, connection, clock, terms, Why::Encrypted);
    }
    if !terms.is_fix50 {
        return refused_early(s, connection, clock, terms, Why::Version);
    }
    if !is_heartbeat(terms.seconds) {
        return refused_early(s, connection, clock, terms, Why::Heartbeat);
    }
    if !is_in_time(clock, terms.sent) {
        return refused_early(s, connection, clock, terms, Why::Clock);
    }
    if terms.resets && !(terms.number == 1 && may_reset(&s.day)) {
        return refused(s, connection, terms, Why::Reset);
    }
    judged_number(s, connection, clock.moment, terms)
}

/// A Logon, by whether the venue takes one of the firm now.
fn judged<'a>(
    s: Session,
    connection: u64,
    clock: &Clock,
    terms: Terms,
    denial: Option<Denial<'a>>,
) -> Turn<'a>
    requires next { s.day.next ≤ LAST_NUMBER }
    requires expected { s.day.expected ≤ LAST_NUMBER }
    ensures { result ≡ spec.judged s connection clock.now terms denial.entry }
{
    if !s.day.is_open {
        return refused_for(s, connection, clock, terms, Why::Closed, denial);
    }
    if s.day.is_suspended {
        return refused_for(s, connection, clock, terms, Why::Suspended, denial);
    }
    let Some(denial) = denial else {
        return judged_terms(s, connection, clock, terms);
    };
    let Denial { text, .. } = denial;
    let logout = Word::LogoutFor { text };
    refuses_early(s, connection, clock, terms, logout, Notice::Denied)
}

/// A TestRequest asks an old connection whether it is dead.
fn probed(phase: Phase) -> Phase
    ensures { result ≡ spec.probed phase }
{
    match phase {
        Phase::Away => phase,
        Phase::Leaving { .. } => phase,
        Phase::On { line } => {
            let line = Line {
                is_asked: true,
                is_test_due: true,
                ..line
            };
            Phase::On { line }
        }
    }
}

/// A connection waits until it is known whether an older one is dead; of those that come meanwhile
/// none does.
fn waits_for<'a>(s: Session, connection: u64, now: u64) -> Turn<'a>
    ensures { result ≡ spec.waits_for s connection now s.waiting }
{
    if let Some(waiting) = s.waiting {
        if waiting.connection == connection {
            return quiet(s, connection);
        }
        return ended(s, connection);
    }
    let waiting = Waiting {
        connection,
        since: now,
        is_alive: false,
    };
    let session = Session {
        phase: probed(s.phase),
        waiting: Some(waiting),
        ..s
    };
    quiet(session, connection)
}

/// Who waited waits no more.
pub(crate) fn without(connection: u64, waiting: Option<Waiting>) -> Option<Waiting>
    ensures { result ≡ spec.without connection waiting }
{
    let Some(waiting) = waiting else {
        return None;
    };
    if waiting.connection == connection {
        return None;
    }
    Some(waiting)
}

/// The first message of a connection, or its Logon once more that waited.
pub(crate) fn came_first<'a>(
    names: &Names,
    s: Session,
    connection: u64,
    clock: &Clock,
    bytes: &[u8],
    is_known: bool,
    denial: Option<Denial<'a>>,
) -> Turn<'a>
    requires next { s.day.next ≤ LAST_NUMBER }
    requires expected { s.day.expected ≤ LAST_NUMBER }
    ensures { result ≡ spec.came_first names.now s connection clock.now bytes.now is_known denial.entry }
{
    let Some(terms) = logon_of(names, bytes) else {
        return ended(s, connection);
    };
    if !is_known {
        return Turn {
            notice: Some(Notice::Credentials),
            ..ended(s, connection)
        };
    }
    if !matches!(s.phase, Phase::Away) {
        return waits_for(s, connection, clock.moment);
    }
    let waiting = without(connection, s.waiting);
    judged(Session { waiting, ..s }, connection, clock, terms, denial)
}
