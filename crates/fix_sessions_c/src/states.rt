//! A session as C holds it.
ghost use Rattle.std.specs.Prelude.{◌≡◌};
ghost use Rattle.fix_sessions_c.specs.States as spec;

use fix_sessions::{Day, Line, Phase, Session, Waiting};

/// A session as C holds it. Its caller makes it by `fix_sessions_new`, or of what was kept of a day:
/// then `phase` is 0, and `waits` is false.
#[repr(C)]
#[derive(Clone, Copy)]
pub struct SessionState {
    /// What is kept of the day.
    pub day: Day,
    /// 1: the firm is logged on by `line`. 2: a Logout was sent on `connection`. Else the session is
    /// no connection's.
    pub phase: u32,
    /// The connection by which the firm is logged on.
    pub line: Line,
    /// The connection on which a Logout was sent.
    pub connection: u64,
    /// The moment at which that Logout left.
    pub since: u64,
    /// A connection waits to have the session.
    pub waits: bool,
    /// That connection.
    pub waiting: Waiting,
}

/// The session that C holds.
pub(crate) fn read(state: &SessionState) -> Session
    ensures { result ≡ spec.read state.now }
{
    let s = *state;
    Session {
        day: s.day,
        phase: phase_of(s.phase, s.line, s.connection, s.since),
        waiting: waiting_of(s.waits, s.waiting),
    }
}

/// Whose it is.
fn phase_of(phase: u32, line: Line, connection: u64, since: u64) -> Phase
    ensures { result ≡ spec.phase_of phase line connection since }
{
    match phase {
        1 => Phase::On { line },
        2 => Phase::Leaving { connection, since },
        _ => Phase::Away,
    }
}

/// A connection that waits.
fn waiting_of(waits: bool, waiting: Waiting) -> Option<Waiting>
    ensures { result ≡ spec.waiting_of waits waiting }
{
    if waits { Some(waiting) } else { None }
}

/// A session, shown to C.
pub(crate) fn shown(session: &Session) -> SessionState
    ensures { result ≡ spec.shown session.now }
{
    let s = *session;
    let bare = bare_state(s.day, s.waiting);
    match s.phase {
        Phase::Away => bare,
        Phase::On { line } => SessionState {
            phase: 1,
            line,
            ..bare
        },
        Phase::Leaving { connection, since } => SessionState {
            phase: 2,
            connection,
            since,
            ..bare
        },
    }
}

/// A session that is no connection's.
fn bare_state(day: Day, waiting: Option<Waiting>) -> SessionState
    ensures { result ≡ spec.bare_state day waiting }
{
    SessionState {
        day,
        phase: 0,
        line: no_line(),
        connection: 0,
        since: 0,
        waits: waiting.is_some(),
        waiting: some_waiting(waiting),
    }
}

/// Who waits, or nobody.
fn some_waiting(waiting: Option<Waiting>) -> Waiting
    ensures { result ≡ spec.some_waiting waiting }
{
    match waiting {
        Some(waiting) => waiting,
        None => Waiting {
            connection: 0,
            since: 0,
            is_alive: false,
        },
    }
}

/// No connection.
fn no_line() -> Line
    ensures { result ≡ spec.no_line }
{
    Line {
        connection: 0,
        heartbeat: 0,
        received: 0,
        sent: 0,
        gap: 0,
        gap_since: 0,
        again: 0,
        again_end: 0,
        fresh: 0,
        split: 0,
        first_test: 0,
        last_test: 0,
        test_since: 0,
        overtook: 0,
        settling_since: 0,
        is_settled: false,
        is_held: false,
        is_asked: false,
        is_test_due: false,
        is_request_due: false,
    }
}
