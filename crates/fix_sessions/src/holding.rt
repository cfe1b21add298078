//! Who has a session, and whether it is over.
ghost use Rattle.std.specs.Prelude.{◌≡◌};
ghost use Rattle.fix_sessions.specs.Outcomes as spec;

use crate::state::{Day, LAST_NUMBER, Phase, Session};

/// A session without its connection.
pub(crate) fn free(s: Session) -> Session
    ensures { result ≡ spec.free s }
{
    Session {
        phase: Phase::Away,
        ..s
    }
}

/// Whether no connection has the session.
pub(crate) fn is_free(phase: &Phase) -> bool
    ensures { result ≡ spec.is_free phase.now }
{
    matches!(phase, Phase::Away)
}

/// The connection that has the session.
pub(crate) fn holder(phase: &Phase) -> u64
    ensures { result ≡ spec.holder phase.now }
{
    match phase {
        Phase::Away => 0,
        Phase::On { line } => line.connection,
        Phase::Leaving { connection, .. } => *connection,
    }
}

/// Whether the session is over for the day: its numbers are used up. What a caller broke counts as
/// that.
pub(crate) fn is_spent(s: &Session) -> bool
    ensures { result ≡ spec.is_spent s.now }
{
    s.day.next > LAST_NUMBER || s.day.expected > LAST_NUMBER || !are_bounded(&s.day, &s.phase)
}

/// Whether the numbers of a connection are below the next one.
fn are_bounded(d: &Day, phase: &Phase) -> bool
    ensures { result ≡ spec.are_bounded d.now phase.now }
{
    match phase {
        Phase::Away => true,
        Phase::Leaving { .. } => true,
        Phase::On { line } => {
            line.fresh <= d.next && line.again_end <= d.next && line.overtook <= d.next
        }
    }
}
