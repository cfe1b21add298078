//! Connections that have no session: from which no message came, or whose Logon was refused.
ghost use Rattle.std.specs.Prelude.{◌≡◌};
ghost use Rattle.fix_sessions.specs.Visits as spec;

use crate::state::{Clock, FIRST_WAIT, LOGOUT_WAIT};

/// Whether a connection ends on which no whole message came since it began, in milliseconds of the
/// day.
pub fn is_first_late(since: u64, clock: &Clock) -> bool
    ensures { result ≡ spec.is_first_late since clock.now.moment }
{
    clock.moment.saturating_sub(since) >= FIRST_WAIT
}

/// Whether a connection ends on which a Logout left that refused a Logon
/// ([`crate::Ending::Parts`]): the firm's own ends it before ([`crate::is_logout`]).
pub fn is_parting_over(since: u64, clock: &Clock) -> bool
    ensures { result ≡ spec.is_parting_over since clock.now.moment }
{
    clock.moment.saturating_sub(since) >= LOGOUT_WAIT
}
