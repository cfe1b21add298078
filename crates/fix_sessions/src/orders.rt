//! What an operator orders.
ghost use Rattle.std.specs.Prelude.{◌≡◌, ◌≤◌, ◌<◌};
ghost use Rattle.fix_sessions.specs.Steps as spec;

use crate::holding::{free, holder, is_free, is_spent};
use crate::outcomes::{ended, live, parts, quiet};
use crate::state::{Clock, Day, LAST_NUMBER, Phase, Session};
use crate::steps::new_day;
use crate::texts::Text;
use crate::turns::{Turn, Why, Word};

/// What an operator orders.
#[derive(Clone, Copy, Debug, PartialEq, Eq)]
pub enum Order {
    /// The venue is open.
    Open,
    /// It is closed: a firm that is logged on is logged out, and refused from then on.
    Close,
    /// The firm is suspended: logged out if it is logged on, and refused from then on.
    Suspend,
    /// The firm's suspension ends, and nothing else.
    Resume,
    /// The lock of a session whose engine has lost its store ends, and nothing else.
    Release,
    /// Numbers begin at 1 again. The messages of the venue that are kept under numbers above that of
    /// the last TestRequest that the firm has answered get the numbers from 2 on, in their order, as
    /// copies (97=Y in the header; ApplSeqNum (1181) identifies one). The connection ends, and row 7
    /// of the first message says which Logon may follow.
    Reset {
        /// How many they are.
        copies: u64,
    },
}

/// An operator orders something.
#[tactic(auto, unfolding(crate::specs::Steps::ordered))]
pub fn ordered<'a>(session: &Session, clock: &Clock, order: Order) -> Turn<'a>
    ensures { result ≡ spec.ordered session.now clock.now order }
{
    let s = *session;
    let day = ordered_day(s.day, clock, order);
    let after = Session { day, ..s };
    match order {
        Order::Open => quiet(after, 0),
        Order::Resume => quiet(after, 0),
        Order::Release => quiet(after, 0),
        Order::Close => {
            let why = Why::Closed;
            logged_out(after, clock.moment, Word::Logout { why })
        }
        Order::Suspend => {
            let why = Why::Suspended;
            logged_out(after, clock.moment, Word::Logout { why })
        }
        Order::Reset { .. } => resets(after),
    }
}

/// The day once an operator has ordered something.
fn ordered_day(d: Day, clock: &Clock, order: Order) -> Day
    ensures { result ≡ spec.ordered_day d clock.now order }
{
    match order {
        Order::Open => Day { is_open: true, ..d },
        Order::Close => Day {
            is_open: false,
            ..d
        },
        Order::Suspend => Day {
            is_suspended: true,
            ..d
        },
        Order::Resume => Day {
            is_suspended: false,
            ..d
        },
        Order::Release => Day {
            is_locked: false,
            ..d
        },
        Order::Reset { copies } => reset_day(d, clock, copies),
    }
}

/// The gateway logs a firm out that is logged on, for a reason of its own.
#[tactic(auto, unfolding(crate::specs::Steps::log_out))]
pub fn log_out<'a>(session: &Session, clock: &Clock, text: Text<'a>) -> Turn<'a>
    ensures { result ≡ spec.log_out session.now clock.now.moment text.entry }
{
    logged_out(*session, clock.moment, Word::LogoutFor { text })
}

/// A firm that is logged on is logged out.
fn logged_out<'a>(s: Session, now: u64, logout: Word<'a>) -> Turn<'a>
    ensures { result ≡ spec.logged_out s now logout.entry s.phase }
{
    if is_spent(&s) {
        return ended(free(s), holder(&s.phase));
    }
    match s.phase {
        Phase::Away => quiet(s, 0),
        Phase::Leaving { connection, .. } => quiet(s, connection),
        Phase::On { line } => parts(live(&s, line), now, logout),
    }
}

/// The day once numbers begin at 1 again, and so many messages have the numbers from 2 on.
fn reset_day(d: Day, clock: &Clock, copies: u64) -> Day
    ensures { result ≡ spec.reset_day d clock.now copies }
{
    let copies = copies.min(LAST_NUMBER);
    let last = if copies == 0 { 0 } else { copies + 1 };
    Day {
        next: copies + 2,
        first_given: if copies == 0 { 0 } else { 2 },
        last_given: last,
        last_kept: last,
        is_reset: true,
        reset_at: clock.midnight + clock.moment,
        is_open: d.is_open,
        is_suspended: d.is_suspended,
        ..new_day()
    }
}

/// The connection of a session ends that is reset, and its Rejects are kept no longer.
fn resets<'a>(s: Session) -> Turn<'a>
    ensures { result ≡ spec.resets s }
{
    if is_free(&s.phase) {
        return Turn {
            drops_rejects: true,
            ..quiet(s, 0)
        };
    }
    Turn {
        drops_rejects: true,
        ..ended(free(s), holder(&s.phase))
    }
}
