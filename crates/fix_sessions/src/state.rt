//! The state of a session: numbers and a few marks. What was sent is kept outside.
ghost use Rattle.std.specs.Prelude.{◌≡◌, ◌*◌, ◌<◌, ◌^◌};
ghost use Rattle.fix_sessions.specs.declared.state.TheConstants.{DAY_LENGTH};

use crate::times::date_number;
use fix_fields::{Date, Moment};

/// The last number that a session uses up: those above it are left for the ends of a turn.
pub const LAST_NUMBER: u64 = 999_999_990;

/// How far SendingTime (52) may be from the moment of arrival, in milliseconds.
pub const CLOCK_GAP: u64 = 120_000;

/// How long the first missing message may take until it is requested again, in milliseconds.
pub const GAP_WAIT: u64 = 10_000;

/// How long a TestRequest of settling may go unanswered until another follows, in milliseconds.
pub const TEST_WAIT: u64 = 10_000;

/// How long settling may take without an answer or a resend, in milliseconds.
pub const SETTLE_WAIT: u64 = 60_000;

/// How long a connection may take for its first message, in milliseconds.
pub const FIRST_WAIT: u64 = 10_000;

/// How long the firm's Logout, or a sign of life of an old connection, is waited for, in
/// milliseconds.
pub const LOGOUT_WAIT: u64 = 2_000;

/// No connection is ended for silence before it, in milliseconds.
pub const LEAST_SILENCE: u64 = 6_000;

/// The longest HeartBtInt (108), in seconds.
pub const LONGEST_HEARTBEAT: u64 = 300;

/// How many milliseconds a day has, as a number of 64 bits.
pub const DAY_LENGTH: u64 = 86_400_000;

/// What a session has kept of its day, and what operators said: all that a restart needs.
#[repr(C)]
#[derive(Clone, Copy, Debug, PartialEq, Eq)]
pub struct Day {
    /// The number that the firm's next message has.
    pub expected: u64,
    /// The number that the next message to the firm has, at least 2: 1 is for the day's first
    /// answer to a Logon.
    pub next: u64,
    /// The number of the last TestRequest that the firm has answered, or 0: it has all below it.
    pub had: u64,
    /// The first number under which a message of the venue is kept, or 0.
    pub first_given: u64,
    /// The last of them, or 0.
    pub last_given: u64,
    /// The last number under which a message of the venue or a Reject is kept, or 0.
    pub last_kept: u64,
    /// Number 1 has not been used.
    pub is_one_free: bool,
    /// The venue was given a message of the firm since the last reset.
    pub was_taken: bool,
    /// An operator has reset the session, and no Logon was accepted since.
    pub is_reset: bool,
    /// The time of the operator's last reset, counted as SendingTime (52) is, or 0.
    pub reset_at: u64,
    /// The firm's engine has lost its store: no Logon is accepted.
    pub is_locked: bool,
    /// SendingTime (52) of the last Logon that was accepted, or 0.
    pub last_logon: u64,
    /// The venue is open.
    pub is_open: bool,
    /// An operator has suspended the firm.
    pub is_suspended: bool,
}

/// The connection by which a firm is logged on.
#[repr(C)]
#[derive(Clone, Copy, Debug, PartialEq, Eq)]
pub struct Line {
    /// The connection's name.
    pub connection: u64,
    /// HeartBtInt (108), in milliseconds.
    pub heartbeat: u64,
    /// The moment at which something came last.
    pub received: u64,
    /// The moment at which something left last.
    pub sent: u64,
    /// The highest number that came above the expected one, or 0 where nothing is missing.
    pub gap: u64,
    /// The moment at which what is missing was requested, or came, last.
    pub gap_since: u64,
    /// What the firm requests again begins with this number.
    pub again: u64,
    /// And it ends before this one.
    pub again_end: u64,
    /// No number from this one on has left in its order.
    pub fresh: u64,
    /// From this number on a gap fill has one number alone.
    pub split: u64,
    /// The number of the first TestRequest of this connection, or 0.
    pub first_test: u64,
    /// The number of the last, or 0.
    pub last_test: u64,
    /// The moment at which it left.
    pub test_since: u64,
    /// The number of the last TestRequest that overtook messages, or 0.
    pub overtook: u64,
    /// The moment from which settling is measured.
    pub settling_since: u64,
    /// The firm has answered a TestRequest of this connection, and no later one overtook anything.
    pub is_settled: bool,
    /// The first number that is to leave is a Reject's, and waits until the firm has answered.
    pub is_held: bool,
    /// A TestRequest for silence is not answered.
    pub is_asked: bool,
    /// A TestRequest is to leave.
    pub is_test_due: bool,
    /// A ResendRequest is to leave.
    pub is_request_due: bool,
}

/// Whose the session is.
#[derive(Clone, Copy, Debug, PartialEq, Eq)]
pub enum Phase {
    /// No connection's.
    Away,
    /// The firm is logged on by a connection.
    On {
        /// That connection.
        line: Line,
    },
    /// A Logout was sent on a connection, and the firm's own is waited for.
    Leaving {
        /// The connection's name.
        connection: u64,
        /// The moment at which the Logout left.
        since: u64,
    },
}

/// A connection whose Logon waits until it is known whether an older one is dead.
#[repr(C)]
#[derive(Clone, Copy, Debug, PartialEq, Eq)]
pub struct Waiting {
    /// The connection's name.
    pub connection: u64,
    /// The moment at which its Logon came.
    pub since: u64,
    /// Something came on the older connection since then.
    pub is_alive: bool,
}

/// A firm's session of one day.
#[derive(Clone, Copy, Debug, PartialEq, Eq)]
pub struct Session {
    /// What is kept.
    pub day: Day,
    /// Whose it is.
    pub phase: Phase,
    /// A connection that waits to have it.
    pub waiting: Option<Waiting>,
}

/// A session in which the firm is logged on.
#[derive(Clone, Copy, Debug, PartialEq, Eq)]
pub struct Live {
    /// What is kept.
    pub day: Day,
    /// The connection by which the firm is logged on.
    pub line: Line,
    /// A connection that waits to have the session.
    pub waiting: Option<Waiting>,
}

/// The time at which an event comes.
#[derive(Clone, Copy, Debug, PartialEq, Eq)]
pub struct Clock {
    /// Milliseconds from the beginning of the calendar to the midnight at which the day began.
    pub midnight: u64,
    /// Milliseconds since then.
    pub moment: u64,
    ghost midnight_fits: { midnight < 2 ^ 60 },
    ghost moment_fits: { moment < 2 ^ 60 },
}

impl Clock {
    ghost use Rattle.std.specs.Prelude.{◌≡◌, ◌*◌};
    ghost use Rattle.fix_sessions.specs.Texts as texts;

    /// The clock at a moment of a day.
    pub fn new(date: &Date, moment: Moment) -> Clock
        ensures midnight { result.midnight ≡ texts.date_number date.now * DAY_LENGTH }
        ensures moment { result.moment ≡ moment }
    {
        let midnight = date_number(date.digits()) * DAY_LENGTH;
        let moment = u64::from(moment.get());
        Clock { midnight, moment }
    }
}
