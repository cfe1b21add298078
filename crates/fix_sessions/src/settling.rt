//! The answers to TestRequests.
ghost use Rattle.std.specs.Prelude.{◌≡◌, ◌≤◌, ◌<◌};
ghost use Rattle.fix_sessions.specs.Rows as spec;

use crate::state::{Day, Line, Live};

/// Whether a number is that of a TestRequest of this connection.
fn is_test_of(l: &Line, number: u64) -> bool
    ensures { result ≡ spec.is_test_of l.now number }
{
    0 < l.first_test && l.first_test <= number && number <= l.last_test
}

/// A connection is settled, unless a later TestRequest has overtaken something.
fn settled_by(l: Line, number: u64) -> Line
    ensures { result ≡ spec.settled_by l number }
{
    if l.overtook > number {
        return l;
    }
    Line {
        is_settled: true,
        is_held: false,
        is_test_due: false,
        ..l
    }
}

/// The session once a Heartbeat answers a TestRequest.
pub(crate) fn tested(a: Live, answered: Option<u64>) -> Live
    ensures { result ≡ spec.tested a answered }
{
    let Some(number) = answered else {
        return a;
    };
    if !is_test_of(&a.line, number) {
        return a;
    }
    let had = if a.day.had < number {
        number
    } else {
        a.day.had
    };
    let day = Day { had, ..a.day };
    let line = settled_by(a.line, number);
    Live { day, line, ..a }
}
