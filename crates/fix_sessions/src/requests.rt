//! What a ResendRequest asks for.
ghost use Rattle.std.specs.Prelude.{◌≡◌, ◌≤◌, ◌<◌};
ghost use Rattle.fix_sessions.specs.Rows as spec;

use crate::messages::Reading;
use crate::state::{LAST_NUMBER, Line};
use crate::turns::Fault;

/// What a ResendRequest asks for.
#[derive(Clone, Copy, Debug, PartialEq, Eq)]
pub enum Asked {
    /// These numbers.
    Numbers {
        /// The first.
        first: u64,
        /// The last.
        last: u64,
    },
    /// None: it is at fault.
    Wrong {
        /// Its fault.
        fault: Fault,
    },
}

/// A fault of a field.
pub(crate) fn at(tag: u64, reason: u64) -> Fault
    ensures { result ≡ spec.at tag reason }
{
    Fault {
        tag: Some(tag),
        reason,
    }
}

/// The highest number that has left.
pub(crate) fn highest_left(l: &Line) -> u64
    ensures { result ≡ spec.highest_left l.now }
{
    if l.overtook < l.fresh {
        return l.fresh - 1;
    }
    l.overtook
}

/// The numbers of a ResendRequest, up to the highest that has left.
fn numbers_asked(top: u64, first: u64, last: u64) -> Asked
    ensures value { result ≡ spec.numbers_asked top first last }
    ensures bounded { spec.IsBounded top result }
{
    if top < first {
        return Asked::Wrong { fault: at(7, 5) };
    }
    if 0 < last && last < first {
        return Asked::Wrong { fault: at(16, 5) };
    }
    let last = if last == 0 || top < last { top } else { last };
    Asked::Numbers { first, last }
}

/// What a ResendRequest asks for that begins with a number.
fn asked_to(top: u64, first: u64, last: Reading) -> Asked
    ensures value { result ≡ spec.asked_to top first last }
    ensures bounded { spec.IsBounded top result }
{
    let first = if first == 0 { 1 } else { first };
    match last {
        Reading::Missing => Asked::Wrong { fault: at(16, 1) },
        Reading::Faulty => Asked::Wrong { fault: at(16, 6) },
        Reading::Is { value } => numbers_asked(top, first, value),
    }
}

/// What a ResendRequest asks for.
pub(crate) fn asked_of(top: u64, first: Reading, last: Reading) -> Asked
    ensures value { result ≡ spec.asked_of top first last }
    ensures bounded { spec.IsBounded top result }
{
    match first {
        Reading::Missing => Asked::Wrong { fault: at(7, 1) },
        Reading::Faulty => Asked::Wrong { fault: at(7, 6) },
        Reading::Is { value } => asked_to(top, value, last),
    }
}

/// Numbers are to be sent again, beside those that are already.
pub(crate) fn again_from(l: Line, first: u64, last: u64) -> Line
    requires { last ≤ LAST_NUMBER }
    ensures { result ≡ spec.again_from l first last }
{
    let end = last + 1;
    if l.again >= l.again_end {
        return Line {
            again: first,
            again_end: end,
            ..l
        };
    }
    let again = if first < l.again { first } else { l.again };
    let again_end = if l.again_end < end { end } else { l.again_end };
    Line {
        again,
        again_end,
        ..l
    }
}
