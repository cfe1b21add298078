//! Messages that the gateway does not take.
ghost use Rattle.std.specs.Prelude.{◌≡◌, ◌≤◌};
ghost use Rattle.fix_sessions.specs.Heard as heard;
ghost use Rattle.fix_sessions.specs.Outcomes as spec;

use crate::messages::{Heard, Incoming, Kind, Origin};
use crate::outcomes::{counted, is_clear, keeping, said, sent_next, stays};
use crate::state::{Day, LAST_NUMBER, Line, Live};
use crate::turns::{Denial, Turn, Way, Word};

/// What a message says, where the gateway may deny one of the venue's.
fn denied_kind<'a>(kind: Kind<'a>, denial: Option<Denial<'a>>) -> Kind<'a>
    ensures { result ≡ heard.denied_kind denial.entry kind.entry }
{
    let Some(denial) = denial else {
        return kind;
    };
    match kind {
        Kind::Other => Kind::Denied { denial },
        other => other,
    }
}

/// A message, where the gateway may deny it.
fn denied_message<'a>(m: Incoming<'a>, denial: Option<Denial<'a>>) -> Incoming<'a>
    ensures { result ≡ heard.denied_message denial.entry m.entry }
{
    let Incoming {
        version,
        origin,
        stranger,
        is_repeat,
        sent,
        first_sent,
        flaw,
        kind,
    } = m;
    let kind = denied_kind(kind, denial);
    Incoming {
        version,
        origin,
        stranger,
        is_repeat,
        sent,
        first_sent,
        flaw,
        kind,
    }
}

/// What came, as the gateway takes it.
pub(crate) fn as_taken<'a>(came: Heard<'a>, denial: Option<Denial<'a>>) -> Heard<'a>
    ensures { result ≡ heard.as_taken denial.entry came.entry }
{
    match came {
        Heard::Message { message } => Heard::Message {
            message: denied_message(message, denial),
        },
        other => other,
    }
}

/// A BusinessMessageReject of a message.
fn denial_of<'a>(m: Origin<'a>, denial: Denial<'a>) -> Word<'a>
    ensures { result ≡ spec.denial_of m.entry denial.entry }
{
    let Origin { number, msg_type } = m;
    let number = match number {
        Some(number) => number,
        None => 0,
    };
    Word::Denied {
        number,
        kind: msg_type,
        denial,
    }
}

/// A BusinessMessageReject is kept, and leaves; while others wait, it waits.
fn denies_now<'a>(a: Live, now: u64, word: Word<'a>) -> Turn<'a>
    requires { a.day.next ≤ LAST_NUMBER }
    ensures { result ≡ spec.denies_now a now word.entry }
{
    let number = a.day.next;
    let day = keeping(a.day);
    if !is_clear(&a) {
        return Turn {
            first: said(number, Way::Kept, word),
            ..stays(Live { day, ..a })
        };
    }
    let line = sent_next(&a, now);
    Turn {
        first: said(number, Way::KeptAndLeaves, word),
        ..stays(Live { day, line, ..a })
    }
}

/// A message of the venue's that the gateway does not take is counted, and answered.
pub(crate) fn denies<'a>(a: Live, now: u64, m: Origin<'a>, denial: Denial<'a>) -> Turn<'a>
    requires expected { a.day.expected ≤ LAST_NUMBER }
    requires next { a.day.next ≤ LAST_NUMBER }
    ensures { result ≡ spec.denies a now m.entry denial.entry }
{
    denies_now(counted(a, now), now, denial_of(m, denial))
}
