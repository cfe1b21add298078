//! What a step leaves, beside what is wanted.
use fix_fields::{Memory, Moment};
use market_terms::{Duty, HitRefusal, Reply};
use std::process::Abort;
use std::test::Fail;
use venue_steps::Duties;

/// A duty beside its moment: what it is, the number of the request of INV1 in whose room it is (0
/// for a drop), and two numbers that it bears.
///
/// | what | first | second |
/// |---|---|---|
/// | `open` | how many dealers | quantity |
/// | `show` | dealer | quantity |
/// | `post` | own quote number | price |
/// | `relay` | word | price |
/// | `unpost` | own quote number | 0 |
/// | `gone` | word | 0 |
/// | `hit` | number of the quote | word |
/// | name of an answer | number of the quote that was hit, or 0 for a pass | 0 |
/// | `tell` | dealer | QuoteRespType (694) |
/// | `drop` | last own quote number | 0 |
/// | `ready`, `decline`, `declined`, `pass`, `close` | 0 | 0 |
pub(crate) type Line = (&'static str, u32, u64, u64);

/// Asserts that a step of this moment leaves these duties, in this order, each of that
/// moment and in a room of this investor.
pub(crate) fn leaves(
    rt: &impl Abort,
    left: Result<Duties, Memory>,
    investor: u16,
    moment: Moment,
    wanted: &[Line],
) -> Result<(), Fail> {
    let left = left?;
    assert_eq!(rt; left.len(), wanted.len(), "how many duties");
    for (duty, line) in left.as_slice().iter().zip(wanted) {
        assert!(rt;
            place_of(duty, investor) == (investor, line.1, moment.get()),
            "the place of {}",
            line.0
        );
        let (what, first, second) = content_of(duty);
        assert!(rt;
            what == line.0 && first == line.2 && second == line.3,
            "{} {what}",
            line.0
        );
    }
    Ok(())
}

/// The room of a duty, and its moment.
type Place = (u16, u32, u32);

/// Where and when a duty is: a drop has no room, and stands for one of this investor.
fn place_of(duty: &Duty, investor: u16) -> Place {
    match duty {
        Duty::Open { room, moment, .. } => (room.investor, room.n, moment.get()),
        Duty::Show { room, moment, .. } => (room.investor, room.n, moment.get()),
        Duty::Ready { room, moment } => (room.investor, room.n, moment.get()),
        Duty::Post { room, moment, .. } => (room.investor, room.n, moment.get()),
        Duty::Relay { room, moment, .. } => (room.investor, room.n, moment.get()),
        Duty::Unpost { room, moment, .. } => (room.investor, room.n, moment.get()),
        Duty::Gone { room, moment, .. } => (room.investor, room.n, moment.get()),
        Duty::Decline { room, moment } => (room.investor, room.n, moment.get()),
        Duty::Declined { room, moment } => (room.investor, room.n, moment.get()),
        Duty::Hit { room, moment, .. } => (room.investor, room.n, moment.get()),
        Duty::Pass { room, moment, .. } => (room.investor, room.n, moment.get()),
        Duty::Answer { room, moment, .. } => (room.investor, room.n, moment.get()),
        Duty::Close { room, moment } => (room.investor, room.n, moment.get()),
        Duty::Tell { room, moment, .. } => (room.investor, room.n, moment.get()),
        Duty::Drop { moment, .. } => (investor, 0, moment.get()),
    }
}

/// What a duty is, and two numbers that it bears.
fn content_of(duty: &Duty) -> (&'static str, u64, u64) {
    match duty {
        Duty::Open { ask, dealers, .. } => {
            ("open", dealers.as_slice().len() as u64, ask.quantity.get())
        }
        Duty::Show { dealer, ask, .. } => ("show", u64::from(*dealer), ask.quantity.get()),
        Duty::Ready { .. } => ("ready", 0, 0),
        Duty::Post { quote, price, .. } => ("post", u64::from(*quote), u64::from(price.get())),
        Duty::Relay { offer, .. } => {
            ("relay", u64::from(offer.word), u64::from(offer.price.get()))
        }
        Duty::Unpost { quote, .. } => ("unpost", u64::from(*quote), 0),
        Duty::Gone { word, .. } => ("gone", u64::from(*word), 0),
        Duty::Decline { .. } => ("decline", 0, 0),
        Duty::Declined { .. } => ("declined", 0, 0),
        Duty::Hit { response, word, .. } => ("hit", response.k.unwrap_or(0), u64::from(*word)),
        Duty::Pass { .. } => ("pass", 0, 0),
        Duty::Answer {
            response,
            reply,
            ..
        } => (name_of(*reply), response.k.unwrap_or(0), 0),
        Duty::Close { .. } => ("close", 0, 0),
        Duty::Tell { dealer, close, .. } => ("tell", u64::from(*dealer), close.code()),
        Duty::Drop { last, .. } => ("drop", u64::from(*last), 0),
    }
}

/// What an answer is called in a line.
fn name_of(reply: Reply) -> &'static str {
    match reply {
        Reply::Awarded => "awarded",
        Reply::Passed => "passed",
        Reply::Refused(HitRefusal::NotOpen) => "not open",
        Reply::Refused(HitRefusal::Deadline) => "deadline",
        Reply::Refused(HitRefusal::Gone) => "gone there",
        Reply::Refused(HitRefusal::Expired) => "expired",
        Reply::Refused(HitRefusal::Withdrawn) => "withdrawn",
    }
}
