//! A gate that forces a whole day: it lets the points of a list pass in their order.
use super::flags::Flag;
use recorded_days::Kind;
use session_worker::{Gate, Point};
use std::sync::atomic::{AtomicU64, Ordering};
use std::thread::yield_now;
use step_replay::Actor;

// How often an actor that is held looks whether it may go on.
const MOST_LOOKS: u32 = 1_000_000;

/// A gate that lets these points pass in this order, each once. Whoever comes to one of them waits
/// for those before it; a point that the list has no more passes at once.
///
/// A point is a line: where an actor stands, who it is, and the kind of its action.
///
/// | line | the actor stands |
/// |---|---|
/// | `before INV1 In`, `after CLOCK Expire` | before an action of its kind, and behind one |
/// | `asks DLR2` | under the lock of an action, about to ask a word |
/// | `goes_on DLR2` | at the same place, about to go on |
#[derive(Drop)]
pub(crate) struct Script {
    marks: &'static [&'static str],
    passed: AtomicU64,
    ran_out: Flag,
}

impl Script {
    /// The gate of these points.
    pub(crate) fn new(marks: &'static [&'static str]) -> Self {
        Script {
            marks,
            passed: AtomicU64::new(0),
            ran_out: Flag::new(),
        }
    }

    /// Whether all points have passed, and nobody waited in vain.
    pub(crate) fn is_done(&self) -> bool {
        !self.ran_out.is_up() && self.passed.load(Ordering::SeqCst) == self.marks.len() as u64
    }

    /// The place in the list of the next point that is this one.
    fn place_of(&self, stand: &str, by: &str, kind: &str) -> Option<u64> {
        let passed = self.passed.load(Ordering::SeqCst);
        for (index, mark) in self.marks.iter().enumerate() {
            let place = index as u64;
            if place >= passed && is_point(*mark, stand, by, kind) {
                return Some(place);
            }
        }
        None
    }

    /// Waits until all points before this place have passed, and answers whether they have.
    fn comes(&self, place: u64) -> bool {
        for _ in 0..MOST_LOOKS {
            if self.passed.load(Ordering::SeqCst) == place {
                return true;
            }
            if self.ran_out.is_up() {
                return false;
            }
            yield_now();
        }
        false
    }

    /// An actor stands at this point.
    fn stands(&self, stand: &str, by: Actor, kind: &str) {
        let Some(place) = self.place_of(stand, actor_name(by), kind) else {
            return;
        };
        if !self.comes(place) {
            self.ran_out.raise();
            return;
        }
        self.passed.store(place.wrapping_add(1), Ordering::SeqCst);
    }
}

impl Gate for Script {
    fn at(&self, point: Point) {
        match point {
            Point::Before(by, kind) => self.stands("before", by, kind_name(kind)),
            Point::After(by, kind) => self.stands("after", by, kind_name(kind)),
            Point::Asked(by) => {
                self.stands("asks", by, "");
                self.stands("goes_on", by, "");
            }
        }
    }
}

/// Whether a line is this point.
fn is_point(mark: &str, stand: &str, by: &str, kind: &str) -> bool {
    let mut parts = mark.split(' ');
    for part in [stand, by, kind] {
        if parts.next().unwrap_or("") != part {
            return false;
        }
    }
    true
}

/// The name of an actor of the venue of the tests.
fn actor_name(actor: Actor) -> &'static str {
    match actor {
        Actor::Firm(0) => "DLR1",
        Actor::Firm(1) => "DLR2",
        Actor::Firm(2) => "DLR3",
        Actor::Firm(3) => "INV1",
        Actor::Firm(_) => "INV2",
        Actor::Clock => "CLOCK",
    }
}

/// The name of a kind.
pub(crate) fn kind_name(kind: Kind) -> &'static str {
    match kind {
        Kind::In => "In",
        Kind::Expire => "Expire",
        Kind::Open => "Open",
        Kind::Show => "Show",
        Kind::Ready => "Ready",
        Kind::Post => "Post",
        Kind::Relay => "Relay",
        Kind::Unpost => "Unpost",
        Kind::Gone => "Gone",
        Kind::Decline => "Decline",
        Kind::Declined => "Declined",
        Kind::Hit => "Hit",
        Kind::Pass => "Pass",
        Kind::Answer => "Answer",
        Kind::Close => "Close",
        Kind::Tell => "Tell",
        Kind::Drop => "Drop",
    }
}
