//! Which action left an event at a desk or in a room.
ghost use Rattle.std.specs.Prelude.{◌≡◌};
ghost use Rattle.day_checks.specs.DayActions as spec;

use dealer_desk::DealerEvent;
use fix_fields::Moment;
use investor_desk::InvestorEvent;
use recorded_days::{Action, Kind};
use request_room::RoomEvent;
use step_replay::Actor;

/// An event at a desk or in a room.
pub(crate) trait PlaceEvent {
    ghost use Rattle.std.specs.Prelude.{Bool};
    ghost use Rattle.venue_steps.specs.declared.actors.Actor.{Actor};
    ghost use Rattle.recorded_days.specs.declared.actions.Action.{Action};

    /// Whether an action of an actor is the one that left it.
    ghost left: { Self → Actor → Action → Bool };

    /// Whether an action of an actor is the one that left it: its kind, and its moment where the
    /// event has one, are those of the event.
    fn is_left_by(&self, by: Actor, action: &Action) -> bool
        ensures { result ≡ left self.now by action.now };
}

impl PlaceEvent for DealerEvent {
    ghost left = { spec.left_at_dealer };

    fn is_left_by(&self, _by: Actor, action: &Action) -> bool {
        match self {
            DealerEvent::Received { moment, .. } => is_at(action, Kind::In, *moment),
            DealerEvent::Shown { moment, .. } => is_at(action, Kind::Show, *moment),
            DealerEvent::Told { moment, .. } => is_at(action, Kind::Tell, *moment),
            DealerEvent::Drop { moment, .. } => is_at(action, Kind::Drop, *moment),
        }
    }
}

impl PlaceEvent for InvestorEvent {
    ghost left = { spec.left_at_investor };

    fn is_left_by(&self, _by: Actor, action: &Action) -> bool {
        match self {
            InvestorEvent::Received { moment, .. } => is_at(action, Kind::In, *moment),
            InvestorEvent::QuoteCame { moment, .. } => is_at(action, Kind::Relay, *moment),
            InvestorEvent::QuoteGone { moment, .. } => is_at(action, Kind::Gone, *moment),
            InvestorEvent::DealerDeclined { moment, .. } => is_at(action, Kind::Declined, *moment),
            InvestorEvent::Answered { moment, .. } => is_at(action, Kind::Answer, *moment),
            InvestorEvent::Closed { moment, .. } => is_at(action, Kind::Close, *moment),
        }
    }
}

impl PlaceEvent for RoomEvent {
    ghost left = { spec.left_in_room };

    fn is_left_by(&self, by: Actor, action: &Action) -> bool {
        match self {
            RoomEvent::Open(_) => is_kind(action, Kind::Open),
            RoomEvent::Ready => is_kind(action, Kind::Ready),
            RoomEvent::Post { dealer, .. } => is_by(action, Kind::Post, by, *dealer),
            RoomEvent::Unpost { dealer, .. } => is_by(action, Kind::Unpost, by, *dealer),
            RoomEvent::Decline { dealer } => is_by(action, Kind::Decline, by, *dealer),
            RoomEvent::Hit { moment, .. } => is_at(action, Kind::Hit, *moment),
            RoomEvent::Pass { moment } => is_at(action, Kind::Pass, *moment),
            RoomEvent::Expire { moment } => is_at(action, Kind::Expire, *moment),
        }
    }
}

/// Whether an action is of a kind, and at a moment.
fn is_at(action: &Action, kind: Kind, moment: Moment) -> bool
    ensures { result ≡ spec.is_at kind moment action.now }
{
    if !is_kind(action, kind) {
        return false;
    }
    action.moment == moment
}

/// Whether an action of an actor is of a kind, and the actor is the firm with this number.
fn is_by(action: &Action, kind: Kind, by: Actor, firm: u16) -> bool
    ensures { result ≡ spec.is_by kind (Actor.Firm firm) by action.now }
{
    let Actor::Firm(own) = by else {
        return false;
    };
    if !is_kind(action, kind) {
        return false;
    }
    own == firm
}

/// Whether an action is of a kind.
fn is_kind(action: &Action, kind: Kind) -> bool
    ensures { result ≡ spec.is_kind kind action.now }
{
    kind_code(action.kind) == kind_code(kind)
}

/// A number for each kind.
fn kind_code(kind: Kind) -> u8
    ensures { result ≡ spec.kind_code kind }
{
    match kind {
        Kind::In => 0,
        Kind::Expire => 1,
        Kind::Open => 2,
        Kind::Show => 3,
        Kind::Ready => 4,
        Kind::Post => 5,
        Kind::Relay => 6,
        Kind::Unpost => 7,
        Kind::Gone => 8,
        Kind::Decline => 9,
        Kind::Declined => 10,
        Kind::Hit => 11,
        Kind::Pass => 12,
        Kind::Answer => 13,
        Kind::Close => 14,
        Kind::Tell => 15,
        Kind::Drop => 16,
    }
}
