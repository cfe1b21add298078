//! What comes to a venue that runs on threads, and what its actors do, as a day's record has it.
ghost use Rattle.std.specs.Prelude.{◌≡◌};
ghost use Rattle.recorded_days.specs.Kinds as spec;

use fix_fields::Moment;
use market_terms::{Duty, RoomRef};
use quote_messages::Message;
use quote_word::Settled;

/// One message of a firm, as it comes to the venue.
#[derive(Drop)]
pub struct Inbound {
    /// The moment at which it comes.
    pub moment: Moment,
    /// Its bytes, whatever they are.
    pub bytes: Message,
}

/// One sweep of a room by the clock.
#[derive(Clone, Copy)]
pub struct Sweep {
    /// The room.
    pub room: RoomRef,
    /// The moment at which it is swept.
    pub moment: Moment,
}

/// What an actor does: it takes a message of its own, it sweeps a room, or it does a duty, whose
/// name the kind has.
#[derive(Clone, Copy)]
pub enum Kind {
    /// A message of the firm comes to its desk.
    In,
    /// The clock sweeps a room.
    Expire,
    /// A room is opened.
    Open,
    /// A dealer is shown a request.
    Show,
    /// A room is made ready.
    Ready,
    /// A quote is posted in a room.
    Post,
    /// An investor is shown a quote.
    Relay,
    /// A quote is taken out of a room.
    Unpost,
    /// An investor is told that a quote is gone.
    Gone,
    /// A room takes note that a dealer declined.
    Decline,
    /// An investor is told that a dealer declined.
    Declined,
    /// A room decides on a hit.
    Hit,
    /// A room decides on a pass.
    Pass,
    /// An investor is sent a room's reply.
    Answer,
    /// An investor is told that its request expired.
    Close,
    /// A dealer is told how a request ended.
    Tell,
    /// The next quote of a cancel of all quotes is dropped.
    Drop,
}

/// One action of an actor.
#[derive(Clone, Copy)]
pub struct Action {
    /// What it does.
    pub kind: Kind,
    /// The moment of the message or the sweep, or of the duty that it does.
    pub moment: Moment,
    /// The word that it asked, and what that word is from then on, where it asked one.
    pub word: Option<(u32, Settled)>,
}

impl Kind {
    /// The name of a duty.
    pub fn of(duty: &Duty) -> Self
        ensures { result ≡ spec.kind_of duty.now }
    {
        match duty {
            Duty::Open { .. } => Kind::Open,
            Duty::Show { .. } => Kind::Show,
            Duty::Ready { .. } => Kind::Ready,
            Duty::Post { .. } => Kind::Post,
            Duty::Relay { .. } => Kind::Relay,
            Duty::Unpost { .. } => Kind::Unpost,
            Duty::Gone { .. } => Kind::Gone,
            Duty::Decline { .. } => Kind::Decline,
            Duty::Declined { .. } => Kind::Declined,
            Duty::Hit { .. } => Kind::Hit,
            Duty::Pass { .. } => Kind::Pass,
            Duty::Answer { .. } => Kind::Answer,
            Duty::Close { .. } => Kind::Close,
            Duty::Tell { .. } => Kind::Tell,
            Duty::Drop { .. } => Kind::Drop,
        }
    }
}

/// The moment that a duty bears.
pub fn moment_of(duty: &Duty) -> Moment
    ensures { result ≡ spec.moment_of duty.now }
{
    match duty {
        Duty::Open { moment, .. } => *moment,
        Duty::Show { moment, .. } => *moment,
        Duty::Ready { moment, .. } => *moment,
        Duty::Post { moment, .. } => *moment,
        Duty::Relay { moment, .. } => *moment,
        Duty::Unpost { moment, .. } => *moment,
        Duty::Gone { moment, .. } => *moment,
        Duty::Decline { moment, .. } => *moment,
        Duty::Declined { moment, .. } => *moment,
        Duty::Hit { moment, .. } => *moment,
        Duty::Pass { moment, .. } => *moment,
        Duty::Answer { moment, .. } => *moment,
        Duty::Close { moment, .. } => *moment,
        Duty::Tell { moment, .. } => *moment,
        Duty::Drop { moment, .. } => *moment,
    }
}
