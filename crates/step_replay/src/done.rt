//! What an action of a replay did, as whoever tells of it needs it.
ghost use Rattle.std.specs.Prelude.{◌≡◌};
ghost use Rattle.step_replay.specs.DonePlaces as spec;

use crate::floor::Floor;
use crate::live::sent_on;
use fix_fields::Moment;
use market_terms::RoomRef;
use venue_steps::{Duties, FirmNumber};

/// Where something was done, and what the venue had there that may be another now.
#[derive(Clone, Copy)]
pub(crate) enum Done {
    /// Nowhere: nothing happened.
    Nowhere,
    /// At the desk of this firm, which had been sent so many messages before.
    AtDesk(FirmNumber, usize),
    /// In this room, with the deadline that it had before, where it was opening or open then, and
    /// that which it has now, where it is.
    InRoom(RoomRef, Option<Moment>, Option<Moment>),
}

/// An action that was done.
#[derive(Drop)]
pub(crate) struct Acted {
    /// The duties that it left, in their order.
    pub(crate) duties: Duties,
    /// Where it was done.
    pub(crate) done: Done,
}

impl Floor {
    /// At the desk of a firm, by what it was sent so far.
    pub(crate) fn at_desk(&self, firm: u16) -> Done
        ensures { result ≡ spec.at_desk self.now firm }
    {
        let Some(messages) = sent_on(self, firm) else {
            return Done::AtDesk(firm, 0);
        };
        Done::AtDesk(firm, messages.len())
    }
}
