//! Why a day on threads has no record.
ghost use Rattle.std.specs.Prelude.{◌≡◌, Some};
ghost use Rattle.day_checks.specs.declared.faults.DayFault.TheVariants.{Memory};

use fix_fields::Memory;
use market_terms::RoomRef;
use std::alloc::AllocFailed;
use std::error::Error;
use std::fmt;

/// Why a day on threads has no record: the first of these that is met. What is behind `Memory` is
/// looked at in this order, once all threads have ended; the looking itself takes memory, too.
#[derive(Clone, Copy)]
pub enum DayFault {
    /// Memory was refused.
    Memory,
    /// The desk of the firm with this number is another firm's, a room of its requests is another
    /// request's, its own events are not its inbox, or, of an investor, what its desk was answered
    /// are not the responses that its messages left. Of several such firms it is the first.
    Inbox(u16),
    /// The closing notices of the dealer with this number do not agree with how the rooms of its
    /// requests ended.
    Told(u16),
    /// The expire events of this room are not its sweeps in their order, or the clock was to sweep
    /// it, and the venue does not have it.
    Sweep(RoomRef),
    /// The requests that the dealer with this number was shown are not those that name it, each
    /// once and as it was asked.
    Shown(u16),
    /// The quotes that took effect in this room are not those that came to its investor, each
    /// dealer's in order and as they were posted.
    Relayed(RoomRef),
    /// The replies to the hits and passes in this room are not those that its investor was
    /// answered, in their order, or it was not told once that the request expired, where it did.
    Answered(RoomRef),
    /// An event at the desk of the firm with this number, or in a room of its requests, is not that
    /// of an action there. Of several such firms it is the first.
    Acted(u16),
}

impl fmt::Display for DayFault {
    ghost use Rattle.day_checks.specs.FaultTexts.{fault_text};

    ghost output = { λ fault. Some (fault_text fault) };

    fn fmt<W: fmt::Write>(&self, f: &mut fmt::Formatter<W>) -> fmt::Result {
        match self {
            DayFault::Memory => write!(f, "out of memory"),
            DayFault::Inbox(firm) => write!(
                f,
                "the desk of firm {firm} does not have its messages or their answers"
            ),
            DayFault::Told(dealer) => {
                write!(f, "dealer {dealer} was not told how its requests ended")
            }
            DayFault::Sweep(room) => write!(
                f,
                "request {} of firm {} was not swept as the clock was told",
                room.n, room.investor
            ),
            DayFault::Shown(dealer) => {
                write!(f, "dealer {dealer} was not shown the requests that name it")
            }
            DayFault::Relayed(room) => write!(
                f,
                "request {} of firm {} did not get the quotes that were posted for it",
                room.n, room.investor
            ),
            DayFault::Answered(room) => write!(
                f,
                "request {} of firm {} did not get the replies of its room",
                room.n, room.investor
            ),
            DayFault::Acted(firm) => {
                write!(
                    f,
                    "firm {firm} has an event of no action, at its desk or in its rooms"
                )
            }
        }
    }
}

impl Error for DayFault {}

impl fmt::Debug for DayFault {
    fn fmt<W: fmt::Write>(&self, f: &mut fmt::Formatter<W>) -> fmt::Result {
        write!(f, "{self}")
    }
}

impl From<Memory> for DayFault {
    ghost from_gives = { λ _ fault. fault ≡ Memory };

    fn from(_error: Memory) -> DayFault {
        DayFault::Memory
    }
}

impl<T: Drop> From<AllocFailed<T>> for DayFault {
    ghost from_gives = { λ _ fault. fault ≡ Memory };

    fn from(_error: AllocFailed<T>) -> DayFault {
        DayFault::Memory
    }
}
