//! Why a start goes on no further.

/// The last count that is gone on from: an epoch, how many messages the venue gave, and the number of
/// an entry. No session comes near it.
pub const MOST: u64 = 1_000_000_000_000_000_000;

/// The last number that is gone on from: a session uses none above 999,999,999.
pub const MOST_NEXT: u64 = 1_000_000_000;

/// Why a message of the venue, a note or an entry does not follow on what stands before it.
#[derive(Clone, Copy, Debug, PartialEq, Eq)]
pub enum Refusal {
    /// EPOCH of the note is not that of the session.
    Epoch,
    /// GIVEN is below that of the note before, or above what the venue gives.
    Given,
    /// HASH is not that of the venue's messages up to GIVEN.
    Hash,
    /// NUMBER is not the one that is due: the next number. But in A and 5 it is 1 as long as number
    /// 1 is free, in A with `Y` always, and in R, L and M it is 0.
    Number,
    /// HAD is below that of the session.
    Had,
    /// EXPECTED is below that of the session, or in A with `Y` is not 2.
    Expected,
    /// ACT is not behind the last that a note of the session has named. In R also: LAST is below
    /// ACT, or below LAST of the reset before.
    Act,
    /// The number of an entry is not above that of the entry before.
    NotBehind,
    /// A number is beyond all that a session uses.
    TooFar,
}
