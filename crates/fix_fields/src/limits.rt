//! Limits that contracts name.

/// How many bytes the longest frame has.
pub const MOST_FRAME: usize = 4_096;

/// How many bytes the longest body has: 25 of the longest frame are BeginString (8), a BodyLength
/// (9) of four digits and CheckSum (10).
pub const MOST_BODY: usize = 4_071;

/// How many milliseconds a day has.
pub const A_DAY: u32 = 86_400_000;

/// How many bytes are looked at together.
pub(crate) const BLOCK: usize = 16;
