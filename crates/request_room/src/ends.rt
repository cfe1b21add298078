//! How a room ended.

/// The kind of a room's end.
#[derive(Clone, Copy, Debug, PartialEq, Eq)]
pub enum EndKind {
    /// The investor hit a quote and lifted its word: the winner is told 694=1, the cover 694=4,
    /// each other dealer 694=5.
    Awarded,
    /// The investor passed: each dealer is told 694=6.
    Passed,
    /// The deadline came: each dealer is told 694=3.
    Expired,
}

/// How a room ended. Without an award there is neither a winner nor a cover.
#[derive(Clone, Copy, Debug, PartialEq, Eq)]
pub struct End {
    /// The kind of the end.
    pub kind: EndKind,
    /// The number of the dealer that won, and the word of its quote.
    pub winner: Option<(u16, u32)>,
    /// The number of the dealer whose quote is the cover: the best of the others, where there is
    /// one.
    pub cover: Option<u16>,
}
