//! What the configuration says of a dealer.
ghost use Rattle.std.specs.Prelude.{◌≡◌, ◌≤◌, ◌↔◌, IsTrue, length};
ghost use Rattle.venue_rows.specs.declared.dealer_rows.TheConstants.DealerRow.{MOST_QUOTES};
ghost use Rattle.venue_rows.specs.declared.dealer_rows.TheConstants.DealerRow.{MOST_EXPOSURE};

use crate::{Name, Traders};

/// A dealer of the venue with its limits for the day.
#[derive(Drop)]
pub struct DealerRow {
    /// The name of the firm, its SenderCompID (49).
    pub name: Name,
    /// Its traders, its SenderSubIDs (50): 1 to 16.
    pub traders: Traders,
    /// How many of its quotes are accepted in a day at most: 1 to 4,096.
    pub quotes: u32,
    /// The greatest sum of the quantities of its live quotes: 1 to 1,000,000,000,000,000.
    pub exposure: u64,
    ghost has_trader: { 1 ≤ length traders },
    ghost quotes_from: { 1 ≤ quotes },
    ghost quotes_to: { quotes ≤ MOST_QUOTES },
    ghost exposure_from: { 1 ≤ exposure },
    ghost exposure_to: { exposure ≤ MOST_EXPOSURE },
}

impl DealerRow {
    /// The greatest number of quotes in a day.
    pub const MOST_QUOTES: u32 = 4_096;

    /// The greatest exposure.
    pub const MOST_EXPOSURE: u64 = 1_000_000_000_000_000;

    /// The same row once more. It takes no memory.
    pub fn copy(&self) -> Self
        ensures { result ≡ self.now }
    {
        DealerRow {
            name: self.name.copy(),
            traders: self.traders.copy(),
            quotes: self.quotes,
            exposure: self.exposure,
        }
    }

    /// Whether another row has the same values: whether it is the same row.
    pub fn is_same(&self, other: &Self) -> bool
        ensures { IsTrue result ↔ (self.now ≡ other.now) }
    {
        if self.name.as_bytes() != other.name.as_bytes() {
            return false;
        }
        if !self.traders.is_same(&other.traders) {
            return false;
        }
        self.quotes == other.quotes && self.exposure == other.exposure
    }
}
