//! What the configuration says of an investor.
ghost use Rattle.std.specs.Prelude.{◌≡◌, ◌≤◌, length};
ghost use Rattle.venue_rows.specs.declared.investor_rows.TheConstants.InvestorRow.{MOST_REQUESTS};
ghost use Rattle.venue_rows.specs.declared.investor_rows.TheConstants.InvestorRow.{MOST_OPEN};
ghost use Rattle.venue_rows.specs.declared.investor_rows.TheConstants.InvestorRow.{MOST_QUANTITY};

use crate::{Name, Traders};

/// An investor of the venue with its limits for the day.
#[derive(Drop)]
pub struct InvestorRow {
    /// The name of the firm, its SenderCompID (49).
    pub name: Name,
    /// Its traders, its SenderSubIDs (50): 1 to 16.
    pub traders: Traders,
    /// How many of its requests are accepted in a day at most: 1 to 1,024.
    pub requests: u32,
    /// How many of its requests may be open at one time: 1 to 1,024.
    pub open_limit: u32,
    /// The greatest quantity of one request (OrderQty 38): 1 to 1,000,000,000,000.
    pub quantity: u64,
    ghost has_trader: { 1 ≤ length traders },
    ghost requests_from: { 1 ≤ requests },
    ghost requests_to: { requests ≤ MOST_REQUESTS },
    ghost open_limit_from: { 1 ≤ open_limit },
    ghost open_limit_to: { open_limit ≤ MOST_OPEN },
    ghost quantity_from: { 1 ≤ quantity },
    ghost quantity_to: { quantity ≤ MOST_QUANTITY },
}

impl InvestorRow {
    /// The greatest number of requests in a day.
    pub const MOST_REQUESTS: u32 = 1_024;

    /// The greatest number of requests that may be open at one time.
    pub const MOST_OPEN: u32 = 1_024;

    /// The greatest quantity of one request.
    pub const MOST_QUANTITY: u64 = 1_000_000_000_000;

    /// The same row once more. It takes no memory.
    pub fn copy(&self) -> Self
        ensures { result ≡ self.now }
    {
        InvestorRow {
            name: self.name.copy(),
            traders: self.traders.copy(),
            requests: self.requests,
            open_limit: self.open_limit,
            quantity: self.quantity,
        }
    }
}
