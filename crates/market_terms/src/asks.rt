//! What an investor asks for.
ghost use Rattle.std.specs.Prelude.{◌≡◌};

use crate::Quantity;
use bond_prices::{Band, Grid};
use fix_fields::Moment;
use venue_rows::{BondId, Name};

/// What a request for quote asks for, as each named dealer is shown it.
#[derive(Drop)]
pub struct Ask {
    /// The investor that asks (PartyID 448 with PartyRole 452=13).
    pub investor: Name,
    /// The bond (SecurityID 48).
    pub bond: BondId,
    /// The investor's side (54).
    pub side: Side,
    /// The quantity (OrderQty 38), which each quote is for in full.
    pub quantity: Quantity,
    /// The moment from which on the request takes no quote and no hit (ExpireTime 126).
    pub deadline: Moment,
    /// The grid of the bond's prices, on which each quote's price is.
    pub grid: Grid,
    /// The band of the bond's prices, in which each quote's price is.
    pub band: Band,
}

impl Ask {
    /// The same ask once more. It takes no memory.
    pub fn copy(&self) -> Self
        ensures { result ≡ self.now }
    {
        Ask {
            investor: self.investor.copy(),
            bond: self.bond,
            side: self.side,
            quantity: self.quantity,
            deadline: self.deadline,
            grid: self.grid,
            band: self.band,
        }
    }
}

/// The side of the investor (Side 54): a dealer that answers a buyer sells, and one that answers a
/// seller buys.
#[derive(Clone, Copy, PartialEq, Eq)]
pub enum Side {
    /// The investor buys (54=1) and asks for an offer (OfferPx 133).
    Buy,
    /// The investor sells (54=2) and asks for a bid (BidPx 132).
    Sell,
}

impl Side {
    ghost use Rattle.std.specs.Prelude.{◌≡◌, ◌<◌};
    ghost use Rattle.market_terms.specs.Codes.{side_code};

    /// The digit that stands in the field 54.
    pub fn code(self) -> u64
        ensures code { result ≡ side_code self }
        ensures short { result < 10 }
    {
        match self {
            Side::Buy => 1,
            Side::Sell => 2,
        }
    }
}
