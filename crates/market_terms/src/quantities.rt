//! Quantities.
ghost use Rattle.std.specs.Prelude.{◌≡◌, ℕ, ◌≤◌, Some, None, if◌then◌else◌};
ghost use Rattle.market_terms.specs.Texts.{is_quantity};

use std::marker::Model;

/// A quantity of a bond (OrderQty 38, BidSize 134, OfferSize 135): a whole number from 1 to
/// 1,000,000,000,000.
#[derive(Clone, Copy)]
pub struct Quantity {
    units: u64,
}

impl Model for Quantity {
    ghost use Rattle.std.specs.Prelude.{ℕ, IsTrue};
    ghost use Rattle.market_terms.specs.Texts.{is_quantity};

    ghost Value = { ℕ };

    ghost view = { λ q. q.units };

    ghost invariant = { λ q. IsTrue (is_quantity q.units) };

    ghost inverse = { λ units. record { units = units } };
}

impl Quantity {
    /// The greatest quantity.
    pub const MOST: u64 = 1_000_000_000_000;

    /// That many units, or none for 0 and for more than [`Quantity::MOST`].
    pub fn new(units: u64) -> Option<Self>
        ensures { result ≡ (if is_quantity units then Some units else None) }
    {
        if units < 1 || units > Self::MOST {
            return None;
        }
        Some(Quantity { units })
    }

    /// The number of units.
    pub fn get(self) -> u64
        ensures value { result ≡ self }
        ensures least { 1 ≤ result }
        ensures most { result ≤ Quantity.MOST }
    {
        self.units
    }
}
