ghost use Rattle.std.specs.Prelude.{◌≡◌, ℕ, ◌≤◌, ◌↔◌, IsSome, IfSome};

use std::marker::Model;

/// A price, as a whole number of ticks of 1/256 point, from 1 to 255,999.
///
/// A contract sees a `Ticks` as that number. Prices compare as their numbers do.
#[derive(Clone, Copy, Debug, PartialEq, Eq, PartialOrd, Ord)]
pub struct Ticks {
    count: u32,
}

impl Model for Ticks {
    ghost Value = { ℕ };

    ghost view = { λ price. price.count };

    ghost invariant = { λ price. (1 ≤ price.count) × (price.count ≤ 255999) };

    ghost inverse = { λ n. record { count = n } };
}

/// The lowest price, in ticks: 0.00390625 points.
pub(crate) const MIN_COUNT: u32 = 1;

/// The highest price, in ticks: 999.99609375 points.
pub(crate) const MAX_COUNT: u32 = 255_999;

impl Ticks {
    /// The lowest price: 0.00390625 points.
    pub const LOWEST: Ticks = Ticks { count: MIN_COUNT };

    /// The highest price: 999.99609375 points.
    pub const HIGHEST: Ticks = Ticks { count: MAX_COUNT };

    /// The price of `count` ticks of 1/256 point, or `None` where `count` is 0 or above 255,999.
    pub fn new(count: u32) -> Option<Ticks>
        ensures in_range { IsSome result ↔ ((1 ≤ count) × (count ≤ 255999)) }
        ensures value { IfSome result (λ price. price ≡ count) }
    {
        if count < MIN_COUNT || count > MAX_COUNT {
            return None;
        }
        Some(Ticks { count })
    }

    /// The number of ticks of 1/256 point, from 1 to 255,999.
    pub fn get(self) -> u32
        ensures value { result ≡ self }
        ensures at_least_one { 1 ≤ result }
        ensures at_most { result ≤ 255999 }
    {
        self.count
    }
}
