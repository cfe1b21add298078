//! The bands that a bond's prices stay in.
ghost use Rattle.std.specs.Prelude.{◌≡◌, ◌↔◌, IsTrue};
ghost use Rattle.bond_prices.specs.Band as spec;

use crate::ticks::Ticks;

/// The band of a bond's prices: from its lowest to its highest, both within. Where the lowest is
/// above the highest, no price is in it.
#[derive(Clone, Copy)]
pub struct Band {
    /// The lowest price.
    pub low: Ticks,
    /// The highest price.
    pub high: Ticks,
}

impl Band {
    /// The band in which every price is.
    pub const WHOLE: Band = Band {
        low: Ticks::LOWEST,
        high: Ticks::HIGHEST,
    };

    /// Whether another band has the same ends.
    pub fn is_same(self, other: Band) -> bool
        ensures exact { result ≡ spec.same_band self other }
        ensures same { IsTrue result ↔ (self ≡ other) }
    {
        if self.low.get() != other.low.get() {
            return false;
        }
        self.high.get() == other.high.get()
    }

    /// Whether it is the band of every price.
    pub fn is_whole(self) -> bool
        ensures { result ≡ spec.is_whole self }
    {
        self.is_same(Band::WHOLE)
    }
}

/// Whether a price is in a band: neither below its lowest nor above its highest.
pub fn in_band(price: Ticks, band: Band) -> bool
    ensures { result ≡ spec.in_band price band }
{
    band.low.get() <= price.get() && price.get() <= band.high.get()
}
