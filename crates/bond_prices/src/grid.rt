//! The grids that bonds are quoted on.
ghost use Rattle.std.specs.Prelude.{◌≡◌, ℕ, ◌*◌, ◌/◌, ◌↔◌, IsTrue};
ghost use Rattle.bond_prices.specs.Grid as spec;

use crate::ticks::Ticks;
use std::marker::Model;

/// The grid of a bond's prices: they are whole numbers of 1/32, 1/64, 1/128 or 1/256 point.
///
/// A contract sees a `Grid` as the number of its steps in a point.
#[derive(Clone, Copy, Debug, PartialEq, Eq)]
pub struct Grid {
    steps: u32,
}

impl Model for Grid {
    ghost use Rattle.std.specs.Prelude.{ℕ, IsTrue};
    ghost use Rattle.bond_prices.specs.Grid.{is_grid};

    ghost Value = { ℕ };

    ghost view = { λ grid. grid.steps };

    ghost invariant = { λ grid. IsTrue (is_grid grid.steps) };

    ghost inverse = { λ n. record { steps = n } };
}

impl Grid {
    /// The finest grid, of 256ths, on which every price is.
    pub const FINEST: Grid = Grid { steps: 256 };

    /// The grid of `steps` in a point, or `None` where `steps` is none of 32, 64, 128 and 256.
    pub fn new(steps: u32) -> Option<Grid>
        ensures { result ≡ spec.grid_of steps }
    {
        if steps != 32 && steps != 64 && steps != 128 && steps != 256 {
            return None;
        }
        Some(Grid { steps })
    }

    /// How many steps a point has: 32, 64, 128 or 256.
    pub fn get(self) -> u32
        ensures value { result ≡ self }
        ensures is_grid { IsTrue (spec.is_grid result) }
    {
        self.steps
    }
}

/// Whether a price is a whole number of the grid's steps: whether its ticks are a multiple of 256
/// divided by the grid.
pub fn on_grid(price: Ticks, grid: Grid) -> bool
    ensures exact { result ≡ spec.on_grid price grid }
    ensures multiple { IsTrue result ↔ ((steps : ℕ) × (price ≡ steps * (256 / grid))) }
{
    price.get() % (256 / grid.get()) == 0
}
