//! What the configuration says of a bond.

use crate::BondId;
use bond_prices::{Band, Grid};

/// A bond that may be asked for.
#[derive(Clone, Copy)]
pub struct BondRow {
    /// Its identifier (SecurityID 48).
    pub id: BondId,
    /// The grid that it is quoted on.
    pub grid: Grid,
    /// The band that its prices stay in.
    pub band: Band,
}
