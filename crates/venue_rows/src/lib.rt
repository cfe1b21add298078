//! What a venue is configured with for a day: bonds with their grids and bands, and dealers
//! and investors with their traders and limits, row by row.
//!
//! ```text
//! let number = config.firm("DLR1");
//! let row = config.dealer(0)?;
//! let trader = row.traders.find(b"T1")?;
//! let grid = config.bond(b"BONDA0000001")?.grid;
//! assert!(config.has_room(3, 1));
//! ```
//!
//! What is proved, of every configuration:
//!
//! - A [`VenueConfig`] keeps every limit: no bond, no name of a firm and no trader of a firm stands
//!   twice, each text has its form, and each number, each array and both sums are within their
//!   limits.
//! - A bond is found by its identifier, a dealer and an investor by their numbers as firms, a
//!   number by the name: exactly where the configuration has them.
//! - [`VenueConfig::has_room`] is true for exactly the requests of configured investors.
//! - A [`Name`] and a [`BondId`] are made of exactly the texts of their form. Rows and traders are
//!   copied without memory, and two dealers' rows with equal values are the same row.
//!
//! `specs/Rows.antt` has what a contract sees of a configuration, and its limits.
#![tactic(auto)]

mod bond_ids;
mod bond_rows;
mod characters;
mod config;
mod copies;
mod dealer_rows;
mod investor_rows;
mod laws;
mod names;
mod traders;

pub use bond_ids::BondId;
pub use bond_rows::BondRow;
pub use config::VenueConfig;
pub use dealer_rows::DealerRow;
pub use investor_rows::InvestorRow;
pub use laws::rows_are_their_values;
pub use names::Name;
pub use traders::Traders;
