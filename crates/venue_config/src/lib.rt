//! The configuration of a venue, read from TOML.
//!
//! ```text
//! let config = read_config(alloc, text)?;
//! let number = config.firm("DLR1");
//! ```
//!
//! [`read_config`] returns the values of the keys in the table that `toml` reads, the rows in their
//! order, none left out or put twice; or the first fault, in the order of [`ConfigFault`] and of the
//! keys. `Memory` may come at any point. In version 1 every bond has the grid 256; from version 2 on
//! each has its own. From version 3 on a bond may have a band of prices. The rows themselves are
//! those of `venue_rows`, which are given out here too.
//!
//! Not promised: that memory is there.
//!
//! `specs/Keys.antt` has the keys as a table, and `specs/Config.antt` what is read from them in what
//! order.
#![tactic(auto)]

mod faults;
mod reading;
mod rows;
mod values;

pub use faults::ConfigFault;
pub use reading::read_config;
pub use venue_rows::{
    BondId, BondRow, DealerRow, InvestorRow, Name, Traders, VenueConfig, rows_are_their_values,
};
