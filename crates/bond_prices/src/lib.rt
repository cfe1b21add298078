//! Bond prices as whole numbers of 256ths of a point, and the grids and bands that bonds are quoted
//! in.
//!
//! A price is quoted in points, and the finest step is 1/256 of a point. So a price is held as a
//! whole number of those steps, a [`Ticks`], from 1 to 255,999, and never as a binary fraction.
//! Only text has points and decimals: [`read_price`] reads it and [`price_text`] prints it.
//! [`thirty_seconds`] prints a price as a trader says it. A bond is quoted on a [`Grid`]: in 32nds,
//! 64ths, 128ths or 256ths of a point, and in a [`Band`] of prices.
//!
//! ```text
//! let price = read_price(b"99.50390625")?;
//! assert_eq!(price.get(), 25_473);
//! assert_eq!(price_text(price).as_str(), "99.50390625");
//! assert_eq!(thirty_seconds(price).as_str(), "99-161");
//! assert!(on_grid(price, Grid::FINEST));
//! assert_eq!(read_price(b"99.501"), Err(PriceFault::Grid));
//! ```
//!
//! What is proved, for every text and every price:
//!
//! - `read_price` returns a number exactly where the text spells that number of 256ths. Nothing is
//!   rounded, and nothing overflows.
//! - Each [`PriceFault`] is returned exactly where its condition is the first that holds. So the
//!   three faults and the prices cover every text, and no two of them meet.
//! - `price_text` prints one text for each price: whole points without leading zeros, then, unless
//!   the fraction is zero, a point and the fraction without trailing zeros.
//! - `read_price` reads what `price_text` prints as the same price, so two prices never print
//!   alike.
//! - `thirty_seconds` prints whole points, 32nds and eighths of a 32nd that are this price.
//! - `on_grid` is true exactly where the price is a whole number of the grid's steps.
//! - `in_band` is true exactly where the price is neither below the lowest nor above the highest of
//!   the band.
//! - No function here takes memory from an allocator.
//!
//! `specs/Price.antt` has the rules of the text in points, and `price_of` and `price_digits`, which
//! say the same as functions; `specs/ThirtySeconds.antt` the text in 32nds, `specs/Grid.antt` the
//! grids and `specs/Band.antt` the bands.
#![tactic(auto)]

mod band;
mod decimal;
mod fault;
mod grid;
mod quoting;
mod read;
mod text;
mod ticks;

pub use band::{Band, in_band};
pub use fault::PriceFault;
pub use grid::{Grid, on_grid};
pub use quoting::thirty_seconds;
pub use read::read_price;
pub use text::price_text;
pub use ticks::Ticks;
