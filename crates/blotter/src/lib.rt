//! A firm's blotter as text: a dealer's quotes or an investor's requests of a day, a line each.
//!
//! ```text
//!    1 09:00:10.000 T1       R1    BONDA0000001 B       2000000  99-161 lifted
//! ```
//!
//! # Example
//!
//! ```ignore
//! let text = blotter_text(alloc, &FirmLines::Dealer(desk.lines()))?;
//! ```
//!
//! # What is promised
//!
//! - [`blotter_text`] is the text of its definition, column by column, for every list of lines; only
//!   memory can be refused.
#![tactic(auto)]

mod blotters;
mod columns;

pub use blotters::blotter_text;
