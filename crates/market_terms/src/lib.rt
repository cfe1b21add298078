//! The terms that the three places of a blind multi-dealer RFQ venue share: the desk of a dealer,
//! the desk of an investor, and the room of a request.
//!
//! An investor's [`Ask`] names a bond, a [`Side`] and a [`Quantity`]; it goes to the
//! [`AskedDealers`], each of whom is shown it, in the room that a [`RoomRef`] names. What a step
//! leaves to be done later is a [`Duty`]. A hit or a pass gets a [`Reply`], and each dealer is told
//! a [`Close`] in the end. A firm sees its day as [`QuoteLine`]s or
//! [`RequestLine`]s.
//!
//! # Example
//!
//! ```
//! let dealers = AskedDealers::new(&[0, 1, 2])?;
//! let quantity = Quantity::new(2_000_000)?;
//! let ask = Ask { investor, bond, side: Side::Buy, quantity, deadline, grid, band };
//! let duty = Duty::Open { room: RoomRef { investor: 3, n: 1 }, ask, dealers, moment };
//! ```
//!
//! # What is promised
//!
//! - A [`Quantity`] is from 1 to [`Quantity::MOST`], an [`Id`] and an [`IdBuf`] are 1 to 40
//!   printing characters, and [`AskedDealers`] are 1 to 8 distinct dealers: by their types, so that
//!   whoever holds one need not test it. Each is made of exactly what its form allows.
//! - [`IdBuf`]s are equal where their characters are, and are ordered as those are.
//! - [`Side::code`], [`Close::code`] and [`HitRefusal::name`] are what FIX messages bear of them.
//! - A copy is the value once more.
//!
//! No call has a condition, each returns, and none takes memory.
//!
//! `specs/Checks.antt` says how every check of the market is read: the first condition that holds
//! refuses.
#![tactic(auto)]

mod asks;
mod closes;
mod duties;
mod ids;
mod lines;
mod quantities;
mod rooms;

pub use asks::{Ask, Side};
pub use closes::{Close, HitRefusal, Reply};
pub use duties::Duty;
pub use ids::{Id, IdBuf};
pub use lines::{FirmLines, QuoteLine, QuoteState, RequestLine, RequestState};
pub use quantities::Quantity;
pub use rooms::{AskedDealers, Offer, ResponseRef, RoomRef};
