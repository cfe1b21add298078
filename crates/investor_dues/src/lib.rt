//! What is due to an investor on a day, as a list, and every message that it is sent for such a
//! list.
//!
//! A [`DueDay`] has what was due to one investor on a day of a venue, made of the events at its desk:
//! of a list of steps ([`DueDay::of_steps`]), or of a day whose steps came one by one
//! ([`DueDay::of_live`]). An [`InvestorSeen`] is what the investor sees of the venue, and
//! [`alone_investor`] gives every message that it is sent for such a list, from nothing else:
//!
//! ```ignore
//! let day = DueDay::of_steps(alloc, &config, &steps, investor)?;
//! let messages = alone_investor(alloc, &seen, &day.dues)?; // what the investor was sent on that day
//! ```
//!
//! # What is promised
//!
//! - [`DueDay`]: the list is `due_to_investor` (`investor_views`) of the steps that were done, and the
//!   world is their replay.
//! - [`alone_investor`] is the investor view of what is seen and of the list, on every list, or
//!   memory is refused. So by the laws of `investor_views` it gives what the investor was sent.
//!   [`alone_investor_output`] gives beside each message what is noted of it (`note_view`).
//! - [`is_same_due`] is equality.
#![tactic(auto)]

mod alone;
mod days;
mod events;
mod same;
mod seen;

pub use alone::{alone_investor, alone_investor_output};
pub use days::DueDay;
pub use investor_views::InvestorDue;
pub use same::is_same_due;
pub use seen::InvestorSeen;
