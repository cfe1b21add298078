//! A day of the venue on threads: one session a firm, one clock, and one lock for each desk and
//! each room.
//!
//! ```text
//! let record = run_day(rt, alloc, config, inboxes, sweeps, &gate)?; // all threads have ended
//! ```
//!
//! # What is promised
//!
//! - [`run_day`]: the record keeps what `KeepsDay` of `day_checks/specs/KeptDays` says, however the
//!   threads ran: it has the venue's firms and rooms, and the inboxes that came; what each firm was
//!   sent follows from the events at its desk; all settlements of one word agree; and `day_checks`
//!   finds no fault. With more or fewer inboxes than firms there is no day. Else an `Inbox` names a
//!   firm of the venue, and any other fault but `Memory` is the first of a day of the venue to which
//!   these messages came (`IsFaultOf` of `day_checks/specs/DayFaults`).
//!
//! Not promised: that a session ends; that memory is there; what a [`session`] or the [`clock`] did
//! by itself, since no caller of a lock can say what it did under it. What lies under each lock
//! while it is free is said in `specs/Locks`.
#![tactic(auto)]

mod actors;
mod days;
mod dealers;
mod done;
mod duties;
mod gates;
mod investors;
mod joined;
mod naming;
mod rooms;
mod threads;
mod venue;
mod watched;

pub use actors::{clock, session};
pub use days::run_day;
pub use gates::{Gate, Point};
pub use naming::Naming;
pub use venue::SharedVenue;
