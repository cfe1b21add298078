//! `fix_sessions` for C and C++: a session is a struct of the caller's, and each call changes it by
//! one event, or changes nothing and answers false.
//!
//! A copy of the struct is a snapshot: the caller makes it its own once what the turn keeps is
//! committed. A text is a pointer and a length. What a turn says stands in one buffer, in this order:
//! what leaves first, what leaves behind it, and what is kept; [`Told`] has their lengths.
#![tactic(auto)]

mod calls;
mod laws;
mod parts;
mod states;
mod streams;
mod told;
mod wires;

pub use laws::{lengths_are_as_written, sessions_are_read_back};
pub use states::SessionState;
pub use streams::{Asked, FoundNext, Wanted};
pub use told::{Sent, Told};
