//! `session_recovery` for C and C++: what is recovered of a firm's session is a struct of the caller's,
//! and each call takes it on by one step, or leaves it as it was and says why.
//!
//! No call has a condition, takes memory or keeps a pointer. A verdict is a number: 0 where the step is
//! taken, else the reason, whose numbers `specs/Verdicts` has.
#![tactic(auto)]

mod calls;
mod lines;
mod verdicts;

pub use lines::NoteNumbers;
