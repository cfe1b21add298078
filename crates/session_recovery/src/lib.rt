//! What a start, a failover and a resend make of a firm's session: a fold over the notes that the gateway
//! has sealed, and what the venue gives for the entries.
//!
//! - A [`Note`] says what the session did by itself: a message of its own that used a number, a reset, a
//!   lock or its release, or only how far its numbers are.
//! - [`recovered_from_nothing`] is the session before any note; [`after_message`], [`after_note`] and
//!   [`after_entry`] take it on by what the venue gave, by a note, and by an entry of the firm.
//!
//! Where something does not fit, they say why ([`Refusal`]); none of them has a condition.
//!
//! What a turn of the session puts into a batch, [`put_by`] says.
//!
//! The state is numbers ([`Recovered`]). Under which number what is kept, `specs/Recovered` says
//! (`Point`): the bodies are the caller's to keep. `specs/Recovered` has the whole fold, `recovered`.
#![tactic(auto)]

mod days;
mod notes;
mod points;
mod puts;
mod refusals;

pub use notes::{Digest, Note, NoteKind};
pub use points::{Recovered, after_entry, after_message, after_note, recovered_from_nothing};
pub use puts::{Put, Standing, note_of, put_by};
pub use refusals::{MOST, MOST_NEXT, Refusal};
