//! Laws of what passes between the wire and the venue, both ways: what a firm's session takes comes to
//! the venue, and what leaves a session of the venue's messages is what the venue sent, whatever other
//! firms do. Each is a public function that does nothing, and its contract is the law.
//!
//! From a firm to the venue:
//!
//! - [`what_is_taken_crosses`]: a message that `fix_sessions` gives the venue is one that
//!   `wire_messages` translates, while the venue's count of the firm's messages has no more digits than
//!   the message's own number.
//! - [`what_a_session_takes_is_counted`]: what a session gives the venue, under the number that the
//!   desk expects, is neither dropped there nor out of sequence.
//!
//! From the venue to a firm:
//!
//! - [`each_message_is_of_a_type_of_the_venue`]: what a firm is sent is one of the messages that
//!   the venue writes; whoever reads it as a frame reads one of its types (35); and none is a
//!   Heartbeat on the wire, so that no gap fill may cover one.
//! - [`each_message_can_be_carried`]: each message of the venue is a frame that bears its number,
//!   has no field that the wire adds, and fits the wire with what is told beside it.
//! - [`no_message_has_a_bar`]: so a line of text that writes SOH as a bar is turned back into it.
//! - [`what_is_kept_reads_back`]: what is kept of the venue's messages, in the order of its numbers,
//!   says what the venue's messages say, each in its place, if each can be carried, as those of the
//!   venue can ([`what_is_kept_of_the_venue_reads_back`]).
//! - [`what_leaves_is_the_venues`]: whatever leaves of a message of the venue's is what is kept, but
//!   for the session's own fields of the header.
//! - [`dealers_are_read_back`]: so what is kept for a dealer is the dealer view of its due list.
//! - [`dealers_are_isolated_on_the_wire`]: where two venues have one due list for a dealer, its n-th
//!   message on the wire is the same in both, byte for byte, but for the session's own fields: 49, 56,
//!   34, 52, 43, 122 and 97 of the header, and 45 of a Reject.
//!
//! The premise is that a session is given what `wire_messages` gives of the venue's messages, in their
//! order (`specs/Carried`), and, for the second venue, that it has the same words for what is noted.
//! When a message leaves, how often, or whether, is not claimed. No code stands on this crate.
#![tactic(auto)]

mod carrying;
mod counting;
mod crossed;
mod dealers;
mod kept;
mod messages;

pub use carrying::{
    each_message_can_be_carried, no_message_has_a_bar, what_is_kept_of_the_venue_reads_back,
};
pub use counting::what_a_session_takes_is_counted;
pub use crossed::what_is_taken_crosses;
pub use dealers::{dealers_are_isolated_on_the_wire, dealers_are_read_back};
pub use kept::{what_is_kept_reads_back, what_leaves_is_the_venues};
pub use messages::each_message_is_of_a_type_of_the_venue;
