//! Laws of a firm's session and of what a start recovers of it, over every list of events: each is a
//! public function that does nothing, and its contract is the law.
//!
//! Of a session:
//!
//! - [`nothing_without_a_logon`]: what a stranger sends reaches nobody, and moves nothing.
//! - [`each_message_is_taken_once`]: the numbers of what the venue is given rise.
//! - [`no_message_is_counted_and_dropped`]: in which ways alone the expected number moves.
//! - [`what_leaves_was_given`]: what is kept leaves in its order, and a gap fill covers none of it.
//! - [`what_is_kept_was_given`], [`what_leaves_is_what_is_kept`]: what the venue gives is kept, and what
//!   leaves of it is that but for the session's own fields of the header.
//! - [`a_resend_comes_to_its_end`]: a session that is handed what it wants stops wanting after as many
//!   turns as there are numbers, and each message that was asked for has left once.
//! - [`a_session_is_bounded`]: a turn sends at most two messages, and every number stays in its bounds.
//! - [`a_restart_changes_nothing`], [`a_message_is_given_again_as_it_was`]: a session that is made of
//!   what was kept goes on as the first one would have.
//! - [`session_limits_are_as_written`]: the numbers that these laws name by constants of the code.
//!
//! Each event names its connection and is one message.
//!
//! Of recovery:
//!
//! - [`a_start_is_a_fold`]: with more notes a start goes on from where fewer end.
//! - [`recovered_is_the_session`]: what is recovered is what the gateway has in memory, with kills, commits
//!   that fail, failovers and restarts of the venue's process anywhere.
//! - [`what_left_is_recovered`]: what left is what a start has under its number.
//! - [`what_left_stands`]: it stays so, and a gateway that has lost its term says nothing else.
//! - [`rejects_stand`]: nor does a Reject change.
//! - [`numbers_leave_once`]: no number that left is free, and under one number leaves one message.
//! - [`nothing_is_lost_or_taken_twice`]: no message of the firm is taken twice, and one that is lost is asked
//!   for again.
//! - [`nothing_is_denied`]: no message that left is a gap later, no message that was taken is denied, and none
//!   that was denied is taken.
//! - [`times_stand`]: what a firm reads as the time of a message does not change.
//!
//! No code stands on this crate.
#![tactic(auto)]

mod limits;
mod recovery;
mod resends;
mod sessions;

pub use limits::session_limits_are_as_written;
pub use recovery::{
    a_start_is_a_fold, nothing_is_denied, nothing_is_lost_or_taken_twice, numbers_leave_once,
    recovered_is_the_session, rejects_stand, times_stand, what_left_is_recovered, what_left_stands,
};
pub use resends::a_resend_comes_to_its_end;
pub use sessions::{
    a_message_is_given_again_as_it_was, a_restart_changes_nothing, a_session_is_bounded,
    each_message_is_taken_once, no_message_is_counted_and_dropped, nothing_without_a_logon,
    what_is_kept_was_given, what_leaves_is_what_is_kept, what_leaves_was_given,
};
