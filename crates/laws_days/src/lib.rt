//! Laws of a day of the whole venue: what is true of its audit trail, after every list of steps of
//! every venue. Each is a public function that does nothing; its contract is the law.
//!
//! The headline and what the replay is held to stand in `step_replay`. These say what the list of
//! what is due to a dealer can tell it, and that the table of duties has no line that is never met:
//!
//! - [`price_law`]: where two days are one but for the prices of other dealers, what was due to a
//!   dealer is one in both, but that Cover may stand against Done Away.
//! - [`words_are_settled_as_the_view_says`]: a word that a message or a drop asks is settled as the
//!   dealer view settles it.
//! - [`notices_come_once_after_their_requests`], [`each_named_dealer_is_told_once`]: a closing
//!   notice comes after its request was shown, and at most once; where no duty is left and a room
//!   has ended, each dealer that its request names was told once, as the end says for it.
//! - [`a_hit_notice_names_the_lifted_quote`]: a notice of a hit names the quote that was lifted.
//! - [`steps_meet_their_tests`]: a duty's test never fails. The duty that stands first in a queue
//!   meets the test of its action, and a dealer's message asks a word that the venue has.
//!
//! Of what a step does, and of what comes of it:
//!
//! - [`each_message_in_its_turn_is_answered`]: a message that uses up a number is answered by exactly
//!   one message, or leaves a hit, a pass or the drops of a cancel of all.
//! - [`settled_words_were_asked`]: every settled word was settled by a withdrawal or a hit of that
//!   day: one of its steps is a message or a drop of the quote's dealer, or a hit, that asked it. So
//!   it is with the steps into which a day on threads is woven, too.
//! - [`actions_that_fail_their_tests_do_nothing`]: an action whose test fails adds no fact and leaves
//!   no duty.
//! - [`a_dealers_desk_hears_no_unread_bytes`], [`an_investors_desk_hears_no_unread_bytes`]: bytes
//!   that are no frame, and a frame without a readable MsgSeqNum (34), change nothing at a desk but
//!   the list of its events.
//! - [`a_sweep_leaves_nothing_overdue`]: behind a sweep no open request is past its deadline.
//! - [`no_duty_is_left_on_a_live_day`]: on a live day no duty is left behind a line, so laws of days
//!   on which none is left hold after each.
//! - [`a_longer_log_takes_nothing_back`]: what a firm was sent stays sent, whatever comes later.
//!
//! And three that hold the definitions to what was written down beforehand: a proof computes each
//! worked day, message by message ([`definitions_give_the_worked_days`],
//! [`definitions_give_the_priced_days`]), and each limit is the number that it is to be
//! ([`limits_are_as_written`]).
#![tactic(auto)]

mod condition_laws;
mod later;
mod limits;
mod live_laws;
mod notice_laws;
mod priced_days;
mod prices;
mod settled;
mod sweeps;
mod turns;
mod unmet;
mod unread;
mod worked_days;

pub use condition_laws::steps_meet_their_tests;
pub use later::a_longer_log_takes_nothing_back;
pub use limits::limits_are_as_written;
pub use live_laws::no_duty_is_left_on_a_live_day;
pub use notice_laws::{
    a_hit_notice_names_the_lifted_quote, each_named_dealer_is_told_once,
    notices_come_once_after_their_requests, words_are_settled_as_the_view_says,
};
pub use priced_days::definitions_give_the_priced_days;
pub use prices::price_law;
pub use settled::settled_words_were_asked;
pub use sweeps::a_sweep_leaves_nothing_overdue;
pub use turns::each_message_in_its_turn_is_answered;
pub use unmet::actions_that_fail_their_tests_do_nothing;
pub use unread::{a_dealers_desk_hears_no_unread_bytes, an_investors_desk_hears_no_unread_bytes};
pub use worked_days::definitions_give_the_worked_days;
