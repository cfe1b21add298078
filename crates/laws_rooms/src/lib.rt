//! Laws of rooms that a firm asks for first: what is asked for is shown, and a room does not stay
//! between the two. Each is a public function that does nothing, and its contract is the law.
//!
//! - [`no_room_is_left_opening`]: where no duty is left, no room is opening, and each dealer that a
//!   room's request names was shown it.
//! - [`each_accepted_request_is_shown`]: then each request that was accepted was shown once to each
//!   dealer that it names.
//! - [`a_request_is_shown_to_no_other_dealer`]: at each moment of a day, a request is shown to no dealer
//!   that it does not name, and none is shown that was not accepted.
//! - [`each_answer_takes_effect_in_its_order`]: then the quotes, withdrawals and declines that stand at a
//!   dealer's desk took effect in the room in their order, and all of them unless the room has ended.
//! - [`each_answer_takes_effect_on_a_live_day`]: on a day whose steps come one by one all of them did.
//! - [`quotes_are_shown_as_they_took_effect`]: then the quotes of a dealer that an investor was shown on
//!   a request are the first of those that took effect, in their order, and all of them while the
//!   request is open at its desk.
//! - [`answers_are_told_as_they_took_effect`]: then the quotes and declines of a dealer that an investor was
//!   told on a request are the first of those that took effect, in their order, and all of them while the
//!   request is open at its desk.
//! - [`answers_are_all_told_on_a_live_day`]: on a day whose steps come one by one they are all of them.
//! - [`each_answer_is_told_in_its_turn`]: then withdrawals are told so too, and a quote that another one
//!   replaces is gone just before that one is shown.
//! - [`each_answer_is_told_on_a_live_day`]: on a day whose steps come one by one all of them are.
//! - [`an_ended_room_is_closed_at_its_desk`]: then the request of a room that has ended is closed at its
//!   investor's desk.
//! - [`a_closed_request_has_an_ended_room`]: at each moment, a request that is closed at its investor's desk
//!   has a room that has ended.
//! - [`each_quote_comes_to_its_investor`]: then each quote in a room was shown to its investor, or the
//!   request was closed there.
//! - [`each_decline_comes_to_its_investor`]: then of each decline in a room, too.
//! - [`each_quote_that_is_gone_is_reported`]: an investor's messages 297=17 are those of the quotes that are
//!   gone by the facts at its desk.
//! - [`each_expiry_is_told_once`]: then 297=7 was sent once for each room that a sweep ended, and for no
//!   other.
//! - [`each_response_is_answered`]: then each hit and each pass of an investor was answered, in their
//!   order.
//!
//! No code stands on this crate.
#![tactic(auto)]

mod answers;
mod asked;
mod closed;
mod declines;
mod ends;
mod expiries;
mod named;
mod quotes;
mod reports;
mod responses;
mod rooms;
mod shown;
mod told;
mod turns;

pub use answers::{each_answer_takes_effect_in_its_order, each_answer_takes_effect_on_a_live_day};
pub use asked::each_accepted_request_is_shown;
pub use closed::a_closed_request_has_an_ended_room;
pub use declines::each_decline_comes_to_its_investor;
pub use ends::an_ended_room_is_closed_at_its_desk;
pub use expiries::each_expiry_is_told_once;
pub use named::a_request_is_shown_to_no_other_dealer;
pub use quotes::each_quote_comes_to_its_investor;
pub use reports::each_quote_that_is_gone_is_reported;
pub use responses::each_response_is_answered;
pub use rooms::no_room_is_left_opening;
pub use shown::quotes_are_shown_as_they_took_effect;
pub use told::{answers_are_all_told_on_a_live_day, answers_are_told_as_they_took_effect};
pub use turns::{each_answer_is_told_in_its_turn, each_answer_is_told_on_a_live_day};
