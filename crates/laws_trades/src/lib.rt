//! Laws of trades: both sides are told the same trade, what never becomes one, when a trade was made,
//! and the name that it is printed under. Each is a public function that does nothing, and its
//! contract is the law.
//!
//! - [`both_sides_of_a_trade_agree`]: where no duty is left, each answer 297=0 to an investor's hit
//!   and each notice 694=1 to a dealer are the two sides of one trade, in one quote, bond, side,
//!   quantity and price.
//! - [`both_sides_of_a_trade_are_sent_it`]: the same of the bytes that the firms were sent, as anyone
//!   reads them, and [`both_sides_of_a_trade_are_sent_it_on_threads`] of those in the record of a day
//!   on threads that a list of steps sends as it is recorded.
//! - [`a_trade_has_one_name`]: the k-th answer 297=0 to an investor's hits on a dealer's quotes, and
//!   the dealer's k-th notice 694=1 on requests of that investor, are of one request.
//! - [`a_trade_is_named_on_both_sides`]: where no duty is left, each of the one has its other.
//! - [`a_trade_is_printed_to_its_investor`] and [`a_trade_is_printed_to_its_dealer`]: under its place
//!   among the trades of the two firms.
//! - [`a_trade_is_printed_under_one_name`]: on both sides, and no other trade has it.
//! - [`a_trade_has_a_time`]: it is that of the hit, and both messages bear it.
//! - [`an_award_is_in_time`]: a hit is awarded before the request's deadline and while the quote is
//!   valid.
//! - [`an_award_names_the_best_cover`]: the dealer of the best of the other dealers' quotes.
//! - [`what_is_withdrawn_is_never_traded`]: a quote whose withdrawal was confirmed to its dealer, or
//!   which an accepted one replaced, is never traded.
//! - [`a_cancel_of_all_is_answered`]: on a live day by one report for each quote that was droppable.
//!
//! No code stands on this crate.
#![tactic(auto)]

mod awards;
mod cancels;
mod covers;
mod names;
mod printed;
mod printed_names;
mod sent;
mod sides;
mod times;
mod withdrawals;
mod woven;

pub use awards::an_award_is_in_time;
pub use cancels::a_cancel_of_all_is_answered;
pub use covers::an_award_names_the_best_cover;
pub use names::{a_trade_has_one_name, a_trade_is_named_on_both_sides};
pub use printed::{a_trade_is_printed_to_its_dealer, a_trade_is_printed_to_its_investor};
pub use printed_names::a_trade_is_printed_under_one_name;
pub use sent::both_sides_of_a_trade_are_sent_it;
pub use sides::both_sides_of_a_trade_agree;
pub use times::a_trade_has_a_time;
pub use withdrawals::what_is_withdrawn_is_never_traded;
pub use woven::both_sides_of_a_trade_are_sent_it_on_threads;
