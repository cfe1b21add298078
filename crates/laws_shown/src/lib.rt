//! Laws of what the venue shows: nobody, the venue included, stands between an investor and a
//! dealer with another price. What is true of the audit trail after every list of steps of every
//! venue; each is a public function that does nothing, and its contract is the law.
//!
//! - [`what_is_shown_was_quoted`]: over the bytes that firms were sent, as anyone reads them. What
//!   an investor is shown of a quote (35=S) is what the dealer wrote that 448 names, on the
//!   investor's own request, in one message for each quote; what a dealer is shown of a request
//!   (35=R) is what the investor wrote, and names that dealer.
//! - [`quotes_are_shown_as_written`], [`requests_are_shown_as_written`]: the same over the facts of
//!   the audit trail.
//! - [`quotes_are_shown_in_order`], [`quotes_are_shown_once`]: the quotes of one dealer on one
//!   request in the order in which they came, and each accepted quote at most once.
//!
//! No code stands on this crate, and `laws_trades`, `laws_rooms` and `laws_wire` do.
#![tactic(auto)]

mod laws;

pub use laws::{
    quotes_are_shown_as_written, quotes_are_shown_in_order, quotes_are_shown_once,
    requests_are_shown_as_written, what_is_shown_was_quoted,
};
