//! Weaves a recorded day: makes of its actions one list of steps.
//!
//! ```ignore
//! let steps = weave(alloc, &config, &record)?; // the day as steps of `step_replay`
//! ```
//!
//! # What is promised
//!
//! [`weave`] makes a list of steps of a record, which sends every firm what the record says: so
//! what is promised of days that are replayed holds of that day. The order of these steps keeps
//! what came before what ([`orders_keep_what_is_before`]): it has each action once, behind all that
//! are directly before it, and it counts them ([`orders_are_kept_by_counting`]). Memory aside, a record is refused as
//! malformed exactly where it is of no day ([`well_formed_days_are_not_malformed`]). A day that has
//! such an order is never called a cycle ([`days_with_an_order_are_no_cycle`]).
#![tactic(auto)]

mod day_form;
mod day_reading;
mod name_checks;
mod order_counts;
mod order_laws;
mod sent_checks;
mod sites;
mod weave_order;
mod weave_plan;
mod weave_search;
mod weave_table;
mod weave_waits;
mod weaving;
mod woven_steps;

pub use order_laws::{
    days_with_an_order_are_no_cycle, orders_are_kept_by_counting, orders_keep_what_is_before,
    well_formed_days_are_not_malformed,
};
pub use weaving::{WeaveFault, weave};
