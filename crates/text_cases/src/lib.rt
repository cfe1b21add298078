//! Cases as lines of the crates below the desks: frames, streams, moments, prices, terms, and what
//! fields say.
//!
//! [`run_place`] runs a file of cases at a place of this crate: a line is a call, and what the call
//! answers is lines. A value that is absent is `none`, a truth is `yes` or `no`, a fault is its
//! name, and bytes stand as text with a vertical bar for each SOH. A call whose condition does not
//! hold is not made, and is a fault of the case.
//!
//! - `frames`: bytes that are put together, and the frame that they are.
//! - `frame_writer`: a frame that is written field by field.
//! - `streams`: a splitter that is fed, piece by piece.
//! - `moments`: dates, moments and their texts.
//! - `prices`: prices, their texts, and grids.
//! - `terms`: quantities, identifiers, dealers that are asked, and codes.
//! - `message_values`: the texts and numbers that fields have.
//! - `beyond_days`: values past those of any day of the program.
//!
//! The calls of each stand at its type, and those of single values at the functions that make them.
#![tactic(auto)]

mod beyond_days;
mod buffers;
mod frames;
mod longest_messages;
mod moments;
mod parts;
mod places;
mod prices;
mod printing;
mod single_values;
mod streams;
mod terms;
mod values;
mod widest_lines;
mod writer;

pub use places::run_place;
