//! What a caller of texts, words, desks, rooms, steps, replays and days needs is called once, as its
//! contract is written: its name, the order of its arguments, its types and its cases.
//!
//! Where that is another form than one would expect, the line of `docs/DECISIONS.md` that says why
//! stands beside the call.
//!
//! Drops are called by the cases of `crates/place_cases`, notes and a venue that answers as lines
//! come by `crates/venue_text`, and the program's own run, `run_program`, by `crates/all_cases`.
#![tactic(auto)]

#[cfg(test)]
mod days;
#[cfg(test)]
mod dealers;
#[cfg(test)]
mod investors;
#[cfg(test)]
mod replays;
#[cfg(test)]
mod rooms;
#[cfg(test)]
mod steps;
#[cfg(test)]
mod texts;
#[cfg(test)]
mod values;
#[cfg(test)]
mod words;
