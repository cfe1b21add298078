//! Days on threads, with the races that a gate forces, and two threads that settle the same words.
//!
//! All cases that are no race are lines (`crates/all_cases/data`).
#![tactic(auto)]

#[cfg(test)]
mod actors;
#[cfg(test)]
mod boards;
#[cfg(test)]
mod crowds;
#[cfg(test)]
mod fixtures;
#[cfg(test)]
mod flags;
#[cfg(test)]
mod forced;
#[cfg(test)]
mod forced_days;
#[cfg(test)]
mod forced_ends;
#[cfg(test)]
mod overlaps;
#[cfg(test)]
mod races;
#[cfg(test)]
mod scripts;
#[cfg(test)]
mod settlements;
