//! Memory that is refused, at each allocation in turn: a place is as before, and the call made again
//! returns as if for the first time.
//!
//! The places take their memory from `Global` alone, so a test can't hand them an allocator that
//! refuses. Each test here is to be run as `rt try --test --fail-alloc N`, for each N in turn, which
//! refuses the N-th allocation; `tests/refused_memory/run.sh` does so. So each test passes whichever
//! allocation is refused.
#![tactic(auto)]

#[cfg(test)]
mod dealers;
#[cfg(test)]
mod frames;
#[cfg(test)]
mod investors;
#[cfg(test)]
mod lines;
#[cfg(test)]
mod rooms;
#[cfg(test)]
mod steps;
#[cfg(test)]
mod streams;
#[cfg(test)]
mod texts;
#[cfg(test)]
mod values;
#[cfg(test)]
mod words;
