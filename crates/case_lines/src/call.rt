//! A call that is being made.
use crate::words::Words;
use std::alloc::Global;

/// A call that is being made: its name, the words behind it, and what it has answered so far.
#[derive(Drop)]
pub struct Call<'a> {
    pub alloc: Global,
    /// The first word of the line.
    pub name: &'a str,
    /// Those behind it.
    pub words: Words<'a>,
    /// The lines of the answer, each with its line feed.
    pub answer: String,
}

impl<'a> Call<'a> {
    /// The call that a line is, which has answered nothing.
    pub fn of(alloc: Global, line: &'a str) -> Call<'a> {
        let (name, behind) = line.split_once(' ').unwrap_or((line, ""));
        Call {
            alloc,
            name,
            words: Words::of(behind),
            answer: String::new(alloc),
        }
    }
}
