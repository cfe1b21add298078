//! Faults as the lines that tell them.
use super::answers::put_fault;
use super::told::told_fault;
use case_lines::{Call, CaseFault, Place, Words};
use std::alloc::Global;

/// Each fault of the program, also those that no input brings about.
///
/// | call | what it does |
/// |---|---|
/// | `fault NAME`, `fault NAME LINE` | answers the line that tells the fault, and how it displays |
#[derive(Drop)]
pub(crate) struct Faults;

impl Place for Faults {
    fn call(&mut self, call: &mut Call<'_>) -> Result<(), CaseFault> {
        match call.name {
            "fault" => tell_fault(&mut call.words, &mut call.answer),
            _ => Err(CaseFault::Form),
        }
    }
}

impl Faults {
    /// Before the first call.
    pub(crate) fn new(_alloc: Global) -> Result<Self, CaseFault> {
        Ok(Faults)
    }
}

/// `fault NAME` or `fault NAME LINE`.
fn tell_fault(words: &mut Words<'_>, answer: &mut String) -> Result<(), CaseFault> {
    let fault = told_fault(words)?;
    put_fault(answer, &fault)?;
    writeln!(answer, "{fault}")?;
    Ok(())
}
