//! Answers in a row.
use case_lines::CaseFault;
use std::alloc::Global;

/// Answers, one for each count; those in a row that are equal are told once.
#[derive(Drop)]
pub(crate) struct InRow {
    first: usize,
    last: usize,
    text: String,
}

impl InRow {
    /// No answer yet.
    pub(crate) fn new(alloc: Global) -> InRow {
        InRow {
            first: 0,
            last: 0,
            text: String::new(alloc),
        }
    }

    /// The answer at a count, which comes behind those before it.
    pub(crate) fn take(
        &mut self,
        count: usize,
        text: String,
        answer: &mut String,
    ) -> Result<(), CaseFault> {
        if self.text.as_str() == text.as_str() {
            self.last = count;
            return Ok(());
        }
        self.end(answer)?;
        self.first = count;
        self.last = count;
        self.text = text;
        Ok(())
    }

    /// Tells the answer of the last counts.
    pub(crate) fn end(&self, answer: &mut String) -> Result<(), CaseFault> {
        if self.text.is_empty() {
            return Ok(());
        }
        let (first, last) = (self.first, self.last);
        writeln!(answer, "{first} to {last}")?;
        answer.push_str(self.text.as_str())?;
        Ok(())
    }
}
