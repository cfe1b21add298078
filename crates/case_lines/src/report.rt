//! What came of files of cases.
use crate::faults::CaseFault;
use fix_fields::Memory;
use std::alloc::Global;

/// How many cases have passed and failed, and a text that says what failed, and where.
#[derive(Drop)]
pub struct Report {
    alloc: Global,
    passed: u64,
    failed: u64,
    text: String,
    file: String,
}

impl Report {
    /// Nothing has been run.
    pub fn new(alloc: Global) -> Report {
        Report {
            alloc,
            passed: 0,
            failed: 0,
            text: String::new(alloc),
            file: String::new(alloc),
        }
    }

    /// The cases that come next are those of this file.
    pub fn begin_file(&mut self, name: &str) -> Result<(), Memory> {
        self.file = String::from_str(self.alloc, name)?;
        Ok(())
    }

    /// How many cases have passed.
    pub fn passed(&self) -> u64 {
        self.passed
    }

    /// How many cases have failed, and how many files could not be run.
    pub fn failed(&self) -> u64 {
        self.failed
    }

    /// What failed, and where.
    pub fn text(&self) -> &str {
        self.text.as_str()
    }

    /// A case has passed.
    pub fn pass(&mut self) {
        self.passed = self.passed.saturating_add(1);
    }

    /// The file can't be run, or not from this line on.
    pub fn refuse(&mut self, line: &str, why: &str) -> Result<(), Memory> {
        self.failed = self.failed.saturating_add(1);
        let file = self.file.as_str();
        let told = format!(in self.alloc; "{file}: {why}: {line}\n")?;
        self.text.push_str(told.as_str())
    }

    /// A call of a case could not be made.
    pub fn fault(&mut self, case: &str, call: &str, fault: CaseFault) -> Result<(), Memory> {
        let word = fault.word();
        let told = format!(in self.alloc; "could not be made: {word}\n")?;
        self.tell(case, call, told.as_str())
    }

    /// A call of a case answered something else than was wanted.
    pub fn differ(
        &mut self,
        case: &str,
        call: &str,
        wanted: &str,
        came: &str,
    ) -> Result<(), Memory> {
        let told = format!(in self.alloc; "wanted\n{wanted}came\n{came}\n")?;
        self.tell(case, call, told.as_str())
    }

    /// A case has failed at a call.
    fn tell(&mut self, case: &str, call: &str, told: &str) -> Result<(), Memory> {
        self.failed = self.failed.saturating_add(1);
        let file = self.file.as_str();
        let text = format!(in self.alloc; "{file}: case {case}: {call}\n{told}")?;
        self.text.push_str(text.as_str())
    }
}
