//! Why a call can't be made.
use fix_fields::Memory;
use std::alloc::AllocFailed;

/// Why a call of a case can't be made, or a file of cases can't be run.
#[derive(Clone, Copy, Debug, PartialEq, Eq)]
pub enum CaseFault {
    /// An allocation was refused.
    Memory,
    /// The line is none that the driver knows.
    Form,
    /// What the call requires does not hold.
    Condition,
    /// There is no place yet that could be called.
    NotOpen,
}

impl CaseFault {
    /// The word that tells it.
    pub fn word(self) -> &'static str {
        match self {
            CaseFault::Memory => "memory",
            CaseFault::Form => "form",
            CaseFault::Condition => "condition",
            CaseFault::NotOpen => "not open",
        }
    }
}

impl From<Memory> for CaseFault {
    fn from(_error: Memory) -> CaseFault {
        CaseFault::Memory
    }
}

impl<T: Drop> From<AllocFailed<T>> for CaseFault {
    fn from(_error: AllocFailed<T>) -> CaseFault {
        CaseFault::Memory
    }
}
