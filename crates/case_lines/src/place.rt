//! What is driven by calls.
use crate::call::Call;
use crate::faults::CaseFault;

/// A place that is driven by lines of text. It knows nothing of files and cases.
pub trait Place: Drop {
    /// Makes one call, and appends the lines of its answer, each with its line feed.
    fn call(&mut self, call: &mut Call<'_>) -> Result<(), CaseFault>;
}
