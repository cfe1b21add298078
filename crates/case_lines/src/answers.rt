//! Lines of answers.
use crate::bytes::push_bytes;
use crate::faults::CaseFault;

/// A line of text.
pub fn push_line(answer: &mut String, line: &str) -> Result<(), CaseFault> {
    answer.push_str(line)?;
    answer.push('\n')?;
    Ok(())
}

/// A line of bytes, as [`push_bytes`] writes them.
pub fn push_bytes_line(answer: &mut String, bytes: &[u8]) -> Result<(), CaseFault> {
    push_bytes(answer, bytes)?;
    answer.push('\n')?;
    Ok(())
}

/// A line of a truth: `yes` or `no`.
pub fn push_truth(answer: &mut String, is_so: bool) -> Result<(), CaseFault> {
    push_line(answer, if is_so { "yes" } else { "no" })
}
