//! Bytes that calls put together.

use case_lines::{Call, CaseFault, Words, check_sum_of, piped_bytes_of};
use std::alloc::Global;

/// Bytes that calls put together.
#[derive(Drop)]
pub(crate) struct ByteBuffer {
    bytes: Vec<u8>,
}

impl ByteBuffer {
    /// No bytes yet.
    pub(crate) fn new(alloc: Global) -> Self {
        ByteBuffer {
            bytes: Vec::new(alloc),
        }
    }

    /// The bytes.
    pub(crate) fn as_slice(&self) -> &[u8] {
        self.bytes.as_slice()
    }

    /// `bytes BYTES`: these bytes and no others.
    pub(crate) fn set(&mut self, alloc: Global, text: &str) -> Result<(), CaseFault> {
        self.bytes = piped_bytes_of(alloc, text)?;
        Ok(())
    }

    /// `add BYTES`: these bytes behind the others.
    pub(crate) fn add(&mut self, alloc: Global, text: &str) -> Result<(), CaseFault> {
        let bytes = piped_bytes_of(alloc, text)?;
        self.bytes.extend_from_slice(bytes.as_slice())?;
        Ok(())
    }

    /// `add_times N BYTES`: these bytes N times behind the others.
    pub(crate) fn add_times(&mut self, alloc: Global, words: &mut Words) -> Result<(), CaseFault> {
        let bytes = bytes_times(alloc, words)?;
        self.bytes.extend_from_slice(bytes.as_slice())?;
        Ok(())
    }

    /// `add_sum`: CheckSum (10) of the bytes.
    pub(crate) fn add_sum(&mut self, alloc: Global) -> Result<(), CaseFault> {
        let end = check_sum_of(alloc, self.bytes.as_slice())?;
        self.bytes.extend_from_slice(end.as_bytes())?;
        Ok(())
    }
}

/// The bytes that a call ends with; of one that is named `.._times` so many times.
pub(crate) fn bytes_in(call: &mut Call<'_>) -> Result<Vec<u8>, CaseFault> {
    if call.name.ends_with("_times") {
        return bytes_times(call.alloc, &mut call.words);
    }
    piped_bytes_of(call.alloc, call.words.rest())
}

/// `N BYTES`: these bytes N times.
fn bytes_times(alloc: Global, words: &mut Words) -> Result<Vec<u8>, CaseFault> {
    let count = words.number()? as usize;
    let bytes = piped_bytes_of(alloc, words.rest())?;
    let bytes = repeated(alloc, bytes.as_slice(), count)?;
    Ok(bytes)
}

/// Bytes, so many times.
fn repeated(alloc: Global, bytes: &[u8], count: usize) -> Result<Vec<u8>, CaseFault> {
    let mut all = Vec::new(alloc);
    for _ in 0..count {
        all.extend_from_slice(bytes)?;
    }
    Ok(all)
}
