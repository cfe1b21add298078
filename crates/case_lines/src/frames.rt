//! Frames of texts.
use crate::faults::CaseFault;
use fix_fields::{Date, StreamFault};
use std::alloc::Global;

/// 14 March 2025, the day of the cases.
pub fn day() -> Option<Date> {
    Date::new(b"20250314")
}

/// The frame of a body: BeginString (8) and BodyLength (9) in front of it, and CheckSum (10) behind
/// it.
pub fn frame_of(alloc: Global, body: &[u8]) -> Result<Vec<u8>, CaseFault> {
    let front = format!(in alloc; "8=FIXT.1.1\u{1}9={}\u{1}", body.len())?;
    let mut bytes = front.into_bytes();
    bytes.extend_from_slice(body)?;
    let end = check_sum_of(alloc, bytes.as_slice())?;
    bytes.extend_from_slice(end.as_bytes())?;
    Ok(bytes)
}

/// CheckSum (10) of bytes, with its separator.
pub fn check_sum_of(alloc: Global, bytes: &[u8]) -> Result<String, CaseFault> {
    let end = format!(in alloc; "10={:03}\u{1}", sum_of(bytes))?;
    Ok(end)
}

/// The sum of bytes, modulo 256.
fn sum_of(bytes: &[u8]) -> u8 {
    let mut sum: u8 = 0;
    for byte in bytes {
        sum = sum.wrapping_add(*byte);
    }
    sum
}

/// The name of a stream's fault.
pub fn stream_fault_name(fault: StreamFault) -> &'static str {
    match fault {
        StreamFault::Start => "Start",
        StreamFault::Length => "Length",
        StreamFault::TooLong => "TooLong",
        StreamFault::End => "End",
        StreamFault::Memory => "Memory",
    }
}
