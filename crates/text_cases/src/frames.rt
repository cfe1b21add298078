//! Frames that are read.

use crate::buffers::ByteBuffer;
use crate::printing::{garbled_name, push_field, push_number, push_value_or_none};
use case_lines::{Call, CaseFault, Place, Words, push_line};
use fix_fields::{Frame, Garbled, read_frame};
use std::alloc::Global;
use std::fmt::Write;

/// The place `frames`: bytes that are put together, and the frame that they are.
///
/// - `bytes BYTES`, `add BYTES`, `add_times N BYTES`, `add_sum`: the bytes; CheckSum (10) behind
///   them.
/// - `len`: how many there are.
/// - `read`: the fields of the frame, or the fault. `fault`: the fault, or `none`.
/// - `get TAG`, `get_len TAG`, `times TAG`: the first value, its length, and how many there are.
/// - `fronts`: the faults of all shorter fronts, each with the first length that has it.
/// - `each_byte_changed`: how many frames there are among the bytes with one byte changed to each
///   other value.
#[derive(Drop)]
pub(crate) struct FrameCases {
    buffer: ByteBuffer,
}

impl Place for FrameCases {
    fn call(&mut self, call: &mut Call<'_>) -> Result<(), CaseFault> {
        match call.name {
            "bytes" => self.buffer.set(call.alloc, call.words.rest()),
            "add" => self.buffer.add(call.alloc, call.words.rest()),
            "add_times" => self.buffer.add_times(call.alloc, &mut call.words),
            "add_sum" => self.buffer.add_sum(call.alloc),
            _ => push_told(call, self.buffer.as_slice()),
        }
    }
}

impl FrameCases {
    /// Before the first call.
    pub(crate) fn new(alloc: Global) -> Result<Self, CaseFault> {
        Ok(FrameCases {
            buffer: ByteBuffer::new(alloc),
        })
    }
}

/// What a call asks of bytes.
fn push_told(call: &mut Call<'_>, bytes: &[u8]) -> Result<(), CaseFault> {
    match call.name {
        "len" => push_number(&mut call.answer, bytes.len() as u64),
        "read" => push_reading(&mut call.answer, bytes),
        "fault" => push_fault(&mut call.answer, bytes),
        "fronts" => push_fronts(&mut call.answer, bytes),
        "each_byte_changed" => push_changed(call.alloc, &mut call.answer, bytes),
        _ => push_of_tag(call, bytes),
    }
}

/// What a call asks of the fields with a tag.
fn push_of_tag(call: &mut Call<'_>, bytes: &[u8]) -> Result<(), CaseFault> {
    match call.name {
        "get" => push_first(&mut call.answer, bytes, &mut call.words),
        "get_len" => push_first_len(&mut call.answer, bytes, &mut call.words),
        "times" => push_times(&mut call.answer, bytes, &mut call.words),
        _ => Err(CaseFault::Form),
    }
}

/// The fields of a frame, or the fault of the bytes.
fn push_reading(answer: &mut String, bytes: &[u8]) -> Result<(), CaseFault> {
    match read_frame(bytes) {
        Ok(frame) => push_fields(answer, &frame),
        Err(fault) => push_line(answer, garbled_name(fault)),
    }
}

/// All fields, in their order.
fn push_fields(answer: &mut String, frame: &Frame) -> Result<(), CaseFault> {
    for (tag, value) in frame.fields() {
        push_field(answer, tag, value)?;
    }
    push_line(answer, "")
}

/// The fault of bytes, or none where they are a frame.
fn fault_of(bytes: &[u8]) -> Option<Garbled> {
    match read_frame(bytes) {
        Ok(_) => None,
        Err(fault) => Some(fault),
    }
}

/// The name of the fault of bytes.
fn fault_name_of(bytes: &[u8]) -> &'static str {
    match fault_of(bytes) {
        Some(fault) => garbled_name(fault),
        None => "none",
    }
}

/// The fault of bytes.
fn push_fault(answer: &mut String, bytes: &[u8]) -> Result<(), CaseFault> {
    push_line(answer, fault_name_of(bytes))
}

/// The frame that bytes are.
fn frame_of(bytes: &[u8]) -> Result<Frame<'_>, CaseFault> {
    read_frame(bytes).ok().ok_or(CaseFault::Condition)
}

/// `get TAG`: the first value.
fn push_first(answer: &mut String, bytes: &[u8], words: &mut Words) -> Result<(), CaseFault> {
    let tag = words.short_number()?;
    let frame = frame_of(bytes)?;
    push_value_or_none(answer, frame.get(tag))
}

/// `get_len TAG`: the length of the first value.
fn push_first_len(answer: &mut String, bytes: &[u8], words: &mut Words) -> Result<(), CaseFault> {
    let tag = words.short_number()?;
    let frame = frame_of(bytes)?;
    let value = frame.get(tag).ok_or(CaseFault::Condition)?;
    push_number(answer, value.len() as u64)
}

/// `times TAG`: how many fields have it.
fn push_times(answer: &mut String, bytes: &[u8], words: &mut Words) -> Result<(), CaseFault> {
    let tag = words.short_number()?;
    let frame = frame_of(bytes)?;
    push_number(answer, frame.times(tag) as u64)
}

/// `fronts`: the faults of all shorter fronts, each with the first length that has it.
fn push_fronts(answer: &mut String, bytes: &[u8]) -> Result<(), CaseFault> {
    let mut last = "";
    for len in 0..bytes.len() {
        let name = fault_name_of(&bytes[..len]);
        if name != last {
            writeln!(answer, "{len} {name}")?;
            last = name;
        }
    }
    Ok(())
}

/// `each_byte_changed`: how many of the changes leave a frame.
fn push_changed(alloc: Global, answer: &mut String, bytes: &[u8]) -> Result<(), CaseFault> {
    let mut read: u64 = 0;
    for i in 0..bytes.len() {
        let mut changed = copy_of(alloc, bytes)?;
        read = read.wrapping_add(frames_with_changed(&mut changed, i));
    }
    push_number(answer, read)
}

/// Bytes once more.
fn copy_of(alloc: Global, bytes: &[u8]) -> Result<Vec<u8>, CaseFault> {
    let copy = Vec::from_slice(alloc, bytes)?;
    Ok(copy)
}

/// How many other values of the byte at a place leave a frame.
fn frames_with_changed(bytes: &mut [u8], place: usize) -> u64 {
    let Some(own) = bytes.get(place).copied() else {
        return 0;
    };
    let mut read: u64 = 0;
    for byte in 0..=255u8 {
        if byte != own && is_frame_with(bytes, place, byte) {
            read = read.wrapping_add(1);
        }
    }
    read
}

/// Whether bytes with this one at a place are a frame.
fn is_frame_with(bytes: &mut [u8], place: usize, byte: u8) -> bool {
    if place < bytes.len() {
        bytes[place] = byte;
    }
    fault_of(bytes).is_none()
}
