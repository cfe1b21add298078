//! Frames that are written.

use crate::buffers::bytes_in;
use crate::printing::push_number;
use case_lines::{
    Call, CaseFault, Place, Words, piped_bytes_of, push_bytes_line, push_line, push_truth,
};
use fix_fields::{
    FrameWriter, MOST_BODY, MOST_FRAME, decimal_len, fits, is_tag, is_value, read_frame,
};
use std::alloc::Global;

/// The place `frame_writer`: a frame that is written field by field. What changes it answers how
/// many bytes are left.
///
/// - `new TYPE`, `new_times N BYTES`: a frame with this MsgType (35).
/// - `text TAG VALUE`, `text_times TAG N BYTES`, `number TAG NUMBER`: one field more.
/// - `finish`: the frame. `finish_len`: its length, of a frame that is read back.
/// - `is_tag TAG`, `is_value BYTES`, `fits TAG LENGTH LEFT`, `decimal_len NUMBER`: the tests.
/// - `limits`: the longest frame, and the longest body.
#[derive(Drop)]
pub(crate) struct WriterCases {
    writer: Option<FrameWriter>,
}

impl Place for WriterCases {
    fn call(&mut self, call: &mut Call<'_>) -> Result<(), CaseFault> {
        match call.name {
            "new" | "new_times" => self.begin(call),
            "text" | "text_times" => self.text(call),
            "number" => self.number(&mut call.words, &mut call.answer),
            "finish" => self.finish(&mut call.answer),
            "finish_len" => self.finish_len(&mut call.answer),
            _ => push_tested(call),
        }
    }
}

impl WriterCases {
    /// Before the first call.
    pub(crate) fn new(_alloc: Global) -> Result<Self, CaseFault> {
        Ok(WriterCases { writer: None })
    }

    /// `new TYPE`: a frame with this MsgType (35).
    fn begin(&mut self, call: &mut Call<'_>) -> Result<(), CaseFault> {
        let msg_type = bytes_in(call)?;
        let writer = new_writer(call.alloc, msg_type.as_slice())?;
        let left = writer.left() as u64;
        self.writer = Some(writer);
        push_number(&mut call.answer, left)
    }

    /// `text TAG VALUE`: one field more, whose value is a text.
    fn text(&mut self, call: &mut Call<'_>) -> Result<(), CaseFault> {
        let tag = call.words.short_number()?;
        let value = bytes_in(call)?;
        let Some(writer) = &mut self.writer else {
            return Err(CaseFault::NotOpen);
        };
        let left = write_text(writer, tag, value.as_slice())?;
        push_number(&mut call.answer, left)
    }

    /// `number TAG NUMBER`: one field more, whose value is a number.
    fn number(&mut self, words: &mut Words, answer: &mut String) -> Result<(), CaseFault> {
        let tag = words.short_number()?;
        let value = words.number()?;
        let Some(writer) = &mut self.writer else {
            return Err(CaseFault::NotOpen);
        };
        if !is_tag(tag) || !fits(tag, decimal_len(value), writer.left()) {
            return Err(CaseFault::Condition);
        }
        writer.number(tag, value)?;
        push_number(answer, writer.left() as u64)
    }

    /// The frame that was written.
    fn finished(&mut self) -> Result<Vec<u8>, CaseFault> {
        let Some(writer) = self.writer.take() else {
            return Err(CaseFault::NotOpen);
        };
        let bytes = writer.finish()?;
        Ok(bytes)
    }

    /// `finish`: the frame.
    fn finish(&mut self, answer: &mut String) -> Result<(), CaseFault> {
        let bytes = self.finished()?;
        push_bytes_line(answer, bytes.as_slice())
    }

    /// `finish_len`: the length of the frame, or `no frame` where it is not read back.
    fn finish_len(&mut self, answer: &mut String) -> Result<(), CaseFault> {
        let bytes = self.finished()?;
        if read_frame(bytes.as_slice()).is_err() {
            return push_line(answer, "no frame");
        }
        push_number(answer, bytes.len() as u64)
    }
}

/// A frame with this MsgType (35).
fn new_writer(alloc: Global, msg_type: &[u8]) -> Result<FrameWriter, CaseFault> {
    if !is_value(msg_type) || !fits(35, msg_type.len(), MOST_BODY) {
        return Err(CaseFault::Condition);
    }
    let writer = FrameWriter::new(alloc, msg_type)?;
    Ok(writer)
}

/// One field more, whose value is a text. It answers how many bytes are left.
fn write_text(writer: &mut FrameWriter, tag: u32, value: &[u8]) -> Result<u64, CaseFault> {
    if !is_tag(tag) || !is_value(value) || !fits(tag, value.len(), writer.left()) {
        return Err(CaseFault::Condition);
    }
    writer.text(tag, value)?;
    Ok(writer.left() as u64)
}

/// A test, or the limits.
fn push_tested(call: &mut Call<'_>) -> Result<(), CaseFault> {
    match call.name {
        "is_tag" => push_is_tag(&mut call.answer, &mut call.words),
        "is_value" => push_is_value(call.alloc, &mut call.answer, call.words.rest()),
        "fits" => push_fits(&mut call.answer, &mut call.words),
        "decimal_len" => push_decimal_len(&mut call.answer, &mut call.words),
        "limits" => push_limits(&mut call.answer),
        _ => Err(CaseFault::Form),
    }
}

/// `is_tag TAG`: whether it may stand in a body.
fn push_is_tag(answer: &mut String, words: &mut Words) -> Result<(), CaseFault> {
    let tag = words.short_number()?;
    push_truth(answer, is_tag(tag))
}

/// `is_value BYTES`: whether they may be a value.
fn push_is_value(alloc: Global, answer: &mut String, text: &str) -> Result<(), CaseFault> {
    let value = piped_bytes_of(alloc, text)?;
    push_truth(answer, is_value(value.as_slice()))
}

/// `fits TAG LENGTH LEFT`: whether a field fits.
fn push_fits(answer: &mut String, words: &mut Words) -> Result<(), CaseFault> {
    let tag = words.short_number()?;
    let len = words.number()? as usize;
    let left = words.number()? as usize;
    push_truth(answer, fits(tag, len, left))
}

/// `decimal_len NUMBER`: how many digits it has.
fn push_decimal_len(answer: &mut String, words: &mut Words) -> Result<(), CaseFault> {
    let number = words.number()?;
    push_number(answer, decimal_len(number) as u64)
}

/// `limits`: the longest frame, and the longest body.
fn push_limits(answer: &mut String) -> Result<(), CaseFault> {
    push_number(answer, MOST_FRAME as u64)?;
    push_number(answer, MOST_BODY as u64)
}
