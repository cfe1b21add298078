//! Streams that are cut.

use crate::buffers::ByteBuffer;
use crate::printing::push_number;
use case_lines::{
    Call, CaseFault, Place, Words, piped_bytes_of, push_bytes_line, push_line, stream_fault_name,
};
use fix_fields::{Messages, Splitter, StreamFault};
use std::alloc::Global;
use std::fmt::Write;

/// The place `streams`: a splitter that is fed piece by piece, and a stream that is put together
/// and cut in many ways.
///
/// - `open`: a splitter of which no byte came yet. `feed BYTES`: the messages that it ends, each in
///   a line, or the fault.
/// - `bytes BYTES`, `add BYTES`, `add_times N BYTES`: the stream. `feed_stream`: feeds it as one
///   piece, and answers how many messages it ends, or the fault.
/// - `in_pieces SIZE`: the whole stream in pieces of this size to a splitter of its own, and then
///   the empty piece: the length of each message, or `other` where it is not the next of the
///   stream's bytes; and the fault, once.
/// - `in_two`: the same in two pieces, cut at each place; of the cuts with one answer the first is
///   shown.
/// - `byte_by_byte`: each message and the fault, with the number of bytes that had come before the
///   call that answers it; the last call has the empty piece.
#[derive(Drop)]
pub(crate) struct StreamCases {
    buffer: ByteBuffer,
    splitter: Splitter,
}

impl Place for StreamCases {
    fn call(&mut self, call: &mut Call<'_>) -> Result<(), CaseFault> {
        match call.name {
            "open" => self.open(call.alloc),
            "feed" => self.feed(call.alloc, call.words.rest(), &mut call.answer),
            "bytes" => self.buffer.set(call.alloc, call.words.rest()),
            "add" => self.buffer.add(call.alloc, call.words.rest()),
            "add_times" => self.buffer.add_times(call.alloc, &mut call.words),
            _ => self.cut(call),
        }
    }
}

impl StreamCases {
    /// Before the first call.
    pub(crate) fn new(alloc: Global) -> Result<Self, CaseFault> {
        Ok(StreamCases {
            buffer: ByteBuffer::new(alloc),
            splitter: Splitter::new(alloc),
        })
    }

    /// Makes a call that cuts the stream.
    fn cut(&mut self, call: &mut Call<'_>) -> Result<(), CaseFault> {
        match call.name {
            "feed_stream" => self.feed_stream(&mut call.answer),
            "in_pieces" => self.in_pieces(call.alloc, &mut call.words, &mut call.answer),
            "in_two" => push_in_two(call.alloc, &mut call.answer, self.buffer.as_slice()),
            "byte_by_byte" => push_byte_by_byte(
                call.alloc,
                &mut call.answer,
                self.buffer.as_slice(),
            ),
            _ => Err(CaseFault::Form),
        }
    }

    /// `open`: a splitter of which no byte came yet.
    fn open(&mut self, alloc: Global) -> Result<(), CaseFault> {
        self.splitter = Splitter::new(alloc);
        Ok(())
    }

    /// `feed BYTES`: the messages that the piece ends, or the fault.
    fn feed(&mut self, alloc: Global, text: &str, answer: &mut String) -> Result<(), CaseFault> {
        let piece = piped_bytes_of(alloc, text)?;
        match self.splitter.feed(piece.as_slice()) {
            Ok(messages) => push_messages(answer, messages),
            Err(fault) => push_line(answer, stream_fault_name(fault)),
        }
    }

    /// `feed_stream`: how many messages the stream ends, or the fault.
    fn feed_stream(&mut self, answer: &mut String) -> Result<(), CaseFault> {
        match self.splitter.feed(self.buffer.as_slice()) {
            Ok(messages) => push_number(answer, messages.len() as u64),
            Err(fault) => push_line(answer, stream_fault_name(fault)),
        }
    }

    /// `in_pieces SIZE`: the answers to the stream in pieces of this size.
    fn in_pieces(
        &self,
        alloc: Global,
        words: &mut Words,
        answer: &mut String,
    ) -> Result<(), CaseFault> {
        let size = words.number()? as usize;
        let mut cutting = Cutting::new(alloc, self.buffer.as_slice());
        for piece in self.buffer.as_slice().chunks(size.max(1)) {
            cutting.feed(piece, answer)?;
        }
        cutting.feed(b"", answer)
    }
}

/// Messages, each in a line.
fn push_messages(answer: &mut String, messages: Messages) -> Result<(), CaseFault> {
    for message in messages.into_vec() {
        push_bytes_line(answer, message.as_slice())?;
    }
    Ok(())
}

/// A stream that is being cut, and what of it has been cut.
#[derive(Drop)]
struct Cutting<'a> {
    splitter: Splitter,
    left: &'a [u8],
    fault: Option<StreamFault>,
}

impl<'a> Cutting<'a> {
    /// The cutting of a stream of which no byte came yet.
    fn new(alloc: Global, stream: &'a [u8]) -> Self {
        Cutting {
            splitter: Splitter::new(alloc),
            left: stream,
            fault: None,
        }
    }

    /// Feeds a piece. A fault that stands is answered by every further call.
    fn feed(&mut self, piece: &[u8], answer: &mut String) -> Result<(), CaseFault> {
        match self.splitter.feed(piece) {
            Ok(messages) => self.take(messages, answer),
            Err(fault) => self.meet(fault, answer),
        }
    }

    /// The lengths of messages.
    fn take(&mut self, messages: Messages, answer: &mut String) -> Result<(), CaseFault> {
        if self.fault.is_some() {
            push_line(answer, "forgotten")?;
        }
        for message in messages.into_vec() {
            self.pass(message.as_slice(), answer)?;
        }
        Ok(())
    }

    /// The length of a message, which is the next of the stream's bytes.
    fn pass(&mut self, message: &[u8], answer: &mut String) -> Result<(), CaseFault> {
        let Some(left) = self.left.strip_prefix(message) else {
            return push_line(answer, "other");
        };
        self.left = left;
        push_number(answer, message.len() as u64)
    }

    /// A fault, where it is another than the last.
    fn meet(&mut self, fault: StreamFault, answer: &mut String) -> Result<(), CaseFault> {
        if self.fault == Some(fault) {
            return Ok(());
        }
        self.fault = Some(fault);
        push_line(answer, stream_fault_name(fault))
    }
}

/// `in_two`: the answers to the stream in two pieces, each answer of which differs from that of the
/// cut before.
fn push_in_two(alloc: Global, answer: &mut String, stream: &[u8]) -> Result<(), CaseFault> {
    let mut last = String::new(alloc);
    for place in 0..=stream.len() {
        let cut = answers_to_cut(alloc, stream, place)?;
        if place == 0 || cut.as_str() != last.as_str() {
            writeln!(answer, "from {place}")?;
            answer.push_str(cut.as_str())?;
        }
        last = cut;
    }
    Ok(())
}

/// The answers to a stream in two pieces, and to the empty piece behind them.
fn answers_to_cut(alloc: Global, stream: &[u8], place: usize) -> Result<String, CaseFault> {
    let (front, behind) = stream.split_at(place.min(stream.len()));
    let mut answers = String::new(alloc);
    let mut cutting = Cutting::new(alloc, stream);
    cutting.feed(front, &mut answers)?;
    cutting.feed(behind, &mut answers)?;
    cutting.feed(b"", &mut answers)?;
    Ok(answers)
}

/// `byte_by_byte`: the answers that are not empty, each with the number of bytes before its own.
fn push_byte_by_byte(alloc: Global, answer: &mut String, stream: &[u8]) -> Result<(), CaseFault> {
    let mut cutting = Cutting::new(alloc, stream);
    let mut left = stream;
    for place in 0..=stream.len() {
        let (piece, behind) = left.split_at(left.len().min(1));
        left = behind;
        let mut said = String::new(alloc);
        cutting.feed(piece, &mut said)?;
        if said.len() > 0 {
            write!(answer, "{place} {}", said.as_str())?;
        }
    }
    Ok(())
}
