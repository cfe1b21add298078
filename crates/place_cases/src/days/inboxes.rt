//! Streams of bytes as inboxes.
use super::answers::put_time;
use case_lines::{
    Call, CaseFault, Place, piped_bytes_of, push_bytes_line, push_line, stream_fault_name,
};
use day_checks::inbox_of;
use fix_fields::Moment;
use quote_messages::Message;
use recorded_days::Inbound;
use std::alloc::Global;

/// The inbox of one firm.
///
/// | call | what it does |
/// |---|---|
/// | `piece TIME BYTES` | a piece more of the firm's stream |
/// | `bytes BYTES` | a piece for each byte, a millisecond apart, the first at midnight |
/// | `inbox` | answers the messages, each behind its time, and the fault of the stream |
#[derive(Drop)]
pub(crate) struct Inboxes {
    pieces: Vec<Inbound>,
}

impl Place for Inboxes {
    fn call(&mut self, call: &mut Call<'_>) -> Result<(), CaseFault> {
        match call.name {
            "piece" => {
                let moment = call.words.moment()?;
                let bytes = piped_bytes_of(call.alloc, call.words.rest())?;
                self.put(moment, bytes)
            }
            "bytes" => self.put_bytes(call.alloc, call.words.rest()),
            "inbox" => self.tell(call.alloc, &mut call.answer),
            _ => Err(CaseFault::Form),
        }
    }
}

impl Inboxes {
    /// Before the first call.
    pub(crate) fn new(alloc: Global) -> Result<Self, CaseFault> {
        let pieces = Vec::new(alloc);
        Ok(Inboxes { pieces })
    }

    /// A piece comes.
    fn put(&mut self, moment: Moment, bytes: Vec<u8>) -> Result<(), CaseFault> {
        let bytes = Message::new(bytes);
        self.pieces.push(Inbound { moment, bytes })?;
        Ok(())
    }

    /// Bytes come one by one.
    fn put_bytes(&mut self, alloc: Global, text: &str) -> Result<(), CaseFault> {
        let bytes = piped_bytes_of(alloc, text)?;
        let mut milliseconds: u32 = 0;
        for byte in bytes.as_slice() {
            let Some(moment) = Moment::new(milliseconds) else {
                return Err(CaseFault::Form);
            };
            let mut piece = Vec::new(alloc);
            piece.push(*byte)?;
            self.put(moment, piece)?;
            milliseconds = milliseconds.saturating_add(1);
        }
        Ok(())
    }

    /// The messages that came, and the fault.
    fn tell(&self, alloc: Global, answer: &mut String) -> Result<(), CaseFault> {
        let (inbox, fault) = inbox_of(alloc, self.pieces.as_slice())?;
        for inbound in inbox.as_slice() {
            put_time(answer, inbound.moment)?;
            push_bytes_line(answer, inbound.bytes.as_bytes())?;
        }
        match fault {
            None => Ok(()),
            Some(fault) => push_line(answer, stream_fault_name(fault)),
        }
    }
}
