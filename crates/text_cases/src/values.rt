//! The texts and numbers of fields.

use crate::buffers::bytes_in;
use crate::parts::{quote_reason_of, request_reason_of, session_reason_of};
use crate::printing::{push_number, push_number_or_none};
use case_lines::{Call, CaseFault, Words, bytes_of, push_bytes_line, push_line};
use quote_messages::{
    Message, MsgType, SeqNum, expected_number, read_long_number, read_number, read_quantity,
};
use std::fmt::Write;

/// Makes a call of the place `message_values`: the texts and numbers that fields have.
///
/// - `number BYTES`, `long_number BYTES`: the number that they spell. `quantity BYTES`: the
///   quantity, or `reason` with the code (373).
/// - `msg_type BYTES`: a MsgType (35) as it is repeated. `seq_num BYTES`: a MsgSeqNum (34) as it is
///   repeated, and its number.
/// - `expected USED`: the number that is expected next.
/// - `session_reason NAME`, `quote_reason NAME`, `request_reason NAME`: the codes (373, 300, 658).
/// - `message BYTES`: a message of them, copied, and one of the list that it is kept in.
///   `message_times N BYTES`: the length of the copy of a message of these bytes N times.
pub(crate) fn call_message_values(call: &mut Call<'_>) -> Result<(), CaseFault> {
    match call.name {
        "expected" => push_expected(&mut call.answer, &mut call.words),
        "message" => push_message(call),
        "message_times" => push_message_len(call),
        "session_reason" | "quote_reason" | "request_reason" => push_code(call),
        _ => push_value(call),
    }
}

/// The code of a reason.
fn push_code(call: &mut Call<'_>) -> Result<(), CaseFault> {
    let code = code_of(call.name, call.words.word()?)?;
    push_number(&mut call.answer, code)
}

/// The code of a reason of this kind.
fn code_of(kind: &str, name: &str) -> Result<u64, CaseFault> {
    match kind {
        "session_reason" => Ok(session_reason_of(name)?.code()),
        "quote_reason" => Ok(quote_reason_of(name)?.code()),
        _ => Ok(request_reason_of(name)?.code()),
    }
}

/// What the text of a field is.
fn push_value(call: &mut Call<'_>) -> Result<(), CaseFault> {
    let text = bytes_of(call.alloc, call.words.rest())?;
    push_value_of(&mut call.answer, call.name, text.as_slice())
}

/// What a text is as a field of this kind.
fn push_value_of(answer: &mut String, kind: &str, text: &[u8]) -> Result<(), CaseFault> {
    match kind {
        "number" => push_number_or_none(answer, read_number(text)),
        "long_number" => push_number_or_none(answer, read_long_number(text)),
        "quantity" => push_quantity(answer, text),
        "msg_type" => push_msg_type(answer, text),
        "seq_num" => push_seq_num(answer, text),
        _ => Err(CaseFault::Form),
    }
}

/// `quantity BYTES`: the quantity, or the code of the reason.
fn push_quantity(answer: &mut String, text: &[u8]) -> Result<(), CaseFault> {
    match read_quantity(text) {
        Ok(quantity) => push_number(answer, quantity.get()),
        Err(reason) => push_reason(answer, reason.code()),
    }
}

/// A reason's code.
fn push_reason(answer: &mut String, code: u64) -> Result<(), CaseFault> {
    writeln!(answer, "reason {code}")?;
    Ok(())
}

/// `msg_type BYTES`: a MsgType (35) as it is repeated.
fn push_msg_type(answer: &mut String, text: &[u8]) -> Result<(), CaseFault> {
    match MsgType::new(text) {
        Some(msg_type) => push_bytes_line(answer, msg_type.as_bytes()),
        None => push_line(answer, "none"),
    }
}

/// `seq_num BYTES`: a MsgSeqNum (34) as it is repeated, and its number.
fn push_seq_num(answer: &mut String, text: &[u8]) -> Result<(), CaseFault> {
    let Some(number) = SeqNum::new(text) else {
        return push_line(answer, "none");
    };
    push_bytes_line(answer, number.as_bytes())?;
    push_number(answer, number.get())
}

/// `expected USED`: the number that is expected next.
fn push_expected(answer: &mut String, words: &mut Words) -> Result<(), CaseFault> {
    let used = words.number()?;
    if used == u64::MAX {
        return Err(CaseFault::Condition);
    }
    push_number(answer, expected_number(used))
}

/// `message BYTES`: a message of them, copied, and one of the list that it is kept in.
fn push_message(call: &mut Call<'_>) -> Result<(), CaseFault> {
    let bytes = bytes_in(call)?;
    let copy = Message::copy_of(call.alloc, bytes.as_slice())?;
    push_bytes_line(&mut call.answer, copy.as_bytes())?;
    let again = Message::new(copy.into_bytes());
    push_bytes_line(&mut call.answer, again.as_bytes())
}

/// `message_times N BYTES`: the length of a message of these bytes N times, copied.
fn push_message_len(call: &mut Call<'_>) -> Result<(), CaseFault> {
    let bytes = bytes_in(call)?;
    let copy = Message::copy_of(call.alloc, bytes.as_slice())?;
    if copy.as_bytes() != bytes.as_slice() {
        return push_line(&mut call.answer, "other");
    }
    push_number(&mut call.answer, copy.as_bytes().len() as u64)
}
