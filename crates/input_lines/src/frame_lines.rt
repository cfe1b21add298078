//! A message that comes byte by byte, `TIME FRAME`, or digit by digit, `TIME HEX`.
ghost use Rattle.std.specs.Prelude.{◌≡◌, map, IfOk};
ghost use Rattle.std.specs.Result.{result_ok};
ghost use Rattle.hex.specs.Hex.{decode_of};
ghost use Rattle.input_lines.specs.SayLine as spec;

use crate::parts::{cut_part, read_time};
use fix_fields::{Date, Memory, Moment};
use hex::{FromHexError, decode};
use quote_messages::Message;
use std::alloc::Global;

/// What `TIME FRAME` spells, or none where it is not of its form: the moment, and the bytes of
/// FRAME, which is the rest of the line and not empty, with SOH for each vertical bar. It fails for
/// memory alone.
#[tactic(auto, unfolding(crate::specs::SayLine::received_of))]
pub fn read_received(
    alloc: Global,
    date: &Date,
    text: &[u8],
) -> Result<Option<(Moment, Message)>, Memory>
    ensures { IfOk result (λ received. received ≡ spec.received_of date.now text.now) }
{
    let (time, frame) = cut_part(text);
    let Some(moment) = read_time(date, time) else {
        return Ok(None);
    };
    if frame.is_empty() {
        return Ok(None);
    }
    let message = with_soh(alloc, frame)?;
    Ok(Some((moment, message)))
}

/// The bytes of a frame in which each vertical bar stands for SOH.
fn with_soh(alloc: Global, frame: &[u8]) -> Result<Message, Memory>
    ensures { IfOk result (λ message. message ≡ map spec.soh_for_bar frame.now) }
{
    let mut bytes = Vec::with_capacity(alloc, frame.len())?;
    for c in frame {
        bytes.push(soh_for_bar(*c))?;
    }
    Ok(Message::new(bytes))
}

/// SOH for a vertical bar, and every other byte as it is.
fn soh_for_bar(c: u8) -> u8
    ensures { result ≡ spec.soh_for_bar c }
{
    if c == b'|' {
        return 1;
    }
    c
}

/// What `TIME HEX` spells, or none where it is not of its form: the moment, and the bytes that the
/// digits of HEX write, two a byte and of either case. HEX is the rest of the line and not empty.
#[tactic(auto, unfolding(crate::specs::SayLine::hexed_of))]
pub fn read_hexed(
    alloc: Global,
    date: &Date,
    text: &[u8],
) -> Result<Option<(Moment, Message)>, Memory>
    ensures { IfOk result (λ received. received ≡ spec.hexed_of date.now text.now) }
{
    let (time, digits) = cut_part(text);
    let Some(moment) = read_time(date, time) else {
        return Ok(None);
    };
    let Some(message) = with_bytes(alloc, digits)? else {
        return Ok(None);
    };
    if digits.is_empty() {
        return Ok(None);
    }
    Ok(Some((moment, message)))
}

/// The bytes that digits write, or none where they write none.
fn with_bytes(alloc: Global, digits: &[u8]) -> Result<Option<Message>, Memory>
    ensures { IfOk result (λ message. message ≡ result_ok (decode_of digits.now)) }
{
    match decode(alloc, digits) {
        Ok(bytes) => Ok(Some(Message::new(bytes))),
        Err(FromHexError::OutOfMemory) => Err(Memory),
        Err(_) => Ok(None),
    }
}
