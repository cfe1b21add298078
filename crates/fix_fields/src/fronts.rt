//! What stands at the front of a stream of bytes.
ghost use Rattle.std.specs.Prelude.{◌≡◌, ◌<◌, length};
ghost use Rattle.fix_fields.specs.Scan.{IsFound};

use crate::fault::StreamFault;
use crate::frames::{END_LEN, START, sum_of_end};
use crate::limits::MOST_FRAME;
use crate::scan::{SOH, leading_number};

/// What the bytes of a stream tell of a message at their front.
#[derive(Clone, Copy)]
pub(crate) enum Found {
    /// One has begun; nothing more can be told before there are this many bytes.
    Begun(usize),
    /// It is whole, and has this many bytes.
    Message(usize),
    /// There is none, by this fault.
    Faulty(StreamFault),
}

/// What stands at the front of bytes.
pub(crate) fn front_of(bytes: &[u8]) -> Found
    ensures { IsFound result bytes.now }
{
    if bytes.len() < START.len() {
        return front_in_start(bytes);
    }
    if !bytes.starts_with(START) {
        return Found::Faulty(StreamFault::Start);
    }
    let rest = &bytes[START.len()..];
    let (body_len, digits) = leading_number(rest, 6);
    if digits == rest.len() {
        return Found::Begun(0);
    }
    if digits == 0 || rest[digits] != SOH {
        return Found::Faulty(StreamFault::Length);
    }
    let end = START.len() + digits + 1 + body_len as usize;
    if end + END_LEN > MOST_FRAME {
        return Found::Faulty(StreamFault::TooLong);
    }
    if bytes.len() < end + END_LEN {
        return Found::Begun(end + END_LEN);
    }
    let Some(_) = sum_of_end(&bytes[end..end + END_LEN]) else {
        return Found::Faulty(StreamFault::End);
    };
    Found::Message(end + END_LEN)
}

/// The same of fewer bytes than BeginString and the tag of BodyLength have.
fn front_in_start(bytes: &[u8]) -> Found
    requires { length bytes.now < 13 }
    ensures { IsFound result bytes.now }
{
    if !START.starts_with(bytes) {
        return Found::Faulty(StreamFault::Start);
    }
    Found::Begun(0)
}
