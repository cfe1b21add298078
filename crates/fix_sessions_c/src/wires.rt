//! Messages between the venue and the wire.
ghost use Rattle.std.specs.Prelude.{◌≡◌, true, false, length};
ghost use Rattle.fix_sessions_c.specs.Wires as spec;
ghost use Rattle.fix_sessions_c.specs.Wires.{IsNotIn, IsNotOut, IsWireIn, IsWireOut};

use crate::told::copy;
use fix_sessions::MOST_KEPT;
use std::alloc::Global;
use wire_messages::{MOST_WIRE_BODY, Told, to_firm, to_venue};

// The session takes each message on the wire.
const _: () = prove!(MOST_WIRE_BODY == MOST_KEPT);

/// A message of the venue as the session is given it. `appl_number` is the number that is due: the
/// venue's count of its messages to the firm. `reference` is the session's number of the message that
/// a Reject refuses; 0 leaves 45 as it is. What is told is a reason (`told_tag` 58), a trade's name
/// (1003), or nothing (0). False where what is told is none, where the message does not cross, or where
/// there is no room.
#[unsafe(no_mangle)]
pub extern "C" fn fix_sessions_wire_out(
    alloc: Global,
    frame: &[u8],
    appl_number: u32,
    reference: u64,
    told_tag: u32,
    told: &[u8],
    out: &mut [u8],
    written: &mut usize,
) -> bool
    ensures done { result ≡ true
        → IsWireOut frame.now appl_number reference told_tag told.now out.new written.new }
    ensures not_done { result ≡ false
        → IsNotOut frame.now appl_number reference told_tag told.now (length out.old) }
{
    let Some(told) = told_of(told_tag, told) else {
        return false;
    };
    let Ok(wire) = to_firm(alloc, frame, u64::from(appl_number), reference, &told) else {
        return false;
    };
    if !copy(out, &wire) {
        return false;
    }
    *written = wire.len();
    true
}

/// A firm's message, which the session has taken, as the venue is given it under a number. False
/// where it does not cross, or where there is no room.
#[unsafe(no_mangle)]
pub extern "C" fn fix_sessions_wire_in(
    alloc: Global,
    bytes: &[u8],
    number: u32,
    out: &mut [u8],
    written: &mut usize,
) -> bool
    ensures done { result ≡ true → IsWireIn bytes.now number out.new written.new }
    ensures not_done { result ≡ false → IsNotIn bytes.now number (length out.old) }
{
    let Ok(given) = to_venue(alloc, bytes, u64::from(number)) else {
        return false;
    };
    if !copy(out, &given) {
        return false;
    }
    *written = given.len();
    true
}

/// What is told, by the tag of its field.
fn told_of(tag: u32, text: &[u8]) -> Option<Option<Told<'_>>>
    ensures { result ≡ spec.told_of tag text.now }
{
    match tag {
        0 => Some(None),
        58 => Some(Some(Told::reason(text)?)),
        1003 => Some(Some(Told::trade(text)?)),
        _ => None,
    }
}
