//! The venue's messages, as a firm has them on the wire.
ghost use Rattle.std.specs.Prelude.{◌≡◌, ◌≢◌, ◌≤◌, ◌++◌, [], ◌∷◌, ◌||◌, true, false, decimal, MatchResult, Some};
ghost use Rattle.fix_fields.specs.Frame.{IsField, frame_text, frame_of, fields_len};
ghost use Rattle.wire_messages.specs.ToFirm.{VenueMessage, IsOfVenue, IsOnWire, IsNotForFirm};
ghost use Rattle.wire_messages.specs.ToFirm as spec;
ghost use Rattle.wire_messages.specs.Unwritten.{IsUnwritten};

use crate::faults::Untranslated;
use crate::limits::MOST_WIRE_BODY;
use crate::told::Told;
use crate::venue_messages::OfVenue;
use crate::writing::{finish, put, put_number, start};
use fix_fields::{FrameWriter, MOST_BODY, read_frame};
use itoa::Buffer;
use std::alloc::Global;

/// A message of the venue as a firm has it on the wire: a frame of MsgType (35) and what stands
/// behind the session's header. `number` is the one that is due: the venue's count of its messages
/// to the firm. `reference` is the session's number of the message that a Reject (35=3) refuses, or
/// 0 where it is to stay as it is. What is told beside the message stands last.
pub fn to_firm(
    alloc: Global,
    bytes: &[u8],
    number: u64,
    reference: u64,
    told: &Option<Told>,
) -> Result<Vec<u8>, Untranslated>
    ensures { MatchResult result
        (λ wire. (m : VenueMessage) × IsOfVenue bytes.now number m
        × IsOnWire wire.items reference told.now m)
        (λ why. IsNotForFirm why bytes.now number reference told.now) }
{
    let Ok(frame) = read_frame(bytes) else {
        return Err(Untranslated::Form);
    };
    let Some(message) = OfVenue::new(&frame) else {
        return Err(Untranslated::Form);
    };
    if !is_number(message.number(), number) {
        return Err(Untranslated::Number);
    }
    if has_added(&message, told) {
        return Err(Untranslated::Added);
    }
    write(alloc, &message, reference, told)
}

/// Whether a text is a number as it is written.
fn is_number(text: &[u8], number: u64) -> bool
    ensures yes { result ≡ true → text.now ≡ decimal number }
    ensures no { result ≡ false → text.now ≢ decimal number }
{
    let mut buffer = Buffer::new();
    text == buffer.format(number).as_bytes()
}

/// Whether a message has a field behind its header that the wire adds.
fn has_added(message: &OfVenue, told: &Option<Told>) -> bool
    ensures { result ≡ spec.has_added told.now message.now.behind }
{
    for (tag, _) in message.behind() {
        if is_added(told, tag) {
            return true;
        }
    }
    false
}

/// Whether the wire adds the field with this tag.
fn is_added(told: &Option<Told>, tag: u32) -> bool
    ensures { result ≡ spec.is_added told.now tag }
{
    if tag == 1181 || tag == 60 {
        return true;
    }
    is_told_tag(told, tag)
}

/// Whether a tag is that of what is told.
fn is_told_tag(told: &Option<Told>, tag: u32) -> bool
    ensures { result ≡ spec.is_told_tag told.now tag }
{
    let Some(told) = told else {
        return false;
    };
    tag == told.tag()
}

/// The frame on the wire.
fn write(
    alloc: Global,
    message: &OfVenue,
    reference: u64,
    told: &Option<Told>,
) -> Result<Vec<u8>, Untranslated>
    ensures { MatchResult result
        (λ wire. (wire.items ≡ frame_text (spec.to_firm reference told.now message.now))
        × (frame_of wire.items ≡ Some (spec.to_firm reference told.now message.now))
        × (fields_len (spec.to_firm reference told.now message.now) ≤ MOST_WIRE_BODY))
        (λ why. IsUnwritten MOST_WIRE_BODY why (spec.to_firm reference told.now message.now)) }
{
    let mut writer = start(alloc, message.kind())?;
    put(&mut writer, 1181, message.number())?;
    put_behind(&mut writer, message, reference)?;
    put_told(&mut writer, told)?;
    if writer.left() < MOST_BODY - MOST_WIRE_BODY {
        return Err(Untranslated::TooLong);
    }
    let wire = finish(writer)?;
    Ok(wire)
}

/// The venue's fields, with the time in its place.
fn put_behind(
    writer: &mut FrameWriter,
    message: &OfVenue,
    reference: u64,
) -> Result<(), Untranslated>
    ensures { MatchResult result
        (λ _. writer.new ≡ writer.old ++ spec.wire_behind reference message.now)
        (λ why. IsUnwritten MOST_BODY why
        (writer.old ++ spec.wire_behind reference message.now)) }
{
    let mut is_timed = false;
    for (tag, value) in message.behind() {
        is_timed = put_time_before(writer, message, is_timed, tag)?;
        put_referred(writer, message.kind(), reference, tag, value)?;
    }
    put_time_behind(writer, message, is_timed)
}

/// The time, where it is due before a field. It tells whether it stands then.
fn put_time_before(
    writer: &mut FrameWriter,
    message: &OfVenue,
    is_timed: bool,
    tag: u32,
) -> Result<bool, Untranslated>
    ensures { MatchResult result
        (λ stands. (stands ≡ (is_timed || spec.time_stands_before message.now.kind tag))
        × (writer.new ≡ writer.old
        ++ spec.time_before is_timed message.now.kind message.now.moment tag))
        (λ why. IsUnwritten MOST_BODY why (writer.old
        ++ spec.time_before is_timed message.now.kind message.now.moment tag)) }
{
    if is_timed {
        return Ok(true);
    }
    if !time_stands_before(message.kind(), tag) {
        return Ok(false);
    }
    put(writer, 60, message.moment())?;
    Ok(true)
}

/// The time behind all fields, where it does not stand yet.
fn put_time_behind(
    writer: &mut FrameWriter,
    message: &OfVenue,
    is_timed: bool,
) -> Result<(), Untranslated>
    ensures { MatchResult result
        (λ _. writer.new ≡ writer.old
        ++ spec.timed_from is_timed message.now.kind message.now.moment [])
        (λ why. IsUnwritten MOST_BODY why (writer.old
        ++ spec.timed_from is_timed message.now.kind message.now.moment [])) }
{
    if is_timed {
        return Ok(());
    }
    put(writer, 60, message.moment())
}

/// Whether the time stands before a field.
fn time_stands_before(kind: &[u8], tag: u32) -> bool
    ensures { result ≡ spec.time_stands_before kind.now tag }
{
    match tag {
        537 => kind == b"S".as_slice(),
        297 => kind == b"AI".as_slice(),
        453 => kind == b"R".as_slice(),
        _ => false,
    }
}

/// A field of the venue's, with the session's number where it names one.
fn put_referred(
    writer: &mut FrameWriter,
    kind: &[u8],
    reference: u64,
    tag: u32,
    value: &[u8],
) -> Result<(), Untranslated>
    requires { IsField (tag, value.now) }
    ensures { MatchResult result
        (λ _. writer.new ≡ writer.old
        ++ spec.referred kind.now reference (tag, value.now) ∷ [])
        (λ why. IsUnwritten MOST_BODY why
        (writer.old ++ spec.referred kind.now reference (tag, value.now) ∷ [])) }
{
    if tag == 45 && kind == b"3".as_slice() && reference != 0 {
        return put_number(writer, 45, reference);
    }
    put(writer, tag, value)
}

/// What is told.
fn put_told(writer: &mut FrameWriter, told: &Option<Told>) -> Result<(), Untranslated>
    ensures { MatchResult result (λ _. writer.new ≡ writer.old ++ spec.told_fields told.now)
        (λ why. IsUnwritten MOST_BODY why (writer.old ++ spec.told_fields told.now)) }
{
    let Some(told) = told else {
        return Ok(());
    };
    put(writer, told.tag(), told.text())
}
