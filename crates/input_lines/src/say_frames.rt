//! The frame that a `say` line makes, field by field, as long as it fits.
ghost use Rattle.std.specs.Prelude.{◌≡◌, [], ◌∷◌, fold, IfOk};
ghost use Rattle.std.specs.Option.{option_map};
ghost use Rattle.fix_fields.specs.Frame.{IsTag, IsValue, frame_text};
ghost use Rattle.input_lines.specs.SayLine as spec;

use crate::fields::Field;
use fix_fields::{FrameWriter, Memory, decimal_len};
use quote_messages::Message;
use std::alloc::Global;

/// How many bytes the fields of a frame take at most: of its 4,096 bytes 25 are BeginString (8), a
/// BodyLength (9) of four digits and CheckSum (10).
pub const LONGEST_BODY: usize = 4_071;

/// Whether one of the fields has this tag.
pub(crate) fn has_tag(fields: &[Field], tag: u32) -> bool
    ensures { result ≡ spec.has_tag fields.now tag }
{
    fields.iter().any(|field| field.tag() == tag)
}

/// A frame with MsgType alone, unless it is too long already.
#[tactic(auto, using(crate::proofs::SpellLemmas::begun_fits, crate::proofs::SpellLemmas::begun_long))]
pub(crate) fn begun_frame(alloc: Global, msg_type: &[u8]) -> Result<Option<FrameWriter>, Memory>
    requires { IsValue msg_type.now }
    ensures { IfOk result (λ frame. frame ≡ spec.fitting ((35, msg_type.now) ∷ [])) }
{
    let digits = decimal_len(35);
    if digits + msg_type.len() + 2 > LONGEST_BODY {
        return Ok(None);
    }
    let frame = FrameWriter::new(alloc, msg_type)?;
    Ok(Some(frame))
}

/// A frame with one field more, where that still fits.
// Inlined, as the next function is, so that a frame is not moved for each of its fields.
#[inline(always)]
#[tactic(auto, using(crate::proofs::SpellLemmas::push_fits, crate::proofs::SpellLemmas::push_long, crate::proofs::SpellLemmas::push_none, crate::proofs::SpellLemmas::with_field_none))]
pub(crate) fn with_field(
    frame: Option<FrameWriter>,
    tag: u32,
    value: &[u8],
) -> Result<Option<FrameWriter>, Memory>
    requires tag { IsTag tag }
    requires value { IsValue value.now }
    ensures { IfOk result (λ fields. fields ≡ spec.with_field frame (tag, value.now)) }
{
    let Some(mut frame) = frame else {
        return Ok(None);
    };
    let left = frame.left();
    if value.len() > left {
        return Ok(None);
    }
    let digits = decimal_len(tag as u64);
    if digits + value.len() + 2 > left {
        return Ok(None);
    }
    frame.text(tag, value)?;
    Ok(Some(frame))
}

/// A frame with a field of the header, unless BODY has one of its tag.
#[inline(always)]
pub(crate) fn with_header_field(
    frame: Option<FrameWriter>,
    body: &[Field],
    tag: u32,
    value: &[u8],
) -> Result<Option<FrameWriter>, Memory>
    requires tag { IsTag tag }
    requires value { IsValue value.now }
    ensures { IfOk result (λ fields.
        fields ≡ fold spec.with_field frame (spec.header_field body.now tag value.now)) }
{
    if has_tag(body, tag) {
        return Ok(frame);
    }
    with_field(frame, tag, value)
}

/// The message that a frame makes, where there is one.
pub(crate) fn finished(frame: Option<FrameWriter>) -> Result<Option<Message>, Memory>
    ensures { IfOk result (λ message. message ≡ option_map frame_text frame) }
{
    let Some(frame) = frame else {
        return Ok(None);
    };
    let bytes = frame.finish()?;
    Ok(Some(Message::new(bytes)))
}

/// A frame with the fields of BODY.
pub(crate) fn with_all(
    mut frame: Option<FrameWriter>,
    body: &[Field],
) -> Result<Option<FrameWriter>, Memory>
    ensures { IfOk result (λ fields. fields ≡ fold spec.with_field frame body.now) }
{
    for field in body {
        frame = with_field(frame, field.tag(), field.value())?;
    }
    Ok(frame)
}
