//! Fields that are written where there is room for them.
ghost use Rattle.std.specs.Prelude.{◌≡◌, ◌++◌, [], ◌∷◌, decimal, MatchResult, Some};
ghost use Rattle.fix_fields.specs.Frame.{IsTag, IsValue, frame_text, frame_of};
ghost use Rattle.wire_messages.specs.Unwritten.{IsUnwritten};

use crate::faults::Untranslated;
use fix_fields::{FrameWriter, MOST_BODY, decimal_len, fits};
use std::alloc::Global;

/// A frame with MsgType (35) alone.
pub(crate) fn start(alloc: Global, kind: &[u8]) -> Result<FrameWriter, Untranslated>
    requires { IsValue kind.now }
    ensures { MatchResult result (λ writer. writer ≡ (35, kind.now) ∷ [])
        (λ why. IsUnwritten MOST_BODY why ((35, kind.now) ∷ [])) }
{
    if !fits(35, kind.len(), MOST_BODY) {
        return Err(Untranslated::TooLong);
    }
    match FrameWriter::new(alloc, kind) {
        Ok(writer) => Ok(writer),
        Err(_) => Err(Untranslated::Memory),
    }
}

/// A field behind the others.
pub(crate) fn put(writer: &mut FrameWriter, tag: u32, value: &[u8]) -> Result<(), Untranslated>
    requires tag { IsTag tag }
    requires value { IsValue value.now }
    ensures { MatchResult result (λ _. writer.new ≡ writer.old ++ (tag, value.now) ∷ [])
        (λ why. IsUnwritten MOST_BODY why (writer.old ++ (tag, value.now) ∷ [])) }
{
    if !fits(tag, value.len(), writer.left()) {
        return Err(Untranslated::TooLong);
    }
    match writer.text(tag, value) {
        Ok(()) => Ok(()),
        Err(_) => Err(Untranslated::Memory),
    }
}

/// A field whose value is a number.
pub(crate) fn put_number(
    writer: &mut FrameWriter,
    tag: u32,
    number: u64,
) -> Result<(), Untranslated>
    requires { IsTag tag }
    ensures { MatchResult result (λ _. writer.new ≡ writer.old ++ (tag, decimal number) ∷ [])
        (λ why. IsUnwritten MOST_BODY why (writer.old ++ (tag, decimal number) ∷ [])) }
{
    if !fits(tag, decimal_len(number), writer.left()) {
        return Err(Untranslated::TooLong);
    }
    match writer.number(tag, number) {
        Ok(()) => Ok(()),
        Err(_) => Err(Untranslated::Memory),
    }
}

/// The frame of what was written.
pub(crate) fn finish(writer: FrameWriter) -> Result<Vec<u8>, Untranslated>
    ensures { MatchResult result
        (λ bytes. (bytes.items ≡ frame_text writer) × (frame_of bytes.items ≡ Some writer))
        (λ why. why ≡ Untranslated.Memory) }
{
    match writer.finish() {
        Ok(bytes) => Ok(bytes),
        Err(_) => Err(Untranslated::Memory),
    }
}
