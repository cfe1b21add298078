//! The messages of firms, as the venue is given them.
ghost use Rattle.std.specs.Prelude.{◌≡◌, ◌++◌, List, [], ◌∷◌, true, false, IfOk, OnOk, MatchOption, MatchResult, Some};
ghost use Rattle.fix_fields.specs.Frame.{Field, IsField, IsValue, fields_of, frame_of, frame_text};
ghost use Rattle.fix_fields.specs.Scan.{HoldsFields};
ghost use Rattle.wire_messages.specs.ToVenue.{IsGiven, IsMessage, IsNotForVenue};
ghost use Rattle.wire_messages.specs.ToVenue as spec;
ghost use Rattle.wire_messages.specs.Unwritten.{BeginsMessage, IsUngiven, IsUnread, IsUnwritten};

use crate::faults::Untranslated;
use crate::fields::{body_of, near, split_field};
use crate::writing::{finish, put, put_number, start};
use fix_fields::{FrameWriter, MOST_BODY};
use std::alloc::Global;

/// What a message begins with: BeginString (8), and the tag of BodyLength (9).
const START: &[u8] = b"8=FIXT.1.1\x019=";

/// A firm's message as the venue is given it: the frame of its fields, with `number`, the venue's
/// count of the firm's messages, in MsgSeqNum (34), SendingTime (52) cut to milliseconds, and
/// without PossDupFlag (43), PossResend (97) and OrigSendingTime (122). The message is one that the
/// session has taken: its length and sum are not tested again, and it may be longer than a frame.
pub fn to_venue(alloc: Global, bytes: &[u8], number: u64) -> Result<Vec<u8>, Untranslated>
    ensures { MatchResult result (λ given. IsGiven given.items bytes.now number)
        (λ why. IsNotForVenue why bytes.now number) }
{
    let Some((kind, rest)) = begin_of(bytes) else {
        return Err(Untranslated::Form);
    };
    match write(alloc, kind, rest, number) {
        Ok(given) => Ok(given),
        Err(why) => Err(first_fault(why, rest)),
    }
}

/// MsgType (35) of a message, and what stands behind it in the body.
fn begin_of(bytes: &[u8]) -> Option<(&[u8], &[u8])>
    ensures { MatchOption result (¬ IsMessage bytes.now)
        (λ begin. BeginsMessage bytes.now begin.0.now begin.1.now) }
{
    if !bytes.starts_with(START) {
        return None;
    }
    let (tag, kind, rest) = split_field(body_of(bytes))?;
    if tag != 35 {
        return None;
    }
    Some((kind, rest))
}

/// Why a message is not given whose writing stopped for this reason: what is no message is told so,
/// whatever else stopped it first.
fn first_fault(why: Untranslated, rest: &[u8]) -> Untranslated
    ensures { (fields : List Field) → IsUnread why rest.now fields
        → IsUngiven result rest.now fields }
{
    if !are_fields(rest) {
        return Untranslated::Form;
    }
    why
}

/// Whether a text is lawful fields.
fn are_fields(text: &[u8]) -> bool
    ensures yes { result ≡ true → HoldsFields text.now }
    ensures no { result ≡ false → ¬ HoldsFields text.now }
{
    let mut rest = text;
    while !rest.is_empty() {
        let Some((_, _, behind)) = split_field(rest) else {
            return false;
        };
        rest = behind;
    }
    true
}

/// The frame of MsgType (35) and the fields behind it, as the venue is given them.
fn write(alloc: Global, kind: &[u8], rest: &[u8], number: u64) -> Result<Vec<u8>, Untranslated>
    requires { IsValue kind.now }
    ensures held { IfOk result (λ _. HoldsFields rest.now) }
    ensures frame { MatchResult result
        (λ given. (given.items
        ≡ frame_text ((35, kind.now) ∷ spec.to_venue number (fields_of rest.now)))
        × (frame_of given.items
        ≡ Some ((35, kind.now) ∷ spec.to_venue number (fields_of rest.now))))
        (λ why. IsUnread why rest.now
        ((35, kind.now) ∷ spec.to_venue number (fields_of rest.now))) }
{
    let mut writer = start(alloc, kind)?;
    put_fields(&mut writer, rest, number)?;
    finish(writer)
}

/// The fields that a text is, as the venue is given them.
fn put_fields(writer: &mut FrameWriter, text: &[u8], number: u64) -> Result<(), Untranslated>
    ensures held { OnOk result (HoldsFields text.now) }
    ensures fields { OnOk result (writer.new ≡ writer.old
        ++ spec.to_venue number (fields_of text.now)) }
    ensures err { MatchResult result (λ _. Unit {0}) (λ why. IsUnread why text.now
        (writer.old ++ spec.to_venue number (fields_of text.now))) }
{
    let mut rest = text;
    while !rest.is_empty() {
        let Some((tag, value, behind)) = split_field(rest) else {
            return Err(Untranslated::Form);
        };
        put_given(writer, number, tag, value)?;
        rest = behind;
    }
    Ok(())
}

/// A field as the venue is given it.
fn put_given(
    writer: &mut FrameWriter,
    number: u64,
    tag: u32,
    value: &[u8],
) -> Result<(), Untranslated>
    requires { IsField (tag, value.now) }
    ensures { MatchResult result
        (λ _. writer.new ≡ writer.old ++ spec.to_venue number ((tag, value.now) ∷ []))
        (λ why. IsUnwritten MOST_BODY why
        (writer.old ++ spec.to_venue number ((tag, value.now) ∷ []))) }
{
    match tag {
        43 | 97 | 122 => Ok(()),
        34 => put_number(writer, 34, number),
        52 => put(writer, 52, cut_to_milliseconds(value)),
        _ => put(writer, tag, value),
    }
}

/// A moment without what stands behind its milliseconds.
#[tactic(auto, using(crate::proofs::GivenLemmas::take_value))]
fn cut_to_milliseconds(moment: &[u8]) -> &[u8]
    requires { IsValue moment.now }
    ensures value { result.now ≡ spec.cut_to_milliseconds moment.now }
    ensures lawful { IsValue result.now }
{
    near(moment, 21)
}
