//! Messages as the program prints them.
ghost use Rattle.std.specs.Prelude.{◌≡◌, ◌++◌, map, IfOk, OnOk};
ghost use Rattle.quote_messages.specs.SessionLines.{text_at};
ghost use Rattle.venue_text.specs.MessageLines as spec;

use arrayvec::ArrayVec;
use fix_fields::{Fields, Memory};
use input_lines::push_barred;
use quote_messages::SentMessage;
use std::alloc::Global;
use step_replay::SentTo;
use venue_rows::Name;

/// How many fields stand in front of those that a message line shows as BODY: MsgType (35),
/// SenderCompID (49), TargetCompID (56), MsgSeqNum (34) and SendingTime (52).
const HEADER_FIELDS: usize = 5;

/// What it comes to that something is put behind a text: memory may be refused.
pub(crate) type Pushed = Result<(), Memory>;

/// The text of messages that a firm is sent, a line each: `FIRM N TIME TYPE BODY`, or `FIRM
/// FRAME` with a vertical bar for each SOH. It fails for memory alone.
pub fn messages_text(
    alloc: Global,
    with_frames: bool,
    firm: &Name,
    messages: &[SentMessage],
) -> Result<Vec<u8>, Memory>
    ensures { IfOk result (λ text.
        text.items ≡ spec.messages_text with_frames firm.now messages.now) }
{
    let mut text = Vec::new(alloc);
    push_messages(&mut text, with_frames, firm, messages)?;
    Ok(text)
}

/// The lines of messages that a firm is sent.
pub(crate) fn push_messages(
    text: &mut Vec<u8>,
    with_frames: bool,
    firm: &Name,
    messages: &[SentMessage],
) -> Pushed
    ensures { OnOk result (text.new.items
        ≡ text.old.items ++ spec.messages_text with_frames firm.now messages.now) }
{
    for message in messages {
        push_line(text, with_frames, firm, message)?;
    }
    Ok(())
}

/// The line of a message, in one form or the other.
pub(crate) fn push_line(
    text: &mut Vec<u8>,
    with_frames: bool,
    firm: &Name,
    message: &SentMessage,
) -> Pushed
    ensures { OnOk result (text.new.items
        ≡ text.old.items ++ spec.line_of with_frames firm.now message.now) }
{
    if with_frames {
        return push_frame_line(text, firm, message.as_bytes());
    }
    push_message_line(text, firm, message)
}

/// `FIRM FRAME`: a vertical bar for each SOH.
fn push_frame_line(text: &mut Vec<u8>, firm: &Name, message: &[u8]) -> Pushed
    ensures { OnOk result (text.new.items
        ≡ text.old.items ++ spec.frame_line firm.now message.now) }
{
    text.extend_from_slice(firm.as_bytes())?;
    text.push(b' ')?;
    push_barred(text, message)?;
    text.push(b'\n')?;
    Ok(())
}

/// `FIRM N TIME TYPE BODY`.
fn push_message_line(text: &mut Vec<u8>, firm: &Name, message: &SentMessage) -> Pushed
    ensures { OnOk result (text.new.items
        ≡ text.old.items ++ spec.message_line firm.now message.now) }
{
    push_fields_line(text, firm, message.frame().fields())
}

/// The line of a message that a firm of a live venue is sent, in one form or the other.
pub(crate) fn push_sent_line(
    text: &mut Vec<u8>,
    with_frames: bool,
    firm: &Name,
    sent: &SentTo,
) -> Pushed
    ensures { OnOk result (text.new.items
        ≡ text.old.items ++ spec.line_of with_frames firm.now sent.now.1) }
{
    if with_frames {
        return push_frame_line(text, firm, sent.as_bytes());
    }
    push_fields_line(text, firm, sent.frame().fields())
}

/// `FIRM N TIME TYPE BODY` of these fields.
fn push_fields_line(text: &mut Vec<u8>, firm: &Name, fields: Fields<'_>) -> Pushed
    ensures { OnOk result (text.new.items
        ≡ text.old.items ++ spec.fields_line firm.now fields.entry) }
{
    let mut fields = fields;
    let header = header_of(&mut fields);
    text.extend_from_slice(firm.as_bytes())?;
    push_header(text, header.as_slice())?;
    push_fields(text, &fields)?;
    text.push(b'\n')?;
    Ok(())
}

/// Takes the fields of the header off the front, so that each field is read once.
fn header_of<'a>(fields: &mut Fields<'a>) -> ArrayVec<(u32, &'a [u8]), HEADER_FIELDS>
    ensures header { map (λ field. (field.0, field.1.now)) result.items
        ≡ spec.header_of fields.old }
    ensures behind { fields.new ≡ spec.fields_behind_header fields.old }
{
    let mut header = ArrayVec::new();
    for _ in 0..HEADER_FIELDS {
        let Some(field) = fields.next() else {
            return header;
        };
        header.push(field);
    }
    header
}

/// The number, the time of day and the type of a message.
fn push_header(text: &mut Vec<u8>, header: &[(u32, &[u8])]) -> Pushed
    ensures { OnOk result (text.new.items ≡ text.old.items
        ++ spec.header_text (map (λ field. (field.0, field.1.now)) header.now)) }
{
    text.push(b' ')?;
    text.extend_from_slice(value_in(header, 34))?;
    text.push(b' ')?;
    text.extend_from_slice(time_of_day(value_in(header, 52)))?;
    text.push(b' ')?;
    text.extend_from_slice(value_in(header, 35))?;
    Ok(())
}

/// The value of the first of these fields that has this tag, or nothing.
fn value_in<'a>(fields: &[(u32, &'a [u8])], tag: u32) -> &'a [u8]
    ensures { result.now ≡ text_at tag (map (λ field. (field.0, field.1.now)) fields.now) }
{
    for field in fields {
        if field.0 == tag {
            return field.1;
        }
    }
    &[]
}

/// The time of day of a timestamp, which stands behind the date and a dash.
pub(crate) fn time_of_day(timestamp: &[u8]) -> &[u8]
    ensures { result.now ≡ spec.time_of_day timestamp.now }
{
    if timestamp.len() < 9 {
        return &[];
    }
    &timestamp[9..]
}

/// Fields, a space before the first one and a vertical bar before each other: they are shown as
/// they stand in the frame, but for the SOH behind each.
#[tactic(auto, using(crate::proofs::BarLemmas::shown_none))]
fn push_fields(text: &mut Vec<u8>, fields: &Fields<'_>) -> Pushed
    ensures { OnOk result (text.new.items
        ≡ text.old.items ++ spec.fields_text_behind 32 fields.now) }
{
    let bytes = fields.as_bytes();
    if bytes.is_empty() {
        return Ok(());
    }
    text.push(b' ')?;
    push_barred(text, &bytes[..bytes.len() - 1])?;
    Ok(())
}
