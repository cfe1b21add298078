//! The message that a `say` line makes. Where its BODY has no field of the header, as it mostly has
//! not, each field goes into the frame as soon as it is read.
ghost use Rattle.std.specs.Prelude.{◌≡◌, map, fold, Some, IfOk, IfSome, true};
ghost use Rattle.fix_fields.specs.Frame.{IsValue};
ghost use Rattle.input_lines.specs.Lines.{first_part, behind_part, parts_of};
ghost use Rattle.input_lines.specs.SayLine as line;
ghost use Rattle.input_lines.specs.SayReading as spec;

use crate::bars::push_barred;
use crate::fields::is_plain_value;
use crate::lines::Parts;
use crate::parts::{cut_part, read_time};
use crate::say_lines::{SayLine, is_plain_part};
use fix_fields::{Date, FrameWriter, Memory, Moment, is_value, moment_bytes};
use itoa::Buffer;
use quote_messages::{FirmMessage, Message};
use std::alloc::Global;

/// How many bytes FIRM, TRADER, TYPE and the number have at most in a usual line.
const USUAL_PART: usize = 64;

/// What a `say` line makes.
#[derive(Drop)]
pub(crate) struct Made {
    /// The moment at which the message comes.
    pub(crate) moment: Moment,
    /// The message.
    pub(crate) message: FirmMessage,
    /// Whether BODY has MsgSeqNum (34).
    pub(crate) is_numbered: bool,
}

/// What `TRADER TIME TYPE BODY` makes as a message of a firm with this part as its name, with a
/// vertical bar for each SOH in the part, or none where it is not of its form or the frame would be
/// longer than 4,096 bytes. A part without SOH is not copied.
#[tactic(auto, using(crate::proofs::BarLemmas::barred_plain, crate::proofs::TagLemmas::value_is_plain))]
pub(crate) fn made_by(
    alloc: Global,
    date: &Date,
    part: &[u8],
    number: u64,
    text: &[u8],
) -> Result<Option<Made>, Memory>
    ensures { IfOk result (λ made.
        made ≡ spec.made_of date.now (map line.with_bar part.now) number text.now) }
{
    if is_plain_value(part) {
        let made = made_for(alloc, date, part, number, text)?;
        return Ok(made);
    }
    let part = with_bars(alloc, part)?;
    let made = made_for(alloc, date, part.as_slice(), number, text)?;
    Ok(made)
}

/// A part with a vertical bar for each SOH, so that it can be a value of a field.
#[tactic(auto, using(crate::proofs::TagLemmas::barred_is_value))]
fn with_bars(alloc: Global, part: &[u8]) -> Result<Vec<u8>, Memory>
    ensures barred { IfOk result (λ text. text.items ≡ map line.with_bar part.now) }
    ensures value { IfOk result (λ text. IsValue text.items) }
{
    let mut text = Vec::with_capacity(alloc, part.len())?;
    push_barred(&mut text, part)?;
    Ok(text)
}

/// What `TRADER TIME TYPE BODY` makes as a message with this value of SenderCompID (49), or none
/// where it is not of its form or the frame would be longer than 4,096 bytes.
pub(crate) fn made_for(
    alloc: Global,
    date: &Date,
    firm: &[u8],
    number: u64,
    text: &[u8],
) -> Result<Option<Made>, Memory>
    requires { IsValue firm.now }
    ensures { IfOk result (λ made. made ≡ spec.made_of date.now firm.now number text.now) }
{
    let Some(made) = made_at_once(alloc, date, firm, number, text)? else {
        let made = made_by_fields(alloc, date, firm, number, text)?;
        return Ok(made);
    };
    Ok(Some(made))
}

/// The same, whatever fields BODY has: they are read before the header is written.
#[tactic(auto, unfolding(crate::specs::SayReading::made_of))]
fn made_by_fields(
    alloc: Global,
    date: &Date,
    firm: &[u8],
    number: u64,
    text: &[u8],
) -> Result<Option<Made>, Memory>
    requires { IsValue firm.now }
    ensures { IfOk result (λ made. made ≡ spec.made_of date.now firm.now number text.now) }
{
    let Some(said) = SayLine::read(alloc, date, text)? else {
        return Ok(None);
    };
    let Some(message) = said.framed(alloc, date, firm, number)? else {
        return Ok(None);
    };
    Ok(Some(Made {
        moment: said.moment(),
        message: FirmMessage::new(message),
        is_numbered: said.is_numbered(),
    }))
}

/// The same of a line whose BODY has no field of the header, or none: of another line, of one with
/// a very long part, or of one that is at fault, it says nothing.
fn made_at_once(
    alloc: Global,
    date: &Date,
    firm: &[u8],
    number: u64,
    text: &[u8],
) -> Result<Option<Made>, Memory>
    requires { IsValue firm.now }
    ensures { IfOk result (λ made. IfSome made (λ made.
        Some made ≡ spec.made_of date.now firm.now number text.now)) }
{
    let parts = said_parts(text);
    let Some(moment) = read_time(date, parts.time) else {
        return Ok(None);
    };
    let trader = parts.trader;
    let msg_type = parts.msg_type;
    let body = parts.body;
    if !is_plain_part(trader) || !is_plain_part(msg_type) || body.is_empty() {
        return Ok(None);
    }
    if !is_value(body) {
        return Ok(None);
    }
    let header = header_frame(alloc, date, firm, number, moment, trader, msg_type)?;
    let Some(mut frame) = header else {
        return Ok(None);
    };
    let put = push_texts(&mut frame, body)?;
    if !put {
        return Ok(None);
    }
    let bytes = frame.finish()?;
    Ok(Some(Made {
        moment,
        message: FirmMessage::of_frame(Message::new(bytes)),
        is_numbered: false,
    }))
}

/// The parts of a `say` line behind FIRM.
#[derive(Drop)]
struct SaidParts<'a> {
    trader: &'a [u8],
    time: &'a [u8],
    msg_type: &'a [u8],
    body: &'a [u8],
}

/// Cuts `TRADER TIME TYPE BODY` into its parts.
fn said_parts(text: &[u8]) -> SaidParts<'_>
    ensures trader { result.trader.now ≡ first_part text.now }
    ensures time { result.time.now ≡ first_part (behind_part text.now) }
    ensures msg_type { result.msg_type.now ≡ first_part (behind_part (behind_part text.now)) }
    ensures body { result.body.now ≡ behind_part (behind_part (behind_part text.now)) }
{
    let (trader, rest) = cut_part(text);
    let (time, rest) = cut_part(rest);
    let (msg_type, body) = cut_part(rest);
    SaidParts {
        trader,
        time,
        msg_type,
        body,
    }
}

/// A frame of the whole header, unless one of its parts is very long.
#[tactic(auto, using(crate::proofs::TagLemmas::part_is_value))]
fn header_frame(
    alloc: Global,
    date: &Date,
    firm: &[u8],
    number: u64,
    moment: Moment,
    trader: &[u8],
    msg_type: &[u8],
) -> Result<Option<FrameWriter>, Memory>
    requires firm { IsValue firm.now }
    requires trader { line.is_plain_part trader.now ≡ true }
    requires msg_type { line.is_plain_part msg_type.now ≡ true }
    ensures { IfOk result (λ frame. IfSome frame (λ frame. Some frame
        ≡ line.fitting (spec.whole_header date.now firm.now number moment trader.now msg_type.now))) }
{
    let mut buffer = Buffer::new();
    let digits = buffer.format(number).as_bytes();
    if firm.len() > USUAL_PART || trader.len() > USUAL_PART {
        return Ok(None);
    }
    if msg_type.len() > USUAL_PART || digits.len() > USUAL_PART {
        return Ok(None);
    }
    let time = moment_bytes(date, moment);
    let mut frame = FrameWriter::new(alloc, msg_type)?;
    frame.text(49, firm)?;
    frame.text(56, b"VENUE")?;
    frame.text(34, digits)?;
    frame.text(52, &time)?;
    frame.text(50, trader)?;
    Ok(Some(frame))
}

/// Adds the fields of BODY to a frame, as long as each is of its form and none of the header, and
/// it fits: whether all were added.
fn push_texts(frame: &mut FrameWriter, body: &[u8]) -> Result<bool, Memory>
    requires { IsValue body.now }
    ensures { IfOk result (λ put. put ≡ true → Some frame.new
        ≡ fold spec.with_text (Some frame.old) (parts_of 124 body.now)) }
{
    for text in Parts::new(body, b'|') {
        let put = push_text(frame, text)?;
        if !put {
            return Ok(false);
        }
    }
    Ok(true)
}

/// Adds the field that a text spells to a frame, where it spells one that is none of the header,
/// and where it still fits: whether it was added.
#[inline(always)]
fn push_text(frame: &mut FrameWriter, text: &[u8]) -> Result<bool, Memory>
    requires { IsValue text.now }
    ensures { IfOk result (λ put. put ≡ true
        → Some frame.new ≡ spec.with_text (Some frame.old) text.now) }
{
    if text.len() >= frame.left() {
        return Ok(false);
    }
    let Some(tag) = frame.spelled(text)? else {
        return Ok(false);
    };
    if is_header_tag(tag) {
        return Ok(false);
    }
    Ok(true)
}

/// Whether a tag is of the header that a `say` line writes of itself.
#[tactic(auto, unfolding(crate::specs::SayReading::is_header_tag))]
fn is_header_tag(tag: u32) -> bool
    ensures { result ≡ spec.is_header_tag tag }
{
    match tag {
        49 | 56 | 34 | 52 | 50 => true,
        _ => false,
    }
}
