//! The bytes of what a session says.
ghost use Rattle.std.specs.Prelude.{◌≡◌, ◌≤◌, ◌<◌, ◌+◌, [], ◌∷◌, ◌++◌, length, codes, decimal, IfOk, OnOk, Some};
ghost use Rattle.std.specs.List.{AllByRecursion};
ghost use Rattle.fix_fields.specs.Frame.{frame_text, frame_of, fields_text, left_of, field_len, IsField, IsValue};
ghost use Rattle.fix_fields.specs.UtcTimestamp.{timestamp_text};
ghost use Rattle.fix_sessions.specs.Written as spec;

use crate::bodies::{Body, MOST_KEPT};
use crate::texts::{Names, Text};
use crate::turns::{Denial, Fault, Said, Why, Word};
use crate::words::why_text;
use fix_fields::{Date, Fields, FrameWriter, Memory, Moment, moment_bytes};
use std::alloc::Global;

/// The frame of what a session says at a moment. The one error is that memory is refused.
pub fn write(
    alloc: Global,
    names: &Names,
    date: &Date,
    moment: Moment,
    said: &Said,
) -> Result<Vec<u8>, Memory>
    ensures text { IfOk result (λ bytes. bytes.items ≡ frame_text (spec.said_fields names.now date.now moment said.now)) }
    ensures frame { IfOk result (λ bytes. frame_of bytes.items ≡ Some (spec.said_fields names.now date.now moment said.now)) }
{
    let mut writer = header(alloc, &said.word, names, said.number)?;
    put_times(&mut writer, date, moment, &said.word)?;
    put_word(alloc, &mut writer, &said.word)?;
    writer.finish()
}

/// What is kept of a message, as a frame: MsgType (35) and what stands behind the session's header.
/// It is handed back as a [`Body`]. The one error is that memory is refused.
pub fn keep(alloc: Global, word: &Word) -> Result<Vec<u8>, Memory>
    ensures text { IfOk result (λ bytes. bytes.items ≡ frame_text (spec.kept_fields word.now)) }
    ensures frame { IfOk result (λ bytes. frame_of bytes.items ≡ Some (spec.kept_fields word.now)) }
{
    let mut writer = FrameWriter::new(alloc, msg_type(word))?;
    put_word(alloc, &mut writer, word)?;
    writer.finish()
}

/// MsgType (35) of a word.
fn msg_type<'a>(word: &'a Word<'a>) -> &'a [u8]
    ensures value { result.now ≡ spec.type_of word.now }
    ensures field { IsValue result.now }
    ensures short { length result.now ≤ MOST_KEPT }
{
    match word {
        Word::Logon { .. } => b"A",
        Word::Heartbeat => b"0",
        Word::Answer { .. } => b"0",
        Word::TestRequest { .. } => b"1",
        Word::ResendRequest { .. } => b"2",
        Word::Reject { .. } => b"3",
        Word::Fill { .. } => b"4",
        Word::Logout { .. } => b"5",
        Word::Foreign { .. } => b"5",
        Word::LogoutFor { .. } => b"5",
        Word::Denied { .. } => b"j",
        Word::Kept { body, .. } => type_in(body),
        Word::Again { body, .. } => type_in(body),
    }
}

/// MsgType (35) of what is kept: its first field.
#[tactic(auto, using(crate::proofs::WrittenLemmas::first_fits), unfolding(fix_fields::specs::Frame::fields_len))]
fn type_in<'a>(body: &'a Body<'a>) -> &'a [u8]
    ensures value { result.now ≡ spec.type_in body.now }
    ensures field { IsValue result.now }
    ensures short { field_len 35 (length result.now) ≤ MOST_KEPT + 2 }
{
    let frame = body.frame();
    let _fields = frame.fields();
    match frame.get(35) {
        Some(value) => value,
        None => b"",
    }
}

/// MsgType (35), SenderCompID (49), TargetCompID (56) and MsgSeqNum (34).
#[tactic(auto, using(crate::proofs::WrittenLemmas::decimal_len_le))]
fn header(alloc: Global, word: &Word, names: &Names, number: u64) -> Result<FrameWriter, Memory>
    ensures fields { IfOk result (λ writer. writer ≡ spec.head names.now (spec.type_of word.now) number) }
    ensures left { IfOk result (λ writer.
        3957 ≤ left_of writer + field_len 35 (length (spec.type_of word.now))) }
    ensures room { IfOk result (λ writer. 61 ≤ left_of writer) }
{
    let mut writer = FrameWriter::new(alloc, msg_type(word))?;
    writer.text(49, names.venue.as_bytes())?;
    writer.text(56, names.firm.as_bytes())?;
    writer.number(34, number)?;
    Ok(writer)
}

/// SendingTime (52), and what tells of a resend.
fn put_times(
    writer: &mut FrameWriter,
    date: &Date,
    moment: Moment,
    word: &Word,
) -> Result<(), Memory>
    requires { 61 ≤ left_of writer.old }
    ensures fields { OnOk result (writer.new ≡ writer.old ++ spec.times date.now moment word.now) }
    ensures left { OnOk result (left_of writer.old ≤ left_of writer.new + 61) }
{
    match word {
        Word::Fill { .. } => put_repeat(writer, date, moment, moment),
        Word::Again { first, is_copy, .. } => {
            put_repeat(writer, date, moment, *first)?;
            put_copy(writer, *is_copy)
        }
        Word::Kept { is_copy, .. } => {
            writer.text(52, &moment_bytes(date, moment))?;
            put_copy(writer, *is_copy)
        }
        _ => writer.text(52, &moment_bytes(date, moment)),
    }
}

/// PossResend (97) of a copy.
fn put_copy(writer: &mut FrameWriter, is_copy: bool) -> Result<(), Memory>
    requires { 5 ≤ left_of writer.old }
    ensures fields { OnOk result (writer.new ≡ writer.old ++ spec.copy_mark is_copy) }
    ensures left { OnOk result (left_of writer.old ≤ left_of writer.new + 5) }
{
    if is_copy {
        writer.text(97, b"Y")?;
    }
    Ok(())
}

/// PossDupFlag (43), SendingTime (52) and OrigSendingTime (122).
fn put_repeat(
    writer: &mut FrameWriter,
    date: &Date,
    moment: Moment,
    first: Moment,
) -> Result<(), Memory>
    requires { 56 ≤ left_of writer.old }
    ensures fields { OnOk result (writer.new ≡ writer.old ++ spec.repeat_times date.now moment first) }
    ensures left { OnOk result (left_of writer.old ≤ left_of writer.new + 56) }
{
    writer.text(43, b"Y")?;
    writer.text(52, &moment_bytes(date, moment))?;
    writer.text(122, &moment_bytes(date, first))?;
    Ok(())
}

/// What stands behind the header.
#[tactic(auto, using(crate::proofs::WrittenLemmas::decimal_len_le))]
fn put_word(alloc: Global, writer: &mut FrameWriter, word: &Word) -> Result<(), Memory>
    requires { 3896 ≤ left_of writer.old + field_len 35 (length (spec.type_of word.now)) }
    ensures { OnOk result (writer.new ≡ writer.old ++ spec.body_of word.now) }
{
    match word {
        Word::Logon {
            seconds,
            resets,
            expects,
        } => put_logon(writer, *seconds, *resets, *expects)?,
        Word::Heartbeat => (),
        Word::Answer { id } => writer.text(112, id.as_bytes())?,
        Word::TestRequest { id } => writer.number(112, *id)?,
        Word::ResendRequest { first } => put_resend_request(writer, *first)?,
        Word::Reject {
            number,
            kind,
            fault,
        } => put_reject(writer, *number, kind, *fault)?,
        Word::Fill { next } => put_fill(writer, *next)?,
        Word::Logout { why } => put_why(alloc, writer, *why)?,
        Word::Foreign { version } => put_foreign(alloc, writer, version)?,
        Word::LogoutFor { text } => writer.text(58, text.as_bytes())?,
        Word::Denied {
            number,
            kind,
            denial,
        } => put_denied(writer, *number, kind, denial)?,
        Word::Kept { body, .. } => put_body(writer, body)?,
        Word::Again { body, .. } => put_body(writer, body)?,
    }
    Ok(())
}

/// Of a Logon.
#[tactic(auto, using(crate::proofs::WrittenLemmas::decimal_len_le))]
fn put_logon(
    writer: &mut FrameWriter,
    seconds: u64,
    resets: bool,
    expects: Option<u64>,
) -> Result<(), Memory>
    requires { 1200 ≤ left_of writer.old }
    ensures { OnOk result (writer.new ≡ writer.old ++ spec.logon_fields seconds resets expects) }
{
    writer.text(98, b"0")?;
    writer.number(108, seconds)?;
    if resets {
        writer.text(141, b"Y")?;
    }
    if let Some(expected) = expects {
        writer.number(789, expected)?;
    }
    writer.text(1137, b"9")?;
    Ok(())
}

/// Of a ResendRequest.
#[tactic(auto, using(crate::proofs::WrittenLemmas::decimal_len_le))]
fn put_resend_request(writer: &mut FrameWriter, first: u64) -> Result<(), Memory>
    requires { 1200 ≤ left_of writer.old }
    ensures { OnOk result (writer.new ≡ writer.old ++ (7, decimal first) ∷ (16, codes "0") ∷ []) }
{
    writer.number(7, first)?;
    writer.text(16, b"0")?;
    Ok(())
}

/// Of a Reject.
#[tactic(auto, using(crate::proofs::WrittenLemmas::decimal_len_le))]
fn put_reject(
    writer: &mut FrameWriter,
    number: u64,
    kind: &Option<Text>,
    fault: Fault,
) -> Result<(), Memory>
    requires { 1200 ≤ left_of writer.old }
    ensures { OnOk result (writer.new ≡ writer.old ++ spec.reject_fields number kind.now fault) }
{
    writer.number(45, number)?;
    if let Some(tag) = fault.tag {
        writer.number(371, tag)?;
    }
    if let Some(kind) = kind {
        writer.text(372, kind.as_bytes())?;
    }
    writer.number(373, fault.reason)?;
    Ok(())
}

/// Of a BusinessMessageReject.
#[tactic(auto, using(crate::proofs::WrittenLemmas::decimal_len_le))]
fn put_denied(
    writer: &mut FrameWriter,
    number: u64,
    kind: &Option<Text>,
    denial: &Denial,
) -> Result<(), Memory>
    requires { 3200 ≤ left_of writer.old }
    ensures { OnOk result (writer.new ≡ writer.old ++ spec.denied_fields number kind.now denial.now) }
{
    writer.number(45, number)?;
    if let Some(kind) = kind {
        writer.text(372, kind.as_bytes())?;
    }
    if let Some(id) = &denial.id {
        writer.text(379, id.as_bytes())?;
    }
    writer.number(380, denial.reason)?;
    writer.text(58, denial.text.as_bytes())?;
    Ok(())
}

/// Of a SequenceReset that fills a gap.
#[tactic(auto, using(crate::proofs::WrittenLemmas::decimal_len_le))]
fn put_fill(writer: &mut FrameWriter, next: u64) -> Result<(), Memory>
    requires { 1200 ≤ left_of writer.old }
    ensures { OnOk result (writer.new ≡ writer.old ++ (123, codes "Y") ∷ (36, decimal next) ∷ []) }
{
    writer.text(123, b"Y")?;
    writer.number(36, next)?;
    Ok(())
}

/// Text (58) of a Logout.
#[tactic(auto, using(crate::proofs::WrittenLemmas::decimal_is_value))]
fn put_why(alloc: Global, writer: &mut FrameWriter, why: Why) -> Result<(), Memory>
    requires { 1200 ≤ left_of writer.old }
    ensures { OnOk result (writer.new ≡ writer.old ++ spec.text_if_any (spec.why_text why)) }
{
    match why {
        Why::Answered => Ok(()),
        Why::TooLow { expected } => put_numbered(alloc, writer, expected),
        _ => writer.text(58, why_text(why)),
    }
}

/// Text (58) of a Logout that names the number that is expected.
#[tactic(auto, using(crate::proofs::WrittenLemmas::decimal_is_value))]
fn put_numbered(alloc: Global, writer: &mut FrameWriter, number: u64) -> Result<(), Memory>
    requires { 1200 ≤ left_of writer.old }
    ensures { OnOk result (writer.new ≡ writer.old ++ (58, codes "MsgSeqNum too low, expecting " ++ decimal number) ∷ []) }
{
    let mut buffer = itoa::Buffer::new();
    let digits = buffer.format(number).as_bytes();
    put_pair(alloc, writer, b"MsgSeqNum too low, expecting ", digits)
}

/// Text (58) of a Logout that names another BeginString (8).
fn put_foreign(alloc: Global, writer: &mut FrameWriter, version: &Text) -> Result<(), Memory>
    requires { 1200 ≤ left_of writer.old }
    ensures { OnOk result (writer.new ≡ writer.old ++ (58, codes "BeginString is " ++ version.now) ∷ []) }
{
    put_pair(alloc, writer, b"BeginString is ", version.as_bytes())
}

/// Text (58) that is made of two parts.
#[tactic(auto, using(crate::proofs::WrittenLemmas::value_append))]
fn put_pair(
    alloc: Global,
    writer: &mut FrameWriter,
    front: &[u8],
    back: &[u8],
) -> Result<(), Memory>
    requires room { 1200 ≤ left_of writer.old }
    requires front_short { length front.now ≤ 80 }
    requires back_short { length back.now ≤ 1024 }
    requires front_value { IsValue front.now }
    requires back_value { IsValue back.now }
    ensures { OnOk result (writer.new ≡ writer.old ++ (58, front.now ++ back.now) ∷ []) }
{
    let mut all = Vec::new(alloc);
    all.extend_from_slice(front)?;
    all.extend_from_slice(back)?;
    writer.text(58, all.as_slice())
}

/// Those behind MsgType (35).
fn put_body(writer: &mut FrameWriter, body: &Body) -> Result<(), Memory>
    requires { MOST_KEPT ≤ left_of writer.old + field_len 35 (length (spec.type_in body.now)) }
    ensures { OnOk result (writer.new ≡ writer.old ++ spec.behind_type body.now) }
{
    for (tag, value) in behind_type(body) {
        writer.text(tag, value)?;
    }
    Ok(())
}

/// The fields of what is kept behind its MsgType (35).
#[tactic(auto, using(crate::proofs::WrittenLemmas::behind_is, crate::proofs::WrittenLemmas::behind_is_lawful, crate::proofs::WrittenLemmas::behind_fits), unfolding(fix_fields::specs::Frame::fields_len))]
fn behind_type<'a>(body: &Body<'a>) -> Fields<'a>
    ensures fields { result ≡ spec.behind_type body.now }
    ensures lawful { AllByRecursion IsField result }
    ensures room { length (fields_text result) + field_len 35 (length (spec.type_in body.now)) ≤ MOST_KEPT }
{
    let mut rest = body.frame().fields();
    let Some(_) = rest.next() else {
        return rest;
    };
    rest
}
