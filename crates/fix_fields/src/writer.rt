//! Frames that are written.
ghost use Rattle.std.specs.Prelude.{◌≡◌, ℕ, ◌+◌, ◌<◌, ◌≤◌, ◌↔◌, [], ◌∷◌, ◌++◌, length, decimal};
ghost use Rattle.std.specs.Prelude.{IsTrue, IfOk, OnOk, OnErr, MatchOption, Some};
ghost use Rattle.std.specs.Prelude.{vec_len, vec_capacity};
ghost use Rattle.fix_fields.specs.Frame as spec;
ghost use Rattle.fix_fields.specs.Frame.{Field, IsTag, IsValue, IsFrame, Spells, field_len};
ghost use Rattle.fix_fields.specs.Frame.{left_of, field_text, frame_text, frame_of};
ghost use Rattle.fix_fields.specs.Scan.{text_around};

use crate::Memory;
use crate::frames::{END_LEN, START};
use crate::limits::MOST_BODY;
use crate::scan::{SOH, spelled_tag, value_len};
use crate::sums::checksum;
use itoa::{Buffer, write_digits};
use std::alloc::Global;
use std::marker::Model;

/// How many bytes of body a writer begins with room for: most messages need no more.
const USUAL_BODY: usize = 256;

/// A frame that is being written. A clause sees the list of its fields so far, MsgType (35) first.
#[derive(Debug, Drop)]
pub struct FrameWriter {
    body: Vec<u8>,
}

impl Model for FrameWriter {
    ghost use Rattle.std.specs.Prelude.{List};
    ghost use Rattle.fix_fields.specs.Frame.{Field, fields_of};
    ghost use Rattle.fix_fields.specs.Scan.{IsBodyText};

    ghost Value = { List Field };

    ghost view = { λ writer. fields_of writer.body.items };

    ghost invariant = { λ writer. IsBodyText writer.body.items };
}

impl FrameWriter {
    /// A frame with MsgType (35) alone. Its value has no SOH ([`is_value`]), and the field fits
    /// into [`MOST_BODY`] bytes ([`fits`]). The one error is that memory is refused.
    pub fn new(alloc: Global, msg_type: &[u8]) -> Result<FrameWriter, Memory>
        requires value { IsValue msg_type.now }
        requires room { field_len 35 (length msg_type.now) ≤ MOST_BODY }
        ensures fields { IfOk result (λ writer. writer ≡ (35, msg_type.now) ∷ []) }
        ensures left { IfOk result (λ writer.
            left_of writer + field_len 35 (length msg_type.now) ≡ MOST_BODY) }
    {
        let mut body = Vec::with_capacity(alloc, USUAL_BODY)?;
        push_field(&mut body, 35, msg_type)?;
        Ok(FrameWriter { body })
    }

    /// How many bytes still fit into the body, which has at most [`MOST_BODY`]. A field takes the
    /// digits of its tag, its value, and two bytes more: [`fits`] is the test.
    pub fn left(&self) -> usize
        ensures { result ≡ left_of self.now }
    {
        MOST_BODY - self.body.len()
    }

    /// Adds a field behind the others. The tag is lawful ([`is_tag`]), the value has no SOH
    /// ([`is_value`]), and the field fits into what is left ([`fits`]). The one error is that
    /// memory is refused; the frame is then as before.
    #[inline(always)]
    pub fn text(&mut self, tag: u32, value: &[u8]) -> Result<(), Memory>
        requires tag { IsTag tag }
        requires value { IsValue value.now }
        requires room { field_len tag (length value.now) ≤ left_of self.old }
        ensures ok { OnOk result (self.new ≡ self.old ++ (tag, value.now) ∷ []) }
        ensures left { OnOk result
            (left_of self.new + field_len tag (length value.now) ≡ left_of self.old) }
        ensures err { OnErr result (self.new ≡ self.old) }
    {
        push_field(&mut self.body, tag, value)?;
        Ok(())
    }

    /// Adds a field whose value is a number in decimal, without leading zeros. Tag, room and error
    /// are as for [`FrameWriter::text`]; [`decimal_len`] tells how many digits a number has, at
    /// most 20.
    #[inline(always)]
    pub fn number(&mut self, tag: u32, value: u64) -> Result<(), Memory>
        requires tag { IsTag tag }
        requires room { field_len tag (spec.decimal_len value) ≤ left_of self.old }
        ensures ok { OnOk result (self.new ≡ self.old ++ (tag, decimal value) ∷ []) }
        ensures left { OnOk result
            (left_of self.new + field_len tag (spec.decimal_len value) ≡ left_of self.old) }
        ensures err { OnErr result (self.new ≡ self.old) }
    {
        let mut buffer = Buffer::new();
        let digits = buffer.format(value).as_bytes();
        push_field(&mut self.body, tag, digits)?;
        Ok(())
    }

    /// Adds the field that a text spells, a tag, an equals sign and a value, and gives its tag. The
    /// text has no SOH ([`is_value`]), and it fits into what is left with one byte more. Where it
    /// spells no lawful field, and where memory is refused, the frame is as before.
    #[inline(always)]
    pub fn spelled(&mut self, text: &[u8]) -> Result<Option<u32>, Memory>
        requires value { IsValue text.now }
        requires room { length text.now < left_of self.old }
        ensures ok { IfOk result (λ tag. MatchOption tag
            (((n : ℕ) → ¬ Spells text.now n) × (self.new ≡ self.old))
            (λ tag. (spells : Spells text.now tag)
            × (self.new ≡ self.old ++ (tag, spells.value) ∷ []))) }
        ensures err { OnErr result (self.new ≡ self.old) }
    {
        let Some(tag) = spelled_tag(text) else {
            return Ok(None);
        };
        push_spelled(&mut self.body, text)?;
        Ok(Some(tag))
    }

    /// The frame of the fields: BodyLength (9) without leading zeros, CheckSum (10) in three
    /// digits. The writer is gone either way.
    pub fn finish(self) -> Result<Vec<u8>, Memory>
        ensures text { IfOk result (λ bytes. bytes.items ≡ frame_text self) }
        ensures frame { IfOk result (λ bytes. IsFrame bytes.items self) }
        ensures read_back { IfOk result (λ bytes. frame_of bytes.items ≡ Some self) }
    {
        let alloc = *self.body.allocator();
        framed(alloc, self.body.as_slice())
    }
}

/// Whether a tag may stand in a body: it has 1 to 9 digits, the first not 0, and is not that of
/// BeginString (8), BodyLength (9) or CheckSum (10).
pub fn is_tag(tag: u32) -> bool
    ensures lawful { IsTrue result ↔ IsTag tag }
    ensures exact { result ≡ spec.is_tag tag }
{
    if tag < 1 || tag > 999_999_999 {
        return false;
    }
    tag != 8 && tag != 9 && tag != 10
}

/// Whether bytes may be the value of a field: they have no SOH.
pub fn is_value(value: &[u8]) -> bool
    ensures lawful { IsTrue result ↔ IsValue value.now }
    ensures exact { result ≡ spec.is_value value.now }
{
    value_len(value) == value.len()
}

/// Whether a field with this tag and a value of `len` bytes fits into `left` bytes of body.
pub fn fits(tag: u32, len: usize, left: usize) -> bool
    ensures { IsTrue result ↔ (field_len tag len ≤ left) }
{
    if len > left {
        return false;
    }
    decimal_len(tag as u64) + 2 <= left - len
}

/// How many digits a number has in decimal: what [`FrameWriter::number`] takes for a value. Most
/// tags have at most three, and only a longer number is formatted.
pub fn decimal_len(n: u64) -> usize
    ensures value { result ≡ spec.decimal_len n }
    ensures digits { result ≡ length (decimal n) }
    ensures few { result ≤ 20 }
{
    if n < 10 {
        return 1;
    }
    if n < 100 {
        return 2;
    }
    if n < 1_000 {
        return 3;
    }
    let mut buffer = Buffer::new();
    buffer.format(n).len()
}

/// Puts a field at the end of a body. Its tag and the equals sign have at most 11 bytes. It is
/// inlined, as what it calls is, so that a tag which the caller writes as a number is a text once
/// the program is built.
#[inline(always)]
fn push_field(body: &mut Vec<u8>, tag: u32, value: &[u8]) -> Result<(), Memory>
    requires { length value.now ≤ MOST_BODY }
    ensures ok { OnOk result (body.new.items ≡ body.old.items ++ field_text (tag, value.now)) }
    ensures err { OnErr result (body.new.items ≡ body.old.items) }
{
    body.reserve(value.len() + 12)?;
    push_tag(body, tag)?;
    body.extend_from_slice(value)?;
    body.push_reserved(SOH);
    Ok(())
}

/// Puts a field at the end of a body that is written already, but for its SOH.
#[inline(always)]
fn push_spelled(body: &mut Vec<u8>, text: &[u8]) -> Result<(), Memory>
    requires { length text.now ≤ MOST_BODY }
    ensures ok { OnOk result (body.new.items ≡ body.old.items ++ (text.now ++ 1 ∷ [])) }
    ensures err { OnErr result (body.new.items ≡ body.old.items) }
{
    body.reserve(text.len() + 1)?;
    body.extend_from_slice(text)?;
    body.push_reserved(SOH);
    Ok(())
}

/// Puts a tag and the equals sign at the end of a body that has room for them. Most tags have two
/// or three digits, and only a longer one is formatted.
#[inline(always)]
#[tactic(auto, using(crate::proofs::TagLemmas::decimal_of_one, crate::proofs::TagLemmas::decimal_of_two, crate::proofs::TagLemmas::decimal_of_three))]
fn push_tag(body: &mut Vec<u8>, tag: u32) -> Result<(), Memory>
    requires { vec_len body.old + 11 ≤ vec_capacity body.old }
    ensures ok { OnOk result (body.new.items ≡ body.old.items ++ (decimal tag ++ 61 ∷ [])) }
    ensures few { OnOk result (vec_len body.new ≤ vec_len body.old + 11) }
    ensures capacity { OnOk result (vec_capacity body.old ≤ vec_capacity body.new) }
    ensures err { OnErr result (body.new.items ≡ body.old.items) }
{
    let above = tag / 10;
    let ones = b'0' + (tag % 10) as u8;
    let tens = b'0' + (above % 10) as u8;
    if tag < 10 {
        push_two(body, ones, b'=');
        return Ok(());
    }
    if tag < 100 {
        push_three(body, tens, ones, b'=');
        return Ok(());
    }
    if tag < 1_000 {
        let hundreds = b'0' + (above / 10) as u8;
        push_four(body, hundreds, tens, ones, b'=');
        return Ok(());
    }
    push_long_tag(body, tag)?;
    Ok(())
}

/// Puts two bytes at the end of a body that has room for them.
#[inline(always)]
fn push_two(body: &mut Vec<u8>, first: u8, second: u8)
    requires { vec_len body.old + 2 ≤ vec_capacity body.old }
    ensures items { body.new.items ≡ body.old.items ++ first ∷ second ∷ [] }
    ensures len { vec_len body.new ≡ vec_len body.old + 2 }
    ensures capacity { vec_capacity body.new ≡ vec_capacity body.old }
{
    body.push_reserved(first);
    body.push_reserved(second);
}

/// The same of three.
#[inline(always)]
fn push_three(body: &mut Vec<u8>, first: u8, second: u8, third: u8)
    requires { vec_len body.old + 3 ≤ vec_capacity body.old }
    ensures items { body.new.items ≡ body.old.items ++ first ∷ second ∷ third ∷ [] }
    ensures len { vec_len body.new ≡ vec_len body.old + 3 }
    ensures capacity { vec_capacity body.new ≡ vec_capacity body.old }
{
    body.push_reserved(first);
    push_two(body, second, third);
}

/// The same of four.
#[inline(always)]
fn push_four(body: &mut Vec<u8>, first: u8, second: u8, third: u8, fourth: u8)
    requires { vec_len body.old + 4 ≤ vec_capacity body.old }
    ensures items { body.new.items ≡ body.old.items ++ first ∷ second ∷ third ∷ fourth ∷ [] }
    ensures len { vec_len body.new ≡ vec_len body.old + 4 }
    ensures capacity { vec_capacity body.new ≡ vec_capacity body.old }
{
    body.push_reserved(first);
    push_three(body, second, third, fourth);
}

/// The same of a tag of any length.
#[inline(never)]
fn push_long_tag(body: &mut Vec<u8>, tag: u32) -> Result<(), Memory>
    ensures ok { OnOk result (body.new.items ≡ body.old.items ++ (decimal tag ++ 61 ∷ [])) }
    ensures few { OnOk result (vec_len body.new ≤ vec_len body.old + 11) }
    ensures capacity { OnOk result (vec_capacity body.old ≤ vec_capacity body.new) }
    ensures err { OnErr result (body.new.items ≡ body.old.items) }
{
    let mut text = [b'='; 11];
    let start = write_digits(u64::from(tag), &mut text, 10);
    body.extend_from_slice(&text[start..])?;
    Ok(())
}

/// A body between its BodyLength and its CheckSum.
fn framed(alloc: Global, body: &[u8]) -> Result<Vec<u8>, Memory>
    requires { length body.now ≤ MOST_BODY }
    ensures { IfOk result (λ bytes. bytes.items ≡ text_around body.now) }
{
    let mut buffer = Buffer::new();
    let digits = buffer.format(body.len()).as_bytes();
    let mut bytes = Vec::with_capacity(
        alloc,
        START.len() + digits.len() + 1 + body.len() + END_LEN,
    )?;
    bytes.extend_from_slice(START)?;
    bytes.extend_from_slice(digits)?;
    bytes.push(SOH)?;
    bytes.extend_from_slice(body)?;
    let sum = checksum(&bytes);
    let end = [
        b'1',
        b'0',
        b'=',
        b'0' + sum / 100,
        b'0' + sum / 10 % 10,
        b'0' + sum % 10,
        SOH,
    ];
    bytes.extend_from_slice(&end)?;
    Ok(bytes)
}
