//! Frames that are read.
ghost use Rattle.std.specs.Prelude.{◌≡◌, ℕ, ◌+◌, ◌<◌, ◌≤◌, ◌↔◌, List, Ok, Err, length};
ghost use Rattle.std.specs.Prelude.{MatchOption, MatchResult, IfOk, OnOk, IfSome, Some, None};
ghost use Rattle.std.specs.Prelude.{IsTrue, is_some};
ghost use Rattle.std.specs.Option.{option_copied};
ghost use Rattle.std.specs.Result.{result_ok};
ghost use Rattle.std.specs.Str.Parse.{digits_value};
ghost use Rattle.fix_fields.specs.Frame.{Field, IsValue, AreBody, IsFrame, frame_of, value_of};
ghost use Rattle.fix_fields.specs.Frame.{times_of, fields_text, fields_of};
ghost use Rattle.fix_fields.specs.Garbled.{IsFault, IsCut};
ghost use Rattle.fix_fields.specs.Scan.{IsEnd};

use crate::fault::Garbled;
use crate::limits::{MOST_BODY, MOST_FRAME};
use crate::scan::{SOH, first_field, is_body, leading_number, len_before_soh};
use crate::sums::checksum;
use std::marker::Model;

/// The bytes that each frame begins with: BeginString (8), and the tag of BodyLength (9).
pub(crate) const START: &[u8] = b"8=FIXT.1.1\x019=";

/// The length of CheckSum (10), the last field: `10=`, three digits and SOH.
pub(crate) const END_LEN: usize = 7;

/// The body of a frame, in the bytes that it was read from. A clause sees the list of its fields.
#[derive(Debug, Drop)]
pub struct Frame<'a> {
    body: &'a [u8],
}

impl<'a> Model for Frame<'a> {
    ghost use Rattle.std.specs.Prelude.{List};
    ghost use Rattle.fix_fields.specs.Frame.{Field, fields_of};
    ghost use Rattle.fix_fields.specs.Scan.{IsBodyText};

    ghost Value = { List Field };

    ghost view = { λ frame. fields_of frame.body.now };

    ghost invariant = { λ frame. IsBodyText frame.body.now };
}

impl<'a> Frame<'a> {
    /// The value of the first field with this tag, or none. It borrows the bytes that were read.
    pub fn get(&self, tag: u32) -> Option<&'a [u8]>
        ensures first { option_copied result ≡ value_of tag self.now }
        ensures value { IfSome result (λ value. IsValue value.now) }
        ensures fits { IfSome result (λ value. length value.now ≤ MOST_BODY) }
    {
        for (found, value) in self.fields() {
            if found == tag {
                return Some(value);
            }
        }
        None
    }

    /// How many fields have this tag.
    pub fn times(&self, tag: u32) -> usize
        ensures { result ≡ times_of tag self.now }
    {
        self.fields().filter(|field| field.0 == tag).count()
    }

    /// The tags and values of all fields of the body, first to last.
    pub fn fields(&self) -> Fields<'a>
        ensures all { result ≡ self.now }
        ensures body { AreBody self.now }
        ensures fits { length (fields_text self.now) ≤ MOST_BODY }
        ensures few { length self.now ≤ MOST_BODY }
    {
        Fields { rest: self.body }
    }
}

/// The fields of a frame that are left, first to last: the result of [`Frame::fields`].
#[derive(Debug, Drop)]
pub struct Fields<'a> {
    rest: &'a [u8],
}

impl<'a> Model for Fields<'a> {
    ghost use Rattle.std.specs.Prelude.{List};
    ghost use Rattle.fix_fields.specs.Frame.{Field, fields_of};
    ghost use Rattle.fix_fields.specs.Scan.{IsFieldsText};

    ghost Value = { List Field };

    ghost view = { λ fields. fields_of fields.rest.now };

    ghost invariant = { λ fields. IsFieldsText fields.rest.now };
}

impl<'a> Fields<'a> {
    ghost use Rattle.std.specs.Prelude.{◌≡◌};
    ghost use Rattle.std.specs.List.{AllByRecursion};
    ghost use Rattle.fix_fields.specs.Frame.{IsField, fields_text};

    /// The bytes of these fields as they were read: SOH ends each.
    pub fn as_bytes(&self) -> &'a [u8]
        ensures text { result.now ≡ fields_text self.now }
        ensures lawful { AllByRecursion IsField self.now }
    {
        self.rest
    }

    /// The same fields once more, to be gone through apart.
    pub fn again(&self) -> Self
        ensures { result ≡ self.now }
    {
        Fields { rest: self.rest }
    }
}

impl<'a> Iterator for Fields<'a> {
    ghost use Rattle.std.specs.Iterator.{YieldsFirstBy, item_count};

    type Item = (u32, &'a [u8]);

    ghost next_gives = { YieldsFirstBy (λ field. (field.0, field.1.now)) (λ rest. rest) };

    ghost remaining = { item_count (λ rest. rest) };

    #[inline(always)]
    fn next(&mut self) -> Option<(u32, &'a [u8])> {
        if self.rest.is_empty() {
            return None;
        }
        let (tag, value, behind) = first_field(self.rest);
        self.rest = behind;
        Some((tag, value))
    }
}

/// Cuts bytes into the body and the seven bytes behind it, by BeginString and BodyLength alone.
fn cut(bytes: &[u8]) -> Result<(&[u8], &[u8]), Garbled>
    ensures ok { IfOk result (λ parts. (length_digits : List ℕ)
        × IsCut bytes.now length_digits parts.0.now parts.1.now) }
    ensures seven { IfOk result (λ parts. length parts.1.now ≡ 7) }
    ensures long { OnOk result (7 ≤ length bytes.now) }
    ensures err { MatchResult result (λ _. Unit {0}) (λ fault. IsFault fault bytes.now) }
{
    if bytes.len() > MOST_FRAME {
        return Err(Garbled::TooLong);
    }
    if !bytes.starts_with(START) {
        return Err(Garbled::Start);
    }
    let rest = &bytes[START.len()..];
    let (len, digits) = leading_number(rest, 6);
    if digits == 0 || digits == rest.len() {
        return Err(Garbled::Length);
    }
    if rest[digits] != SOH {
        return Err(Garbled::Length);
    }
    let behind = &rest[digits + 1..];
    if behind.len() != len as usize + END_LEN {
        return Err(Garbled::Length);
    }
    Ok(behind.split_at(len as usize))
}

/// The number of a CheckSum of seven bytes: `10=`, three digits and SOH.
pub(crate) fn sum_of_end(tail: &[u8]) -> Option<u32>
    requires { length tail.now ≡ 7 }
    ensures { MatchOption result ((digits : List ℕ) → ¬ IsEnd tail.now digits)
        (λ n. (digits : List ℕ) × IsEnd tail.now digits × (digits_value 10 digits ≡ n)) }
{
    if !tail.starts_with(b"10=") {
        return None;
    }
    let (sum, digits) = leading_number(&tail[3..], 3);
    if digits != 3 || tail[6] != SOH {
        return None;
    }
    Some(sum)
}

/// Reads the frame that bytes are. Each fault comes where its check is the first, in the order of
/// [`Garbled`], that the bytes do not pass. It takes no memory: the frame borrows the bytes.
pub fn read_frame(bytes: &[u8]) -> Result<Frame<'_>, Garbled>
    // A frame is read, and nothing else; its fields are those that it was built from.
    ensures read { (fields : List Field) → (result ≡ Ok fields) ↔ IsFrame bytes.now fields }

    // Each fault comes exactly where its check is the first that fails.
    ensures fault { (fault : Garbled) → (result ≡ Err fault) ↔ IsFault fault bytes.now }

    // The same as one function of the bytes.
    ensures exact { result_ok result ≡ frame_of bytes.now }
{
    read(bytes)
}

/// The frame of bytes that are known to be one, as those of a message that was written: its body is
/// found, and nothing is tested again. It takes no memory.
pub fn known_frame(bytes: &[u8]) -> Frame<'_>
    requires { IsTrue (is_some (frame_of bytes.now)) }
    ensures { frame_of bytes.now ≡ Some result }
{
    let rest = &bytes[START.len()..];
    let digits = len_before_soh(rest);
    let behind = &rest[digits + 1..];
    let end = behind.len() - END_LEN;
    let body = &behind[..end];
    Frame { body }
}

/// The frame that bytes are, or the first check that they do not pass.
fn read(bytes: &[u8]) -> Result<Frame<'_>, Garbled>
    ensures { MatchResult result (λ fields. IsFrame bytes.now fields)
        (λ fault. IsFault fault bytes.now) }
{
    let (body, tail) = cut(bytes)?;
    if !is_body(body) {
        return Err(Garbled::Field);
    }
    let Some(sum) = sum_of_end(tail) else {
        return Err(Garbled::End);
    };
    let front = &bytes[..bytes.len() - END_LEN];
    if sum != checksum(front) as u32 {
        return Err(Garbled::Sum);
    }
    Ok(Frame { body })
}
