//! The fields of a message as a line spells them.
ghost use Rattle.std.specs.Prelude.{◌≡◌, IfOk, IfSome};
ghost use Rattle.std.specs.Option.{option_map};
ghost use Rattle.fix_fields.specs.Frame.{IsTag};
ghost use Rattle.input_lines.specs.SayLine as spec;

use crate::lines::Parts;
use crate::parts::cut_near;
use fix_fields::Memory;
use quote_messages::read_number;
use std::alloc::Global;
use std::marker::Model;

/// A field that may stand in the body of a frame.
#[derive(Drop)]
pub struct Field<'a> {
    tag: u32,
    value: &'a [u8],
}

impl<'a> Model for Field<'a> {
    ghost use Rattle.fix_fields.specs.Frame.{Field, IsField};

    ghost Value = { Field };

    ghost view = { λ field. (field.tag, field.value.now) };

    ghost invariant = { λ field. IsField (field.tag, field.value.now) };
}

impl<'a> Field<'a> {
    ghost use Rattle.fix_fields.specs.Frame.{IsTag, IsValue};

    /// Its tag.
    pub fn tag(&self) -> u32
        ensures value { result ≡ self.now.0 }
        ensures lawful { IsTag self.now.0 }
    {
        self.tag
    }

    /// Its value.
    pub fn value(&self) -> &'a [u8]
        ensures value { result.now ≡ self.now.1 }
        ensures lawful { IsValue self.now.1 }
    {
        self.value
    }
}

/// How many fields a usual BODY has at most: for so many there is room from the first on.
const USUAL_FIELDS: usize = 16;

/// The fields that vertical bars divide, one at the end allowed, or none where one of them is not
/// of the form of a field. It fails for memory alone.
pub fn read_fields(alloc: Global, body: &[u8]) -> Result<Option<Vec<Field<'_>>>, Memory>
    ensures { IfOk result (λ fields. option_map (λ f. f.items) fields ≡ spec.said_fields body.now) }
{
    let mut fields = Vec::with_capacity(alloc, USUAL_FIELDS)?;
    for text in Parts::new(body, b'|') {
        let Some(field) = read_field(text) else {
            return Ok(None);
        };
        fields.push(field)?;
    }
    Ok(Some(fields))
}

/// The field that a text spells: a tag, an equals sign and a value.
#[tactic(auto, using(crate::proofs::TagLemmas::value_is_plain))]
pub(crate) fn read_field(text: &[u8]) -> Option<Field<'_>>
    ensures { result ≡ spec.said_field text.now }
{
    let (digits, value) = cut_near(text, b'=');
    if digits.len() == text.len() || !is_plain_value(value) {
        return None;
    }
    let tag = read_tag(digits)?;
    Some(Field { tag, value })
}

/// The tag that digits write: 1 to 9 of them, no leading zero, and not the tag of BeginString (8),
/// BodyLength (9) or CheckSum (10).
#[tactic(auto, using(crate::proofs::TagLemmas::number_is_small))]
fn read_tag(digits: &[u8]) -> Option<u32>
    ensures value { result ≡ spec.tag_of digits.now }
    ensures tag { IfSome result IsTag }
{
    if begins_with_zero(digits) {
        return None;
    }
    let tag = read_number(digits)?;
    if tag == 0 || tag == 8 || tag == 9 || tag == 10 {
        return None;
    }
    Some(tag as u32)
}

/// Whether a text begins with the digit 0.
fn begins_with_zero(text: &[u8]) -> bool
    ensures { result ≡ spec.begins_with_zero text.now }
{
    match text.first() {
        None => false,
        Some(first) => *first == b'0',
    }
}

/// Whether a value has no SOH.
pub(crate) fn is_plain_value(value: &[u8]) -> bool
    ensures { result ≡ spec.is_plain_value value.now }
{
    value.iter().all(|c| *c != 1)
}
