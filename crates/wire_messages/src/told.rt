//! What a firm is told beside a message.
ghost use Rattle.std.specs.Prelude.{◌≡◌, true, Some, None, if◌then◌else◌};
ghost use Rattle.fix_fields.specs.Frame.{IsTag, IsValue};
ghost use Rattle.wire_messages.specs.ToFirm.{is_told_text};

use fix_fields::is_value;
use std::marker::Model;

/// What a firm is told beside a message, as its last field: a reason in Text (58), or a trade's name
/// in TradeID (1003). A clause sees the field.
#[derive(Debug, Drop)]
pub struct Told<'a> {
    tag: u32,
    text: &'a [u8],
}

impl<'a> Model for Told<'a> {
    ghost use Rattle.fix_fields.specs.Frame.{Field};
    ghost use Rattle.wire_messages.specs.ToFirm.{IsToldField};

    ghost Value = { Field };

    ghost view = { λ told. (told.tag, told.text.now) };

    ghost invariant = { λ told. IsToldField (told.tag, told.text.now) };
}

impl<'a> Told<'a> {
    /// A reason, in Text (58): bytes without SOH, one at least.
    pub fn reason(words: &'a [u8]) -> Option<Told<'a>>
        ensures { result ≡ (if is_told_text words.now then Some (58, words.now) else None) }
    {
        if !is_told_text(words) {
            return None;
        }
        Some(Told {
            tag: 58,
            text: words,
        })
    }

    /// A trade's name, in TradeID (1003): bytes without SOH, one at least.
    pub fn trade(name: &'a [u8]) -> Option<Told<'a>>
        ensures { result ≡ (if is_told_text name.now then Some (1003, name.now) else None) }
    {
        if !is_told_text(name) {
            return None;
        }
        Some(Told {
            tag: 1003,
            text: name,
        })
    }

    /// Its tag.
    pub(crate) fn tag(&self) -> u32
        ensures value { result ≡ self.now.0 }
        ensures lawful { IsTag result }
    {
        self.tag
    }

    /// Its value.
    pub(crate) fn text(&self) -> &'a [u8]
        ensures value { result.now ≡ self.now.1 }
        ensures lawful { IsValue result.now }
    {
        self.text
    }
}

/// Whether a text may be told.
fn is_told_text(text: &[u8]) -> bool
    ensures exact { result ≡ is_told_text text.now }
    ensures lawful { result ≡ true → IsValue text.now }
{
    if text.is_empty() {
        return false;
    }
    is_value(text)
}
