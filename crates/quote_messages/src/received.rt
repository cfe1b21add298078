//! Texts of a received message that its answer repeats.
ghost use Rattle.std.specs.Prelude.{◌≡◌, ℕ, ◌≤◌, ◌<◌, List, length, IsTrue};
ghost use Rattle.std.specs.Str.Parse.{digits_value};
ghost use Rattle.fix_fields.specs.Frame.{IsValue};
ghost use Rattle.venue_rows.specs.Texts.{text_if};
ghost use Rattle.quote_messages.specs.Texts.{is_sequence_number, is_msg_type};

use crate::characters::are_letters_or_digits;
use crate::read_number;
use std::marker::Model;

/// MsgSeqNum (34) as it was spelled: 1 to 9 digits that write at least 1. A Reject repeats it as
/// RefSeqNum (45).
#[derive(Drop)]
pub struct SeqNum<'a> {
    digits: &'a [u8],
}

impl<'a> Model for SeqNum<'a> {
    ghost Value = { List ℕ };

    ghost view = { λ s. s.digits.now };

    ghost invariant = { λ s. IsTrue (is_sequence_number s.digits.now) };
}

impl<'a> SeqNum<'a> {
    /// The number that these bytes spell, or none where they spell none or 0.
    pub fn new(text: &'a [u8]) -> Option<Self>
        ensures { result ≡ text_if is_sequence_number text.now }
    {
        let number = read_number(text)?;
        if number < 1 {
            return None;
        }
        Some(SeqNum { digits: text })
    }

    /// The number.
    pub fn get(&self) -> u64
        ensures { result ≡ digits_value 10 self.now }
    {
        read_number(self.digits).unwrap_or(0)
    }

    /// The digits as they were spelled.
    #[tactic(auto, using(crate::proofs::TextLemmas::sequence_number_is_value, crate::proofs::TextLemmas::sequence_number_is_short))]
    pub fn as_bytes(&self) -> &[u8]
        ensures value { result.now ≡ self.now }
        ensures number { IsTrue (is_sequence_number self.now) }
        ensures short { length self.now ≤ 9 }
        ensures field { IsValue self.now }
    {
        self.digits
    }
}

/// MsgType (35) as it was received: 1 to 4 letters or digits. A Reject repeats it as RefMsgType
/// (372).
#[derive(Drop)]
pub struct MsgType<'a> {
    letters: &'a [u8],
}

impl<'a> Model for MsgType<'a> {
    ghost Value = { List ℕ };

    ghost view = { λ m. m.letters.now };

    ghost invariant = { λ m. IsTrue (is_msg_type m.letters.now) };
}

impl<'a> MsgType<'a> {
    /// The type that these bytes are, or none where they are longer, empty, or no letters and
    /// digits.
    pub fn new(text: &'a [u8]) -> Option<Self>
        ensures { result ≡ text_if is_msg_type text.now }
    {
        if text.is_empty() || text.len() > 4 || !are_letters_or_digits(text) {
            return None;
        }
        Some(MsgType { letters: text })
    }

    /// The letters and digits.
    #[tactic(auto, using(crate::proofs::TextLemmas::msg_type_is_value))]
    pub fn as_bytes(&self) -> &[u8]
        ensures value { result.now ≡ self.now }
        ensures msg_type { IsTrue (is_msg_type self.now) }
        ensures field { IsValue self.now }
    {
        self.letters
    }
}
