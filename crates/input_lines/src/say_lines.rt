//! A message that a firm sends, field by field: `TRADER TIME TYPE BODY`.
ghost use Rattle.std.specs.Prelude.{◌≡◌, IfOk};
ghost use Rattle.std.specs.List.{list_all};
ghost use Rattle.fix_fields.specs.Frame.{IsValue};
ghost use Rattle.input_lines.specs.SayLine as spec;

use crate::fields::{Field, read_fields};
use crate::parts::{cut_part, read_time};
use crate::say_frames::{begun_frame, finished, has_tag, with_all, with_header_field};
use fix_fields::{Date, Memory, Moment, moment_bytes};
use itoa::Buffer;
use quote_messages::Message;
use std::alloc::Global;
use std::marker::Model;
use venue_rows::Name;

/// What a `say` line says: TRADER, TIME, TYPE, and the fields of BODY.
#[derive(Drop)]
pub struct SayLine<'a> {
    trader: &'a [u8],
    moment: Moment,
    msg_type: &'a [u8],
    fields: Vec<Field<'a>>,
}

impl<'a> Model for SayLine<'a> {
    ghost use Rattle.std.specs.Prelude.{IsTrue};
    ghost use Rattle.input_lines.specs.SayLine.{SayLine, is_plain_part};

    ghost Value = { SayLine };

    ghost view = { λ said. record {
      trader = said.trader.now;
      moment = said.moment;
      msg_type = said.msg_type.now;
      fields = said.fields.items;
    } };

    ghost invariant = { λ said. IsTrue (is_plain_part said.trader.now)
        × IsTrue (is_plain_part said.msg_type.now) };
}

impl<'a> SayLine<'a> {
    /// What `TRADER TIME TYPE BODY` spells, or none where it is not of its form. It fails for
    /// memory alone.
    #[tactic(auto, unfolding(crate::specs::SayLine::said_of))]
    pub fn read(alloc: Global, date: &Date, text: &'a [u8]) -> Result<Option<Self>, Memory>
        ensures { IfOk result (λ said. said ≡ spec.said_of date.now text.entry.now) }
    {
        let (trader, rest) = cut_part(text);
        let (time, rest) = cut_part(rest);
        let (msg_type, body) = cut_part(rest);
        let Some(moment) = read_time(date, time) else {
            return Ok(None);
        };
        let Some(fields) = read_fields(alloc, body)? else {
            return Ok(None);
        };
        if !is_plain_part(trader) || !is_plain_part(msg_type) || body.is_empty() {
            return Ok(None);
        }
        Ok(Some(SayLine {
            trader,
            moment,
            msg_type,
            fields,
        }))
    }

    /// The moment at which the message comes, and that of its SendingTime (52).
    pub fn moment(&self) -> Moment
        ensures { result ≡ self.now.moment }
    {
        self.moment
    }

    /// Whether BODY has MsgSeqNum (34).
    pub fn is_numbered(&self) -> bool
        ensures { result ≡ spec.has_tag self.now.fields 34 }
    {
        has_tag(&self.fields, 34)
    }

    /// The message as this firm sends it, or none where its frame would be longer than 4,096
    /// bytes. The header, with this number in MsgSeqNum (34), is written but for the fields that
    /// BODY has. It fails for memory alone.
    pub fn message(
        &self,
        alloc: Global,
        date: &Date,
        firm: &Name,
        number: u64,
    ) -> Result<Option<Message>, Memory>
        ensures { IfOk result (λ message.
            message ≡ spec.said_message date.now firm.now number self.now) }
    {
        let message = self.framed(alloc, date, firm.as_bytes(), number)?;
        Ok(message)
    }

    /// The message with this value of SenderCompID (49).
    #[tactic(auto, using(crate::proofs::TagLemmas::part_is_value))]
    pub(crate) fn framed(
        &self,
        alloc: Global,
        date: &Date,
        firm: &[u8],
        number: u64,
    ) -> Result<Option<Message>, Memory>
        requires { IsValue firm.now }
        ensures { IfOk result (λ message.
            message ≡ spec.said_message date.now firm.now number self.now) }
    {
        let mut buffer = Buffer::new();
        let digits = buffer.format(number).as_bytes();
        let time = moment_bytes(date, self.moment);
        let typed = begun_frame(alloc, self.msg_type)?;
        let sender = with_header_field(typed, &self.fields, 49, firm)?;
        let target = with_header_field(sender, &self.fields, 56, b"VENUE")?;
        let numbered = with_header_field(target, &self.fields, 34, digits)?;
        let timed = with_header_field(numbered, &self.fields, 52, &time)?;
        let header = with_header_field(timed, &self.fields, 50, self.trader)?;
        let whole = with_all(header, &self.fields)?;
        let message = finished(whole)?;
        Ok(message)
    }
}

/// Whether a part may be a trader or a type: it is not empty and has neither a vertical bar nor
/// SOH.
pub(crate) fn is_plain_part(part: &[u8]) -> bool
    ensures { result ≡ spec.is_plain_part part.now }
{
    if part.is_empty() {
        return false;
    }
    are_plain(part)
}

/// Whether each byte is neither a vertical bar nor SOH.
fn are_plain(part: &[u8]) -> bool
    ensures { result ≡ list_all spec.is_plain_character part.now }
{
    part.iter().all(|c| is_plain_character(*c))
}

/// Neither a vertical bar nor SOH.
fn is_plain_character(c: u8) -> bool
    ensures { result ≡ spec.is_plain_character c }
{
    c != b'|' && c != 1
}
