//! Writing the parts that several messages have.
ghost use Rattle.std.specs.Prelude.{◌≡◌, ◌+◌, ◌<◌, ◌≤◌, [], ◌∷◌, ◌++◌, length, decimal, OnOk};
ghost use Rattle.fix_fields.specs.Frame.{left_of, IsValue};
ghost use Rattle.bond_prices.specs.Price.{price_digits};
ghost use Rattle.quote_messages.specs.Written as spec;
ghost use Rattle.quote_messages.specs.Written.{reject_fields, ref_msg_type, bond_fields};
ghost use Rattle.quote_messages.specs.Written.{party_fields, report_status, room_refusal};
ghost use Rattle.quote_messages.specs.Room.{room_for_fields, room_behind_a_text, room_behind_texts, room_behind_all};

use crate::received::MsgType;
use crate::{HitRefusal, Id, QuoteRejectReason, Reject, Side};
use arrayvec::ArrayString;
use bond_prices::{Ticks, price_text};
use fix_fields::{FrameWriter, Memory};
use itoa::Buffer;
use venue_rows::{BondId, Name};

/// The fields of a Reject.
#[tactic(auto, using(crate::proofs::WritingLemmas::decimal_len_le))]
pub(crate) fn put_reject(writer: &mut FrameWriter, reject: &Reject) -> Result<(), Memory>
    requires { room_for_fields ≤ left_of writer.old }
    ensures { OnOk result (writer.new ≡ writer.old ++ reject_fields reject.now) }
{
    writer.text(45, reject.number.as_bytes())?;
    writer.number(371, u64::from(reject.fault.tag))?;
    put_ref_msg_type(writer, &reject.msg_type)?;
    writer.number(373, reject.fault.reason.code())?;
    Ok(())
}

/// RefMsgType (372), where there is one.
fn put_ref_msg_type(writer: &mut FrameWriter, msg_type: &Option<MsgType>) -> Result<(), Memory>
    requires { room_behind_a_text ≤ left_of writer.old }
    ensures fields { OnOk result (writer.new ≡ writer.old ++ ref_msg_type msg_type.now) }
    ensures left { OnOk result (left_of writer.old ≤ left_of writer.new + 20) }
{
    let Some(msg_type) = msg_type else {
        return Ok(());
    };
    writer.text(372, msg_type.as_bytes())?;
    Ok(())
}

/// Symbol (55), SecurityID (48) of a bond of the venue, and SecurityIDSource (22).
pub(crate) fn put_bond(writer: &mut FrameWriter, bond: BondId) -> Result<(), Memory>
    requires { room_behind_texts ≤ left_of writer.old }
    ensures fields { OnOk result (writer.new ≡ writer.old ++ bond_fields bond) }
    ensures left { OnOk result (left_of writer.old ≤ left_of writer.new + 40) }
{
    writer.text(55, b"[N/A]")?;
    writer.text(48, bond.as_bytes())?;
    writer.text(22, b"4")?;
    Ok(())
}

/// The party group (453) of one firm in a role (PartyRole 452).
pub(crate) fn put_party(writer: &mut FrameWriter, firm: &Name, role: &[u8]) -> Result<(), Memory>
    requires room { room_behind_all ≤ left_of writer.old }
    requires short { length role.now ≤ 2 }
    requires digits { IsValue role.now }
    ensures { OnOk result (writer.new ≡ writer.old ++ party_fields firm.now role.now) }
{
    writer.text(453, b"1")?;
    writer.text(448, firm.as_bytes())?;
    writer.text(447, b"D")?;
    writer.text(452, role)?;
    Ok(())
}

/// QuoteStatus (297) of a report: accepted with this status, or refused with a reason.
pub(crate) fn put_report_status(
    writer: &mut FrameWriter,
    accepted: &[u8],
    refusal: Option<QuoteRejectReason>,
) -> Result<(), Memory>
    requires room { room_behind_texts ≤ left_of writer.old }
    requires short { length accepted.now ≤ 2 }
    requires digits { IsValue accepted.now }
    ensures { OnOk result (writer.new ≡ writer.old ++ report_status accepted.now refusal) }
{
    let Some(reason) = refusal else {
        writer.text(297, accepted)?;
        return Ok(());
    };
    writer.text(297, b"5")?;
    writer.number(300, reason.code())?;
    Ok(())
}

/// QuoteStatus (297) of a refusal by the room, and its name in Text (58).
pub(crate) fn put_room_refusal(writer: &mut FrameWriter, refusal: HitRefusal) -> Result<(), Memory>
    requires { room_behind_texts ≤ left_of writer.old }
    ensures { OnOk result (writer.new ≡ writer.old ++ room_refusal refusal) }
{
    writer.text(297, b"5")?;
    writer.number(300, QuoteRejectReason::TooLate.code())?;
    writer.text(58, refusal.name())?;
    Ok(())
}

/// QuoteReqID (131) of a request shown to a dealer: `R` and its number.
pub(crate) fn request_name(number: u64) -> ArrayString<21>
    ensures name { result.bytes ≡ spec.request_name number }
    ensures field { IsValue result.bytes }
    ensures short { length result.bytes ≤ 21 }
{
    numbered("R", number)
}

/// QuoteRespID (693) of a closing notice: `N` and its number.
pub(crate) fn notice_name(number: u64) -> ArrayString<21>
    ensures name { result.bytes ≡ spec.notice_name number }
    ensures field { IsValue result.bytes }
    ensures short { length result.bytes ≤ 21 }
{
    numbered("N", number)
}

/// QuoteID (117) of a quote shown to an investor: `Q` and its number.
pub(crate) fn quote_name(number: u64) -> ArrayString<21>
    ensures name { result.bytes ≡ spec.quote_name number }
    ensures field { IsValue result.bytes }
    ensures short { length result.bytes ≤ 21 }
{
    numbered("Q", number)
}

/// A number behind a letter.
#[tactic(auto, using(crate::proofs::WritingLemmas::numbered_is_value))]
fn numbered(letter: &str, number: u64) -> ArrayString<21>
    requires short { length letter.now ≤ 1 }
    requires value { IsValue letter.now }
    ensures name { result.bytes ≡ letter.now ++ decimal number }
    ensures field { IsValue result.bytes }
    ensures short { length result.bytes ≤ 21 }
{
    let mut buffer = Buffer::new();
    let mut name = ArrayString::new();
    name.push_str(letter);
    name.push_str(buffer.format(number));
    name
}

/// The tag of a price on the side that is asked for: OfferPx (133) or BidPx (132).
pub(crate) fn price_tag(side: Side) -> u32
    ensures tag { result ≡ spec.price_tag side }
    ensures lawful { (131 < result) × (result < 134) }
{
    match side {
        Side::Buy => 133,
        Side::Sell => 132,
    }
}

/// The tag of the quantity beside it: OfferSize (135) or BidSize (134).
pub(crate) fn size_tag(side: Side) -> u32
    ensures tag { result ≡ spec.size_tag side }
    ensures lawful { (133 < result) × (result < 136) }
{
    match side {
        Side::Buy => 135,
        Side::Sell => 134,
    }
}

/// A price as the value of a field.
pub(crate) fn price_value(price: Ticks) -> ArrayString<12>
    ensures digits { result.bytes ≡ price_digits price }
    ensures field { IsValue result.bytes }
    ensures short { length result.bytes ≤ 12 }
{
    price_text(price)
}
