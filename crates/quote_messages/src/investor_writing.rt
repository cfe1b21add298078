//! Writing the messages that an investor is sent.
ghost use Rattle.std.specs.Prelude.{◌≡◌, ◌+◌, ◌≤◌, [], ◌∷◌, ◌++◌, codes, length, OnOk};
ghost use Rattle.fix_fields.specs.Frame.{left_of, IsValue};
ghost use Rattle.quote_messages.specs.Written as spec;
ghost use Rattle.quote_messages.specs.Written.{refused_request_fields, bond_fields, shown_terms};
ghost use Rattle.quote_messages.specs.Written.{valid_until_field, offered_quote_fields, party_fields};
ghost use Rattle.quote_messages.specs.Written.{hit_status, pass_status};
ghost use Rattle.quote_messages.specs.Room.{room_for_fields, room_behind_texts};

use crate::field_writing::{
    price_tag, price_value, put_bond, put_party, put_report_status, put_room_refusal, quote_name,
    size_tag,
};
use crate::{HitRefusal, Id, OfferedQuote, PassStatus, Quantity, RequestRejectReason, Side};
use bond_prices::Ticks;
use fix_fields::{Date, FrameWriter, Memory, Moment, moment_bytes};
use venue_rows::Name;

/// QuoteReqID (131) and QuoteStatus (297) of a report on a request.
pub(crate) fn put_request_status(
    writer: &mut FrameWriter,
    request: &Id,
    status: &[u8],
) -> Result<(), Memory>
    requires room { room_for_fields ≤ left_of writer.old }
    requires short { length status.now ≤ 2 }
    requires digits { IsValue status.now }
    ensures fields { OnOk result (writer.new ≡ writer.old ++ (131, request.now) ∷ (297, status.now)
        ∷ []) }
    ensures left { OnOk result (left_of writer.old ≤ left_of writer.new + 60) }
{
    writer.text(131, request.as_bytes())?;
    writer.text(297, status)?;
    Ok(())
}

/// The fields of a refused request.
pub(crate) fn put_refused_request(
    writer: &mut FrameWriter,
    request: &Id,
    bond: &Id,
    reason: RequestRejectReason,
) -> Result<(), Memory>
    requires { room_for_fields ≤ left_of writer.old }
    ensures { OnOk result (writer.new ≡ writer.old
        ++ refused_request_fields request.now bond.now reason) }
{
    writer.text(131, request.as_bytes())?;
    writer.number(658, reason.code())?;
    writer.text(146, b"1")?;
    writer.text(55, b"[N/A]")?;
    writer.text(48, bond.as_bytes())?;
    writer.text(22, b"4")?;
    Ok(())
}

/// The fields of a quote as its investor is shown it.
pub(crate) fn put_offered_quote(
    writer: &mut FrameWriter,
    date: &Date,
    quote: &OfferedQuote,
) -> Result<(), Memory>
    requires { room_for_fields ≤ left_of writer.old }
    ensures { OnOk result (writer.new ≡ writer.old ++ offered_quote_fields date.now quote.now) }
{
    writer.text(131, quote.request.as_bytes())?;
    writer.text(117, quote_name(quote.number).as_bytes())?;
    put_bond(writer, quote.bond)?;
    put_shown_terms(writer, quote.side, quote.price, quote.quantity)?;
    put_valid_until(writer, date, quote.valid_until)?;
    writer.text(537, b"1")?;
    put_party(writer, &quote.dealer, b"35")?;
    Ok(())
}

/// Side (54), the price on the asked side, and beside it the quantity.
fn put_shown_terms(
    writer: &mut FrameWriter,
    side: Side,
    price: Ticks,
    quantity: Quantity,
) -> Result<(), Memory>
    requires { room_behind_texts ≤ left_of writer.old }
    ensures fields { OnOk result (writer.new ≡ writer.old ++ shown_terms side price quantity) }
    ensures left { OnOk result (left_of writer.old ≤ left_of writer.new + 150) }
{
    let price = price_value(price);
    writer.number(54, side.code())?;
    writer.text(price_tag(side), price.as_bytes())?;
    writer.number(size_tag(side), quantity.get())?;
    Ok(())
}

/// ValidUntilTime (62), where it was given.
fn put_valid_until(
    writer: &mut FrameWriter,
    date: &Date,
    until: Option<Moment>,
) -> Result<(), Memory>
    requires { 3400 ≤ left_of writer.old }
    ensures fields { OnOk result (writer.new ≡ writer.old ++ valid_until_field date.now until) }
    ensures left { OnOk result (left_of writer.old ≤ left_of writer.new + 30) }
{
    let Some(until) = until else {
        return Ok(());
    };
    writer.text(62, &moment_bytes(date, until))?;
    Ok(())
}

/// The fields of the report that a quote is gone.
pub(crate) fn put_quote_gone(
    writer: &mut FrameWriter,
    request: &Id,
    quote: u64,
) -> Result<(), Memory>
    requires { room_for_fields ≤ left_of writer.old }
    ensures { OnOk result (writer.new ≡ writer.old ++ (131, request.now)
        ∷ (117, spec.quote_name quote) ∷ (297, codes "17") ∷ []) }
{
    writer.text(131, request.as_bytes())?;
    writer.text(117, quote_name(quote).as_bytes())?;
    writer.text(297, b"17")?;
    Ok(())
}

/// The fields of the report that a dealer declined.
pub(crate) fn put_dealer_declined(
    writer: &mut FrameWriter,
    request: &Id,
    dealer: &Name,
) -> Result<(), Memory>
    requires { room_for_fields ≤ left_of writer.old }
    ensures { OnOk result (writer.new ≡ writer.old
        ++ ((131, request.now) ∷ (297, codes "11") ∷ [] ++ party_fields dealer.now (codes "35"))) }
{
    put_request_status(writer, request, b"11")?;
    put_party(writer, dealer, b"35")?;
    Ok(())
}

/// The fields of a report on a hit of a quote that was shown.
pub(crate) fn put_hit_report(
    writer: &mut FrameWriter,
    id: &Id,
    request: &Id,
    quote: u64,
    refusal: Option<HitRefusal>,
) -> Result<(), Memory>
    requires { room_for_fields ≤ left_of writer.old }
    ensures { OnOk result (writer.new ≡ writer.old
        ++ ((693, id.now) ∷ (131, request.now) ∷ (117, spec.quote_name quote) ∷ []
        ++ hit_status refusal)) }
{
    writer.text(693, id.as_bytes())?;
    writer.text(131, request.as_bytes())?;
    writer.text(117, quote_name(quote).as_bytes())?;
    put_hit_status(writer, refusal)?;
    Ok(())
}

/// QuoteStatus (297) of a report on a hit.
fn put_hit_status(writer: &mut FrameWriter, refusal: Option<HitRefusal>) -> Result<(), Memory>
    requires { room_behind_texts ≤ left_of writer.old }
    ensures { OnOk result (writer.new ≡ writer.old ++ hit_status refusal) }
{
    match refusal {
        Some(refusal) => put_room_refusal(writer, refusal),
        None => put_report_status(writer, b"0", None),
    }
}

/// The fields of a report on a hit of no quote that was shown.
pub(crate) fn put_unknown_hit(writer: &mut FrameWriter, id: &Id, quote: &Id) -> Result<(), Memory>
    requires { room_for_fields ≤ left_of writer.old }
    ensures { OnOk result (writer.new ≡ writer.old ++ (693, id.now) ∷ (117, quote.now)
        ∷ (297, codes "9") ∷ []) }
{
    writer.text(693, id.as_bytes())?;
    writer.text(117, quote.as_bytes())?;
    writer.text(297, b"9")?;
    Ok(())
}

/// The fields of a report on a pass.
pub(crate) fn put_pass_report(
    writer: &mut FrameWriter,
    id: &Id,
    request: &Id,
    status: PassStatus,
) -> Result<(), Memory>
    requires { room_for_fields ≤ left_of writer.old }
    ensures { OnOk result (writer.new ≡ writer.old
        ++ ((693, id.now) ∷ (131, request.now) ∷ [] ++ pass_status status)) }
{
    writer.text(693, id.as_bytes())?;
    writer.text(131, request.as_bytes())?;
    put_pass_status(writer, status)?;
    Ok(())
}

/// QuoteStatus (297) of a report on a pass.
fn put_pass_status(writer: &mut FrameWriter, status: PassStatus) -> Result<(), Memory>
    requires { room_behind_texts ≤ left_of writer.old }
    ensures { OnOk result (writer.new ≡ writer.old ++ pass_status status) }
{
    match status {
        PassStatus::Passed => put_report_status(writer, b"11", None),
        PassStatus::NotOpen => put_room_refusal(writer, HitRefusal::NotOpen),
        PassStatus::Unknown => put_report_status(writer, b"9", None),
    }
}
