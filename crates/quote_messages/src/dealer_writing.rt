//! Writing the messages that a dealer is sent.
ghost use Rattle.std.specs.Prelude.{◌≡◌, ◌+◌, ◌≤◌, [], ◌∷◌, ◌++◌, codes, OnOk};
ghost use Rattle.fix_fields.specs.Frame.{left_of};
ghost use Rattle.quote_messages.specs.Written as spec;
ghost use Rattle.quote_messages.specs.Written.{report_status, request_fields, received_id};
ghost use Rattle.quote_messages.specs.Written.{cancel_status, closing_fields, hit_quote, hit_id};
ghost use Rattle.quote_messages.specs.Written.{hit_price};
ghost use Rattle.quote_messages.specs.Room.{room_for_fields, room_behind_a_text, room_behind_texts};

use crate::field_writing::{
    notice_name, price_tag, price_value, put_bond, put_party, put_report_status, request_name,
};
use crate::{CancelStatus, Close, ClosingNotice, Id, QuoteRejectReason, Request};
use fix_fields::{Date, FrameWriter, Memory, moment_bytes};

/// The fields of a QuoteRequest to a dealer.
pub(crate) fn put_request(
    writer: &mut FrameWriter,
    date: &Date,
    request: &Request,
) -> Result<(), Memory>
    requires { room_for_fields ≤ left_of writer.old }
    ensures { OnOk result (writer.new ≡ writer.old ++ request_fields date.now request.now) }
{
    let ask = &request.ask;
    let name = request_name(request.number);
    writer.text(131, name.as_bytes())?;
    writer.text(146, b"1")?;
    put_bond(writer, ask.bond)?;
    writer.number(54, ask.side.code())?;
    writer.number(38, ask.quantity.get())?;
    writer.text(126, &moment_bytes(date, ask.deadline))?;
    put_party(writer, &ask.investor, b"13")?;
    Ok(())
}

/// The fields of a report on a quote.
pub(crate) fn put_quote_report(
    writer: &mut FrameWriter,
    request: &Id,
    id: &Id,
    refusal: Option<QuoteRejectReason>,
) -> Result<(), Memory>
    requires { room_for_fields ≤ left_of writer.old }
    ensures { OnOk result (writer.new ≡ writer.old
        ++ ((131, request.now) ∷ (117, id.now) ∷ [] ++ report_status (codes "0") refusal)) }
{
    writer.text(131, request.as_bytes())?;
    writer.text(117, id.as_bytes())?;
    put_report_status(writer, b"0", refusal)?;
    Ok(())
}

/// The fields of a report on a cancel.
pub(crate) fn put_cancel_report(
    writer: &mut FrameWriter,
    id: &Option<Id>,
    status: CancelStatus,
) -> Result<(), Memory>
    requires { room_for_fields ≤ left_of writer.old }
    ensures { OnOk result (writer.new ≡ writer.old
        ++ (received_id id.now ++ cancel_status status)) }
{
    put_received_id(writer, id)?;
    put_cancel_status(writer, status)?;
    Ok(())
}

/// QuoteID (117) as received, where it stood.
fn put_received_id(writer: &mut FrameWriter, id: &Option<Id>) -> Result<(), Memory>
    requires { room_for_fields ≤ left_of writer.old }
    ensures fields { OnOk result (writer.new ≡ writer.old ++ received_id id.now) }
    ensures left { OnOk result (left_of writer.old ≤ left_of writer.new + 50) }
{
    let Some(id) = id else {
        return Ok(());
    };
    writer.text(117, id.as_bytes())?;
    Ok(())
}

/// QuoteStatus (297) of a report on a cancel.
fn put_cancel_status(writer: &mut FrameWriter, status: CancelStatus) -> Result<(), Memory>
    requires { room_behind_a_text ≤ left_of writer.old }
    ensures { OnOk result (writer.new ≡ writer.old ++ cancel_status status) }
{
    match status {
        CancelStatus::Withdrawn => put_report_status(writer, b"17", None),
        CancelStatus::Unknown => put_report_status(writer, b"9", None),
        CancelStatus::Refused(reason) => put_report_status(writer, b"", Some(reason)),
    }
}

/// The fields of a report on a decline.
pub(crate) fn put_decline_report(
    writer: &mut FrameWriter,
    request: &Id,
    refusal: Option<QuoteRejectReason>,
) -> Result<(), Memory>
    requires { room_for_fields ≤ left_of writer.old }
    ensures { OnOk result (writer.new ≡ writer.old
        ++ ((131, request.now) ∷ [] ++ report_status (codes "11") refusal)) }
{
    writer.text(131, request.as_bytes())?;
    put_report_status(writer, b"11", refusal)?;
    Ok(())
}

/// The fields of a closing notice.
pub(crate) fn put_closing_notice(
    writer: &mut FrameWriter,
    notice: &ClosingNotice,
) -> Result<(), Memory>
    requires { room_for_fields ≤ left_of writer.old }
    ensures { OnOk result (writer.new ≡ writer.old ++ closing_fields notice.now) }
{
    let ask = &notice.request.ask;
    writer.text(693, notice_name(notice.number).as_bytes())?;
    writer.text(131, request_name(notice.request.number).as_bytes())?;
    put_hit_id(writer, notice)?;
    writer.number(694, notice.close.code())?;
    put_bond(writer, ask.bond)?;
    writer.number(54, ask.side.code())?;
    writer.number(38, ask.quantity.get())?;
    put_hit_price(writer, notice)?;
    Ok(())
}

/// QuoteID (117) of the quote that was hit, where there is one.
fn put_hit_id(writer: &mut FrameWriter, notice: &ClosingNotice) -> Result<(), Memory>
    requires { room_behind_a_text ≤ left_of writer.old }
    ensures fields { OnOk result (writer.new ≡ writer.old
        ++ hit_id (hit_quote notice.now.close notice.now.quote)) }
    ensures left { OnOk result (left_of writer.old ≤ left_of writer.new + 50) }
{
    if !is_hit(notice.close) {
        return Ok(());
    }
    let Some(quote) = &notice.quote else {
        return Ok(());
    };
    writer.text(117, quote.id.as_bytes())?;
    Ok(())
}

/// The price of the quote that was hit, where there is one: OfferPx (133) or BidPx (132).
fn put_hit_price(writer: &mut FrameWriter, notice: &ClosingNotice) -> Result<(), Memory>
    requires { room_behind_texts ≤ left_of writer.old }
    ensures { OnOk result (writer.new ≡ writer.old
        ++ hit_price notice.now.request.ask.side (hit_quote notice.now.close notice.now.quote)) }
{
    if !is_hit(notice.close) {
        return Ok(());
    }
    let Some(quote) = &notice.quote else {
        return Ok(());
    };
    let price = price_value(quote.price);
    writer.text(price_tag(notice.request.ask.side), price.as_bytes())?;
    Ok(())
}

/// Whether a request ended by a hit of this dealer's quote.
fn is_hit(close: Close) -> bool
    ensures { result ≡ spec.is_hit close }
{
    match close {
        Close::Hit => true,
        Close::Expired => false,
        Close::Cover => false,
        Close::DoneAway => false,
        Close::Pass => false,
    }
}
