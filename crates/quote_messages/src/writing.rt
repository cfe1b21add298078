//! Writing the messages that a firm is sent.
ghost use Rattle.std.specs.Prelude.{◌≡◌, ◌≤◌, ◌++◌, length, IfOk, OnOk, Some};
ghost use Rattle.fix_fields.specs.Frame.{frame_of, left_of, IsValue};
ghost use Rattle.quote_messages.specs.Written.{written, written_fields, header_fields, body_fields};
ghost use Rattle.quote_messages.specs.Room.{room_for_fields};

use crate::dealer_writing::{
    put_cancel_report, put_closing_notice, put_decline_report, put_quote_report, put_request,
};
use crate::field_writing::put_reject;
use crate::investor_writing::{
    put_dealer_declined, put_hit_report, put_offered_quote, put_pass_report, put_quote_gone,
    put_refused_request, put_request_status, put_unknown_hit,
};
use crate::{Head, OutMessage, SentMessage};
use fix_fields::{Date, FrameWriter, Memory, moment_bytes};
use std::alloc::Global;

/// The message to a firm, the frame of its fields. It fails only for memory.
pub fn write_out(alloc: Global, head: &Head, message: &OutMessage) -> Result<SentMessage, Memory>
    ensures text { IfOk result (λ sent. sent ≡ written head.now message.now) }
    ensures frame { IfOk result (λ sent. frame_of sent
        ≡ Some (written_fields head.now message.now)) }
{
    let mut writer = header(alloc, message.msg_type(), head)?;
    put_body(&mut writer, &head.date, message)?;
    let bytes = writer.finish()?;
    Ok(SentMessage::new(bytes))
}

/// The fields behind SendingTime (52).
fn put_body(writer: &mut FrameWriter, date: &Date, message: &OutMessage) -> Result<(), Memory>
    requires { room_for_fields ≤ left_of writer.old }
    ensures { OnOk result (writer.new ≡ writer.old ++ body_fields date.now message.now) }
{
    match message {
        OutMessage::Reject(reject) => put_reject(writer, reject),
        OutMessage::Request(request) => put_request(writer, date, request),
        OutMessage::QuoteReport {
            request,
            id,
            refusal,
        } => put_quote_report(writer, request, id, *refusal),
        OutMessage::CancelReport { id, status } => put_cancel_report(writer, id, *status),
        OutMessage::DeclineReport { request, refusal } => {
            put_decline_report(writer, request, *refusal)
        }
        OutMessage::ClosingNotice(notice) => put_closing_notice(writer, notice),
        OutMessage::RequestAccepted { request } => put_request_status(writer, request, b"0"),
        OutMessage::RequestRefused {
            request,
            bond,
            reason,
        } => put_refused_request(writer, request, bond, *reason),
        OutMessage::OfferedQuote(quote) => put_offered_quote(writer, date, quote),
        OutMessage::QuoteGone { request, quote } => put_quote_gone(writer, request, *quote),
        OutMessage::DealerDeclined { request, dealer } => {
            put_dealer_declined(writer, request, dealer)
        }
        OutMessage::HitReport {
            id,
            request,
            quote,
            refusal,
        } => put_hit_report(writer, id, request, *quote, *refusal),
        OutMessage::HitUnknown { id, quote } => put_unknown_hit(writer, id, quote),
        OutMessage::PassReport {
            id,
            request,
            status,
        } => put_pass_report(writer, id, request, *status),
        OutMessage::RequestExpired { request } => put_request_status(writer, request, b"7"),
    }
}

/// A writer with MsgType (35), SenderCompID (49), TargetCompID (56), MsgSeqNum (34) and SendingTime
/// (52).
fn header(alloc: Global, msg_type: &[u8], head: &Head) -> Result<FrameWriter, Memory>
    requires short { length msg_type.now ≤ 4 }
    requires value { IsValue msg_type.now }
    ensures fields { IfOk result (λ writer. writer ≡ header_fields msg_type.now head.now) }
    ensures left { IfOk result (λ writer. room_for_fields ≤ left_of writer) }
{
    let mut writer = FrameWriter::new(alloc, msg_type)?;
    writer.text(49, b"VENUE")?;
    writer.text(56, head.firm.as_bytes())?;
    writer.number(34, head.number)?;
    writer.text(52, &moment_bytes(&head.date, head.moment))?;
    Ok(writer)
}
