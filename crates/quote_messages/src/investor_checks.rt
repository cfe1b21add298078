//! The session checks of an investor's message.
ghost use Rattle.std.specs.Prelude.{◌≡◌, ◌==◌, ◌||◌, ℕ, List, [], ◌∷◌, codes, Ok, Some, IsTrue};
ghost use Rattle.quote_messages.specs.ValueForms.{OneOf, NumberIs};
ghost use Rattle.quote_messages.specs.TagReading.{Reads};
ghost use Rattle.quote_messages.specs.SessionLines.{required, text_at, number_at, first_fault};
ghost use Rattle.quote_messages.specs.SessionLines.{unless_fault};
ghost use Rattle.quote_messages.specs.SessionChecks.{investor_session_verdict, investor_tables};
ghost use Rattle.quote_messages.specs.SessionChecks.{types_of, verdict_by, request_lines};
ghost use Rattle.quote_messages.specs.SessionChecks.{request_of, response_lines, response_of};
ghost use Rattle.quote_messages.specs.SessionChecks.{side_of};

use crate::header::read_header;
use crate::party_group::read_parties;
use crate::slots::FieldSlots;
use crate::tag_reading::{
    check_number, check_text, fault, optional_id, required_id, required_moment, required_number,
    required_quantity, required_value,
};
use crate::{
    InvestorMessage, QuoteHit, QuoteRequest, RequestPass, SessionFault, SessionRejectReason, Side,
    read_number,
};
use fix_fields::{Date, Frame};
use venue_rows::{InvestorRow, Name};

/// What an investor's message says, or its first session fault: the header in the order
/// SenderCompID (49), TargetCompID (56), SendingTime (52), SenderSubID (50), MsgType (35), and then
/// the fields of its type.
pub fn read_investor<'a>(
    date: &Date,
    row: &InvestorRow,
    frame: &Frame<'a>,
) -> Result<InvestorMessage<'a>, SessionFault>
    ensures { result ≡ investor_session_verdict date.now row.now frame.now }
{
    let message = FieldSlots::of(frame);
    judge_investor(date, row, &message)
}

/// The same of a message whose fields were gone over.
pub(crate) fn judge_investor<'a>(
    date: &Date,
    row: &InvestorRow,
    message: &FieldSlots<'a>,
) -> Result<InvestorMessage<'a>, SessionFault>
    ensures { result ≡ investor_session_verdict date.now row.now message.now }
{
    let trader = match read_header(date, &row.name, &row.traders, message) {
        Ok(trader) => trader,
        Err(fault) => return Err(fault),
    };
    read_typed(date, trader, message)
}

/// MsgType (35), one of the types that an investor sends, and then the fields of that type.
fn read_typed<'a>(
    date: &Date,
    trader: Name,
    message: &FieldSlots<'a>,
) -> Result<InvestorMessage<'a>, SessionFault>
    requires { trader ≡ text_at 50 message.now }
    ensures { result ≡ unless_fault
        (first_fault (required 35 (OneOf (types_of investor_tables) SessionRejectReason.InvalidMsgType) ∷ []) date.now message.now)
        (verdict_by investor_tables date.now message.now) }
{
    let msg_type = required_value(message, 35)?;
    if b"R".as_slice() == msg_type {
        let request = read_request(date, trader, message)?;
        return Ok(InvestorMessage::Request(request));
    }
    if b"AJ".as_slice() == msg_type {
        let response = read_response(trader, message)?;
        return Ok(response);
    }
    Err(fault(35, SessionRejectReason::InvalidMsgType))
}

/// The fields of a QuoteRequest (35=R), or its first fault.
fn read_request<'a>(
    date: &Date,
    trader: Name,
    message: &FieldSlots<'a>,
) -> Result<QuoteRequest<'a>, SessionFault>
    requires { trader ≡ text_at 50 message.now }
    ensures { result ≡ unless_fault (first_fault request_lines date.now message.now) (Ok (request_of date.now message.now)) }
{
    let id = required_id(message, 131)?;
    check_number(message, 146, 1)?;
    let bond = required_id(message, 48)?;
    check_text(message, 22, b"4", SessionRejectReason::ValueIncorrect)?;
    let side = required_side(message)?;
    let quantity = required_quantity(message, 38)?;
    let deadline = required_moment(date, message, 126)?;
    let parties = required_number(message, 453)?;
    let dealers = read_parties(message, parties)?;
    Ok(QuoteRequest {
        trader,
        id,
        bond,
        side,
        quantity,
        deadline,
        dealers,
    })
}

/// Side (54), `1` or `2`.
fn required_side(message: &FieldSlots) -> Result<Side, SessionFault>
    ensures { (date : List ℕ) → Reads (required 54 (OneOf (codes "1" ∷ codes "2"
        ∷ []) SessionRejectReason.ValueIncorrect) date message.now) result
        (λ side. side ≡ side_of (text_at 54 message.now)) }
{
    let value = required_value(message, 54)?;
    if b"1".as_slice() == value {
        return Ok(Side::Buy);
    }
    if b"2".as_slice() == value {
        return Ok(Side::Sell);
    }
    Err(fault(54, SessionRejectReason::ValueIncorrect))
}

/// The fields of a QuoteResponse (35=AJ), or its first fault: QuoteID (117) has to stand where
/// QuoteRespType (694) is 1, a hit, and QuoteReqID (131) where it is 6, a pass.
fn read_response<'a>(
    trader: Name,
    message: &FieldSlots<'a>,
) -> Result<InvestorMessage<'a>, SessionFault>
    requires { trader ≡ text_at 50 message.now }
    ensures { (date : List ℕ) → result ≡ unless_fault (first_fault response_lines date message.now) (Ok (response_of date message.now)) }
{
    let id = required_id(message, 693)?;
    let response_type = required_response_type(message)?;
    if response_type == 1 {
        let quote = required_id(message, 117)?;
        let request = optional_id(message, 131)?;
        return Ok(InvestorMessage::Hit(QuoteHit {
            trader,
            id,
            quote,
            request,
        }));
    }
    let quote = optional_id(message, 117)?;
    let request = required_id(message, 131)?;
    Ok(InvestorMessage::Pass(RequestPass {
        trader,
        id,
        request,
        quote,
    }))
}

/// QuoteRespType (694): 1 hits a quote, 6 passes a request.
fn required_response_type(message: &FieldSlots) -> Result<u64, SessionFault>
    ensures { (date : List ℕ) → Reads (required 694 (NumberIs (1 ∷ 6
        ∷ []) SessionRejectReason.ValueIncorrect) date message.now) result
        (λ number. (number_at 694 message.now ≡ Some number)
        × IsTrue (number == 1 || number == 6)) }
{
    let value = required_value(message, 694)?;
    let Some(number) = read_number(value) else {
        return Err(fault(694, SessionRejectReason::IncorrectDataFormat));
    };
    if number != 1 && number != 6 {
        return Err(fault(694, SessionRejectReason::ValueIncorrect));
    }
    Ok(number)
}
