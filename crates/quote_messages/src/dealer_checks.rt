//! The session checks of a dealer's message.
ghost use Rattle.std.specs.Prelude.{◌≡◌, ℕ, List, [], ◌∷◌, Ok};
ghost use Rattle.quote_messages.specs.ValueForms.{OneOf};
ghost use Rattle.quote_messages.specs.SessionLines.{required, text_at, first_fault, unless_fault};
ghost use Rattle.quote_messages.specs.SessionChecks.{dealer_session_verdict, dealer_tables};
ghost use Rattle.quote_messages.specs.SessionChecks.{types_of, verdict_by, quote_lines, quote_of};
ghost use Rattle.quote_messages.specs.SessionChecks.{cancel_lines, cancel_of, decline_lines};
ghost use Rattle.quote_messages.specs.SessionChecks.{decline_of};

use crate::header::read_header;
use crate::slots::FieldSlots;
use crate::tag_reading::{
    check_number, check_text, fault, optional_id, optional_moment, optional_number, optional_price,
    optional_quantity, required_id, required_number, required_value,
};
use crate::{
    CancelScope, DealerMessage, Decline, Quote, QuoteCancel, SessionFault, SessionRejectReason,
};
use fix_fields::{Date, Frame};
use venue_rows::{DealerRow, Name};

/// What a dealer's message says, or its first session fault: the header in the order SenderCompID
/// (49), TargetCompID (56), SendingTime (52), SenderSubID (50), MsgType (35), and then the fields
/// of its type.
pub fn read_dealer<'a>(
    date: &Date,
    row: &DealerRow,
    frame: &Frame<'a>,
) -> Result<DealerMessage<'a>, SessionFault>
    ensures { result ≡ dealer_session_verdict date.now row.now frame.now }
{
    let message = FieldSlots::of(frame);
    judge_dealer(date, row, &message)
}

/// The same of a message whose fields were gone over.
pub(crate) fn judge_dealer<'a>(
    date: &Date,
    row: &DealerRow,
    message: &FieldSlots<'a>,
) -> Result<DealerMessage<'a>, SessionFault>
    ensures { result ≡ dealer_session_verdict date.now row.now message.now }
{
    let trader = match read_header(date, &row.name, &row.traders, message) {
        Ok(trader) => trader,
        Err(fault) => return Err(fault),
    };
    read_typed(date, trader, message)
}

/// MsgType (35), one of the types that a dealer sends, and then the fields of that type.
fn read_typed<'a>(
    date: &Date,
    trader: Name,
    message: &FieldSlots<'a>,
) -> Result<DealerMessage<'a>, SessionFault>
    requires { trader ≡ text_at 50 message.now }
    ensures { result ≡ unless_fault
        (first_fault (required 35 (OneOf (types_of dealer_tables) SessionRejectReason.InvalidMsgType) ∷ []) date.now message.now)
        (verdict_by dealer_tables date.now message.now) }
{
    let msg_type = required_value(message, 35)?;
    if b"S".as_slice() == msg_type {
        let quote = read_quote(date, trader, message)?;
        return Ok(DealerMessage::Quote(quote));
    }
    if b"Z".as_slice() == msg_type {
        let cancel = read_cancel(trader, message)?;
        return Ok(DealerMessage::Cancel(cancel));
    }
    if b"AG".as_slice() == msg_type {
        let decline = read_decline(trader, message)?;
        return Ok(DealerMessage::Decline(decline));
    }
    Err(fault(35, SessionRejectReason::InvalidMsgType))
}

/// The fields of a Quote (35=S), or its first fault.
fn read_quote<'a>(
    date: &Date,
    trader: Name,
    message: &FieldSlots<'a>,
) -> Result<Quote<'a>, SessionFault>
    requires { trader ≡ text_at 50 message.now }
    ensures { result ≡ unless_fault (first_fault quote_lines date.now message.now) (Ok (quote_of date.now message.now)) }
{
    let id = required_id(message, 117)?;
    let request = required_id(message, 131)?;
    let bond = required_id(message, 48)?;
    check_text(message, 22, b"4", SessionRejectReason::ValueIncorrect)?;
    let bid = optional_price(message, 132)?;
    let offer = optional_price(message, 133)?;
    let bid_size = optional_quantity(message, 134)?;
    let offer_size = optional_quantity(message, 135)?;
    let quote_type = optional_number(message, 537)?;
    let valid_until = optional_moment(date, message, 62)?;
    Ok(Quote {
        trader,
        id,
        request,
        bond,
        bid,
        offer,
        bid_size,
        offer_size,
        quote_type,
        valid_until,
    })
}

/// The fields of a QuoteCancel (35=Z), or its first fault: QuoteID (117) has to stand where
/// QuoteCancelType (298) is 5, and nowhere else.
fn read_cancel<'a>(trader: Name, message: &FieldSlots<'a>) -> Result<QuoteCancel<'a>, SessionFault>
    requires { trader ≡ text_at 50 message.now }
    ensures { (date : List ℕ) → result ≡ unless_fault (first_fault cancel_lines date message.now) (Ok (cancel_of date message.now)) }
{
    let cancel_type = required_number(message, 298)?;
    if cancel_type == 5 {
        let id = required_id(message, 117)?;
        let scope = CancelScope::One(id);
        return Ok(QuoteCancel { trader, scope });
    }
    let id = optional_id(message, 117)?;
    if cancel_type == 4 {
        let scope = CancelScope::All(id);
        return Ok(QuoteCancel { trader, scope });
    }
    let scope = CancelScope::Other { cancel_type, id };
    Ok(QuoteCancel { trader, scope })
}

/// The fields of a QuoteRequestReject (35=AG), or its first fault.
fn read_decline<'a>(trader: Name, message: &FieldSlots<'a>) -> Result<Decline<'a>, SessionFault>
    requires { trader ≡ text_at 50 message.now }
    ensures { (date : List ℕ) → result ≡ unless_fault (first_fault decline_lines date message.now) (Ok (decline_of date message.now)) }
{
    let request = required_id(message, 131)?;
    check_number(message, 658, 10)?;
    Ok(Decline { trader, request })
}
