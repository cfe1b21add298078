//! The longest message of each kind that a firm may be sent.

use crate::parts::ask_with_grid;
use case_lines::{
    Call, CaseFault, Words, bond_of, day, name_of, price_of, push_bytes_line, quantity_of, side_of,
};
use fix_fields::{Memory, Moment};
use market_terms::IdBuf;
use quote_messages::{
    CancelStatus, Close, ClosingNotice, Head, HitRefusal, Id, MsgType, OfferedQuote, OutMessage,
    PassStatus, QuoteRejectReason, QuotedPrice, Reject, Request, RequestRejectReason, SentMessage,
    SeqNum, SessionFault, SessionRejectReason, write_out,
};
use std::alloc::Global;

/// The bytes of a message to this firm, with the greatest number.
pub(crate) fn push_message(
    call: &mut Call<'_>,
    firm: &str,
    message: &OutMessage,
) -> Result<(), CaseFault> {
    let head = longest_head(firm)?;
    let sent = written(call.alloc, &head, message)?;
    push_bytes_line(&mut call.answer, sent.as_bytes())
}

/// The message to a firm.
fn written(alloc: Global, head: &Head, message: &OutMessage) -> Result<SentMessage, Memory> {
    write_out(alloc, head, message)
}

/// The header with the greatest number, of the last moment.
fn longest_head(firm: &str) -> Result<Head, CaseFault> {
    let date = day().ok_or(CaseFault::Form)?;
    let firm = name_of(&mut Words::of(firm))?;
    let moment = last_moment()?;
    Ok(Head {
        date,
        firm,
        number: u64::MAX,
        moment,
    })
}

/// The last moment of a day.
fn last_moment() -> Result<Moment, CaseFault> {
    Words::of("23:59:59.999").moment()
}

/// The longest identifier.
fn longest_id() -> Result<Id<'static>, CaseFault> {
    Id::new(b"0123456789012345678901234567890123456789").ok_or(CaseFault::Form)
}

/// The longest request that a dealer may be shown.
fn longest_request() -> Result<Request, CaseFault> {
    let mut words = Words::of("INVEST12 BONDA0000001 2 1000000000000 23:59:59.999 256");
    let ask = ask_with_grid(&mut words)?;
    Ok(Request {
        number: u64::MAX,
        ask,
    })
}

/// The longest message to a dealer with this name.
pub(crate) fn message_to_dealer(name: &str) -> Result<OutMessage<'static>, CaseFault> {
    match name {
        "reject" => longest_reject(),
        "reject_without_type" => reject(b"000000100", SessionRejectReason::TagMoreThanOnce, None),
        "request" => {
            let request = longest_request()?;
            Ok(OutMessage::Request(request))
        }
        "notice" => longest_notice(),
        _ => report_to_dealer(name),
    }
}

/// The longest Reject (35=3).
fn longest_reject() -> Result<OutMessage<'static>, CaseFault> {
    let msg_type = MsgType::new(b"zZ9a").ok_or(CaseFault::Form)?;
    let reason = SessionRejectReason::IncorrectNumInGroup;
    reject(b"999999999", reason, Some(msg_type))
}

/// A Reject (35=3) with the greatest tag.
fn reject(
    number: &'static [u8],
    reason: SessionRejectReason,
    msg_type: Option<MsgType<'static>>,
) -> Result<OutMessage<'static>, CaseFault> {
    let number = SeqNum::new(number).ok_or(CaseFault::Form)?;
    let tag = 999_999_999;
    Ok(OutMessage::Reject(Reject {
        number,
        fault: SessionFault { tag, reason },
        msg_type,
    }))
}

/// The longest closing notice.
fn longest_notice() -> Result<OutMessage<'static>, CaseFault> {
    let request = longest_request()?;
    let id = longest_id()?;
    let price = price_of(&mut Words::of("255999"))?;
    let quote = QuotedPrice {
        id: IdBuf::of(&id),
        price,
    };
    let notice = ClosingNotice {
        number: u64::MAX,
        request,
        close: Close::Hit,
        quote: Some(quote),
    };
    Ok(OutMessage::ClosingNotice(notice))
}

/// The longest report (35=AI) to a dealer with this name.
fn report_to_dealer(name: &str) -> Result<OutMessage<'static>, CaseFault> {
    let request = longest_id()?;
    let id = longest_id()?;
    match name {
        "quote_accepted" => Ok(OutMessage::QuoteReport {
            request,
            id,
            refusal: None,
        }),
        "quote_refused" => Ok(OutMessage::QuoteReport {
            request,
            id,
            refusal: Some(QuoteRejectReason::Other),
        }),
        "cancel_refused" => Ok(OutMessage::CancelReport {
            id: Some(id),
            status: CancelStatus::Refused(QuoteRejectReason::Other),
        }),
        "decline_refused" => Ok(OutMessage::DeclineReport {
            request,
            refusal: Some(QuoteRejectReason::Other),
        }),
        _ => Err(CaseFault::Form),
    }
}

/// The longest message to an investor with this name.
pub(crate) fn message_to_investor(name: &str) -> Result<OutMessage<'static>, CaseFault> {
    let request = longest_id()?;
    let quote = u64::MAX;
    match name {
        "accepted" => Ok(OutMessage::RequestAccepted { request }),
        "refused" => {
            let bond = longest_id()?;
            let reason = RequestRejectReason::Other;
            Ok(OutMessage::RequestRefused {
                request,
                bond,
                reason,
            })
        }
        "expired" => Ok(OutMessage::RequestExpired { request }),
        "quote" => longest_quote(),
        "gone" => Ok(OutMessage::QuoteGone { request, quote }),
        "declined" => {
            let dealer = name_of(&mut Words::of("DEALER12"))?;
            Ok(OutMessage::DealerDeclined { request, dealer })
        }
        _ => answer_to_investor(name),
    }
}

/// The longest Quote (35=S).
fn longest_quote() -> Result<OutMessage<'static>, CaseFault> {
    let request = longest_id()?;
    let mut words = Words::of("BONDA0000001 2 255999 1000000000000 DEALER12");
    let bond = bond_of(&mut words)?;
    let side = side_of(&mut words)?;
    let price = price_of(&mut words)?;
    let quantity = quantity_of(&mut words)?;
    let dealer = name_of(&mut words)?;
    let valid_until = Some(last_moment()?);
    Ok(OutMessage::OfferedQuote(OfferedQuote {
        request,
        number: u64::MAX,
        bond,
        side,
        price,
        quantity,
        valid_until,
        dealer,
    }))
}

/// The longest answer to a hit or a pass with this name.
fn answer_to_investor(name: &str) -> Result<OutMessage<'static>, CaseFault> {
    let id = longest_id()?;
    let request = longest_id()?;
    match name {
        "hit_refused" => Ok(OutMessage::HitReport {
            id,
            request,
            quote: u64::MAX,
            refusal: Some(HitRefusal::Withdrawn),
        }),
        "hit_unknown" => Ok(OutMessage::HitUnknown { id, quote: request }),
        "pass_refused" => Ok(OutMessage::PassReport {
            id,
            request,
            status: PassStatus::NotOpen,
        }),
        _ => Err(CaseFault::Form),
    }
}
