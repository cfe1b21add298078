//! What is left to be done, as text, and what the desks have sent in a step.
use crate::events::push_until;
use crate::replies::{push_ask, push_firms, push_number, push_time, push_word, reply_name};
use bond_prices::Ticks;
use case_lines::{CaseFault, frame_of, push_bytes, push_line};
use fix_fields::Moment;
use market_terms::{Duty, ResponseRef, RoomRef};
use quote_messages::SentMessage;
use std::alloc::Global;

/// A line for each duty: what it is, its moment, its room, and what else it bears.
pub(crate) fn push_duties(answer: &mut String, duties: &[Duty]) -> Result<(), CaseFault> {
    for duty in duties {
        push_duty(answer, duty)?;
        push_line(answer, "")?;
    }
    Ok(())
}

/// What a duty is, its moment, its room, and what else it bears.
fn push_duty(answer: &mut String, duty: &Duty) -> Result<(), CaseFault> {
    if let Duty::Drop { last, moment } = duty {
        answer.push_str("drop")?;
        push_time(answer, *moment)?;
        return push_number(answer, u64::from(*last));
    }
    push_head(answer, duty)?;
    push_content(answer, duty)
}

/// What a duty is, its moment, and its room: the number of the investor, and that of its request.
fn push_head(answer: &mut String, duty: &Duty) -> Result<(), CaseFault> {
    let Some((room, moment)) = place_of(duty) else {
        return Err(CaseFault::Form);
    };
    answer.push_str(what_of(duty))?;
    push_time(answer, moment)?;
    write!(answer, " {} {}", room.investor, room.n)?;
    Ok(())
}

/// What a duty is.
fn what_of(duty: &Duty) -> &'static str {
    match duty {
        Duty::Open { .. } => "open",
        Duty::Show { .. } => "show",
        Duty::Ready { .. } => "ready",
        Duty::Post { .. } => "post",
        Duty::Relay { .. } => "relay",
        Duty::Unpost { .. } => "unpost",
        Duty::Gone { .. } => "gone",
        Duty::Decline { .. } => "decline",
        Duty::Declined { .. } => "declined",
        Duty::Hit { .. } => "hit",
        Duty::Pass { .. } => "pass",
        Duty::Answer { .. } => "answer",
        Duty::Close { .. } => "close",
        Duty::Tell { .. } => "tell",
        Duty::Drop { .. } => "drop",
    }
}

/// The room and the moment of a duty, where it has a room.
fn place_of(duty: &Duty) -> Option<(RoomRef, Moment)> {
    match duty {
        Duty::Open { room, moment, .. }
        | Duty::Show { room, moment, .. }
        | Duty::Ready { room, moment }
        | Duty::Post { room, moment, .. }
        | Duty::Relay { room, moment, .. }
        | Duty::Unpost { room, moment, .. }
        | Duty::Gone { room, moment, .. }
        | Duty::Decline { room, moment }
        | Duty::Declined { room, moment }
        | Duty::Hit { room, moment, .. }
        | Duty::Pass { room, moment, .. }
        | Duty::Answer { room, moment, .. }
        | Duty::Close { room, moment }
        | Duty::Tell { room, moment, .. } => Some((*room, *moment)),
        Duty::Drop { .. } => None,
    }
}

/// What else a duty of the opening of a request bears, or another one.
fn push_content(answer: &mut String, duty: &Duty) -> Result<(), CaseFault> {
    match duty {
        Duty::Open { ask, dealers, .. } => {
            push_ask(answer, ask)?;
            answer.push_str(" of")?;
            push_firms(answer, dealers.as_slice())
        }
        Duty::Show { dealer, ask, .. } => {
            push_number(answer, u64::from(*dealer))?;
            push_ask(answer, ask)
        }
        Duty::Tell { dealer, close, .. } => {
            push_number(answer, u64::from(*dealer))?;
            write!(answer, " 694={}", close.code())?;
            Ok(())
        }
        other => push_quoted(answer, other),
    }
}

/// What else a duty of a quote bears, or another one.
fn push_quoted(answer: &mut String, duty: &Duty) -> Result<(), CaseFault> {
    match duty {
        Duty::Post {
            quote,
            price,
            valid_until,
            ..
        } => {
            push_number(answer, u64::from(*quote))?;
            push_price(answer, *price, *valid_until)
        }
        Duty::Relay { offer, .. } => {
            push_word(answer, offer.dealer.as_str())?;
            push_number(answer, u64::from(offer.word))?;
            push_price(answer, offer.price, offer.valid_until)
        }
        Duty::Unpost { quote, .. } => push_number(answer, u64::from(*quote)),
        Duty::Gone { word, .. } => push_number(answer, u64::from(*word)),
        other => push_answered(answer, other),
    }
}

/// A price in 256ths, and the moment at which its validity ends, where there is one.
fn push_price(
    answer: &mut String,
    price: Ticks,
    valid_until: Option<Moment>,
) -> Result<(), CaseFault> {
    push_number(answer, u64::from(price.get()))?;
    push_until(answer, valid_until)
}

/// The response that a duty bears, and the word that it asks or what the room replied to it. The
/// others bear nothing more.
fn push_answered(answer: &mut String, duty: &Duty) -> Result<(), CaseFault> {
    match duty {
        Duty::Hit { response, word, .. } => {
            push_response(answer, response)?;
            push_number(answer, u64::from(*word))
        }
        Duty::Pass { response, .. } => push_response(answer, response),
        Duty::Answer {
            response,
            reply,
            ..
        } => {
            push_response(answer, response)?;
            push_word(answer, reply_name(*reply))
        }
        _ => Ok(()),
    }
}

/// A response: its QuoteRespID (693), and the number of the quote that it hits, or `pass`.
fn push_response(answer: &mut String, response: &ResponseRef) -> Result<(), CaseFault> {
    answer.push(' ')?;
    for byte in response.id.as_bytes() {
        answer.push(char::from(*byte))?;
    }
    match response.k {
        Some(quote) => push_number(answer, quote),
        None => push_word(answer, "pass"),
    }
}

/// A line for each message behind the first ones, its body: behind BodyLength (9) and before
/// CheckSum (10), which are as they have to be. A message whose frame is another is printed whole.
pub(crate) fn push_sent(
    alloc: Global,
    answer: &mut String,
    sent: &[SentMessage],
    before: usize,
) -> Result<(), CaseFault> {
    for message in sent.iter().skip(before) {
        push_message(alloc, answer, message)?;
        answer.push('\n')?;
    }
    Ok(())
}

/// The body of a message.
fn push_message(
    alloc: Global,
    answer: &mut String,
    message: &SentMessage,
) -> Result<(), CaseFault> {
    let body = body_of(alloc, message)?;
    let frame = frame_of(alloc, body.as_slice())?;
    if frame.as_slice() != message.as_bytes() {
        answer.push_str("another frame: ")?;
        return push_bytes(answer, message.as_bytes());
    }
    push_bytes(answer, body.as_slice())
}

/// The fields of a message, each with its separator.
fn body_of(alloc: Global, message: &SentMessage) -> Result<Vec<u8>, CaseFault> {
    let mut body = String::new(alloc);
    let mut bytes = Vec::new(alloc);
    for (tag, value) in message.frame().fields() {
        body.clear();
        write!(body, "{tag}=")?;
        bytes.extend_from_slice(body.as_bytes())?;
        bytes.extend_from_slice(value)?;
        bytes.push(1)?;
    }
    Ok(bytes)
}
