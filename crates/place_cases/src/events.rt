//! The events of a room, printed as the calls that they are of, and tried on another room.
use crate::replies::{push_ask, push_firms, push_number, push_time, push_word, settled_name};
use crate::room::{declined, hit, opened, posted, readied, unposted};
use bond_prices::Ticks;
use case_lines::{CaseFault, push_line};
use fix_fields::Moment;
use quote_word::Settled;
use request_room::{Room, RoomEvent, RoomRequest};
use std::alloc::Global;

/// A room on which the same was tried.
pub(crate) fn room_again(alloc: Global, room: &Room) -> Result<Room, CaseFault> {
    let mut again = Room::vacant(alloc);
    for event in room.events() {
        tries(&mut again, event)?;
    }
    Ok(again)
}

/// A quote that was posted: the dealer, the word, the price, and its validity.
type Posted = (u16, u32, Ticks, Option<Moment>);

/// The quote that an event posts, if it does.
fn posted_by(event: &RoomEvent) -> Option<Posted> {
    let RoomEvent::Post {
        dealer,
        word,
        price,
        valid_until,
    } = event
    else {
        return None;
    };
    Some((*dealer, *word, *price, *valid_until))
}

/// Tries on a room what was tried on another.
fn tries(room: &mut Room, event: &RoomEvent) -> Result<(), CaseFault> {
    if let Some((dealer, word, price, valid_until)) = posted_by(event) {
        posted(room, dealer, word, price, valid_until)?;
        return Ok(());
    }
    match event {
        RoomEvent::Open(kept) => {
            let request = kept.request();
            opened(room, request.ask.copy(), request.dealers.copy())
        }
        RoomEvent::Ready => readied(room),
        other => tries_rest(room, other),
    }
}

/// The same, of what comes behind the posts.
fn tries_rest(room: &mut Room, event: &RoomEvent) -> Result<(), CaseFault> {
    match event {
        RoomEvent::Unpost { dealer, word } => {
            unposted(room, *dealer, *word)?;
            Ok(())
        }
        RoomEvent::Decline { dealer } => {
            declined(room, *dealer)?;
            Ok(())
        }
        RoomEvent::Hit {
            word,
            moment,
            settlement,
        } => {
            hit(room, *word, *moment, *settlement)?;
            Ok(())
        }
        RoomEvent::Pass { moment } => {
            room.pass(*moment)?;
            Ok(())
        }
        RoomEvent::Expire { moment } => {
            room.expire(*moment)?;
            Ok(())
        }
        _ => Err(CaseFault::Form),
    }
}

/// A line for an event.
pub(crate) fn push_event(answer: &mut String, event: &RoomEvent) -> Result<(), CaseFault> {
    push_tried(answer, event)?;
    push_line(answer, "")
}

/// An event.
fn push_tried(answer: &mut String, event: &RoomEvent) -> Result<(), CaseFault> {
    if let Some((dealer, word, price, valid_until)) = posted_by(event) {
        push_of_dealer(answer, "post", dealer)?;
        push_number(answer, u64::from(word))?;
        push_number(answer, u64::from(price.get()))?;
        return push_until(answer, valid_until);
    }
    match event {
        RoomEvent::Open(kept) => push_open(answer, kept.request()),
        RoomEvent::Ready => push_named(answer, "ready"),
        other => push_rest(answer, other),
    }
}

/// What was tried.
fn push_named(answer: &mut String, tried: &str) -> Result<(), CaseFault> {
    answer.push_str(tried)?;
    Ok(())
}

/// The same, of what comes behind the posts.
fn push_rest(answer: &mut String, event: &RoomEvent) -> Result<(), CaseFault> {
    match event {
        RoomEvent::Unpost { dealer, word } => {
            push_of_dealer(answer, "unpost", *dealer)?;
            push_number(answer, u64::from(*word))
        }
        RoomEvent::Decline { dealer } => push_of_dealer(answer, "decline", *dealer),
        RoomEvent::Hit {
            word,
            moment,
            settlement: told,
        } => push_hit(answer, *word, *moment, *told),
        RoomEvent::Pass { moment } => push_at(answer, "pass", *moment),
        RoomEvent::Expire { moment } => push_at(answer, "expire", *moment),
        _ => Err(CaseFault::Form),
    }
}

/// What a room was opened for.
fn push_open(answer: &mut String, request: &RoomRequest) -> Result<(), CaseFault> {
    answer.push_str("open")?;
    push_request(answer, request)
}

/// A request, behind a space.
pub(crate) fn push_request(answer: &mut String, request: &RoomRequest) -> Result<(), CaseFault> {
    push_ask(answer, &request.ask)?;
    answer.push_str(" of")?;
    push_firms(answer, request.dealers.as_slice())
}

/// What was tried, and of which dealer.
fn push_of_dealer(answer: &mut String, tried: &str, dealer: u16) -> Result<(), CaseFault> {
    write!(answer, "{tried} {dealer}")?;
    Ok(())
}

/// What was tried, and when.
fn push_at(answer: &mut String, tried: &str, moment: Moment) -> Result<(), CaseFault> {
    answer.push_str(tried)?;
    push_time(answer, moment)
}

/// A validity, where one was given.
pub(crate) fn push_until(answer: &mut String, until: Option<Moment>) -> Result<(), CaseFault> {
    let Some(until) = until else {
        return Ok(());
    };
    push_time(answer, until)
}

/// A hit, with the settlement of its word, where it was asked.
fn push_hit(
    answer: &mut String,
    word: u32,
    moment: Moment,
    told: Option<Settled>,
) -> Result<(), CaseFault> {
    answer.push_str("hit")?;
    push_number(answer, u64::from(word))?;
    push_time(answer, moment)?;
    let Some(told) = told else {
        return Ok(());
    };
    push_word(answer, settled_name(told))
}
