//! Values that words of a call spell.
use case_lines::{CaseFault, Words, frame_of, piped_bytes_of};
use quote_messages::Message;
use recorded_days::Kind;
use std::alloc::Global;
use step_replay::Actor;

/// An actor: `CLOCK`, or the number of a firm.
pub(crate) fn actor_in(words: &mut Words<'_>) -> Result<Actor, CaseFault> {
    let word = words.word()?;
    if word == "CLOCK" {
        return Ok(Actor::Clock);
    }
    match word.parse::<u16>() {
        Ok(firm) => Ok(Actor::Firm(firm)),
        Err(_) => Err(CaseFault::Form),
    }
}

/// The frame of a body, as a message.
pub(crate) fn message_of(alloc: Global, body: &str) -> Result<Message, CaseFault> {
    let body = piped_bytes_of(alloc, body)?;
    let bytes = frame_of(alloc, body.as_slice())?;
    Ok(Message::new(bytes))
}

/// What an action does, by the name of its kind in small letters.
pub(crate) fn kind_in(words: &mut Words<'_>) -> Result<Kind, CaseFault> {
    match words.word()? {
        "in" => Ok(Kind::In),
        "expire" => Ok(Kind::Expire),
        "open" => Ok(Kind::Open),
        "show" => Ok(Kind::Show),
        "ready" => Ok(Kind::Ready),
        "post" => Ok(Kind::Post),
        "relay" => Ok(Kind::Relay),
        "unpost" => Ok(Kind::Unpost),
        "gone" => Ok(Kind::Gone),
        other => later_kind(other),
    }
}

/// The others.
fn later_kind(word: &str) -> Result<Kind, CaseFault> {
    match word {
        "decline" => Ok(Kind::Decline),
        "declined" => Ok(Kind::Declined),
        "hit" => Ok(Kind::Hit),
        "pass" => Ok(Kind::Pass),
        "answer" => Ok(Kind::Answer),
        "close" => Ok(Kind::Close),
        "tell" => Ok(Kind::Tell),
        "drop" => Ok(Kind::Drop),
        _ => Err(CaseFault::Form),
    }
}
