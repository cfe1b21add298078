//! Events at a dealer's desk that words of a call spell.
use super::values::message_of;
use crate::terms::settled_named;
use case_lines::{Call, CaseFault, Words, close_of};
use dealer_desk::DealerEvent;
use fix_fields::Moment;
use input_lines::{MOST_INPUT, read_due_text};
use market_terms::RoomRef;
use quote_messages::Ask;
use quote_word::Settled;
use std::alloc::Global;
use step_replay::Due;

/// Whether a call with this word is an event.
pub(crate) fn is_event(word: &str) -> bool {
    matches!(word, "own" | "shown" | "closed" | "drop")
}

/// The event, behind its word and the number of the dealer.
pub(crate) fn event_in(call: &mut Call<'_>) -> Result<DealerEvent, CaseFault> {
    match call.name {
        "own" => own_in(call.alloc, &mut call.words),
        "shown" => shown_in(call.alloc, &mut call.words),
        "closed" => closed_in(&mut call.words),
        _ => drop_in(&mut call.words),
    }
}

/// `TIME ANSWER BODY`.
fn own_in(alloc: Global, words: &mut Words<'_>) -> Result<DealerEvent, CaseFault> {
    let moment = words.moment()?;
    let settlement = settlement_in(words)?;
    let message = message_of(alloc, words.rest())?;
    Ok(DealerEvent::Received {
        moment,
        message,
        settlement,
    })
}

/// `INVESTOR N LINE`.
fn shown_in(alloc: Global, words: &mut Words<'_>) -> Result<DealerEvent, CaseFault> {
    let investor = words.firm()?;
    let n = words.short_number()?;
    let room = RoomRef { investor, n };
    let (ask, moment) = ask_in(alloc, words.rest())?;
    Ok(DealerEvent::Shown { room, ask, moment })
}

/// What is asked for, and the moment at which it is shown, as due text has it.
fn ask_in(alloc: Global, line: &str) -> Result<(Ask, Moment), CaseFault> {
    let input = format!(in alloc; "date 20250314\ndealer DLR1 1 1 T1\nshown {line}\n")?;
    if input.len() > MOST_INPUT {
        return Err(CaseFault::Condition);
    }
    let Ok(text) = read_due_text(alloc, input.as_bytes()) else {
        return Err(CaseFault::Form);
    };
    let Some(Due::Shown(ask, moment)) = text.dues.first() else {
        return Err(CaseFault::Form);
    };
    Ok((ask.copy(), *moment))
}

/// `N CODE TIME`.
fn closed_in(words: &mut Words<'_>) -> Result<DealerEvent, CaseFault> {
    let request = words.number()?;
    let close = close_of(words)?;
    let moment = words.moment()?;
    Ok(DealerEvent::Told {
        request,
        close,
        moment,
    })
}

/// `LAST TIME ANSWER`.
fn drop_in(words: &mut Words<'_>) -> Result<DealerEvent, CaseFault> {
    let last = words.short_number()?;
    let moment = words.moment()?;
    let settlement = settlement_in(words)?;
    Ok(DealerEvent::Drop {
        last,
        moment,
        settlement,
    })
}

/// The settlement of a word, or `-` where none was asked.
fn settlement_in(words: &mut Words<'_>) -> Result<Option<Settled>, CaseFault> {
    match words.word()? {
        "-" => Ok(None),
        word => Ok(Some(settled_named(word)?)),
    }
}
