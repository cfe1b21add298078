//! What the desks of a day that goes on note beside its messages, as lines behind them.
ghost use Rattle.std.specs.Prelude.{◌≡◌, ◌++◌, List, length, IfOk, OnOk};
ghost use Rattle.step_replay.specs.LiveDays.{live_trail};
ghost use Rattle.step_replay.specs.LiveStanding.{IsAt};
ghost use Rattle.step_replay.specs.declared.steps.Step.{Step};
ghost use Rattle.venue_rows.specs.Rows.{firm_names};
ghost use Rattle.venue_text.specs.LiveNotes as spec;

use crate::live_lines::{LiveDay, push_one};
use crate::message_lines::{Pushed, push_line};
use crate::replay_command::firm_name;
use fix_fields::Memory;
use note_lines::{number_in, push_dealer_note, push_investor_note};
use quote_messages::SentMessage;
use std::alloc::Global;
use step_replay::SentTo;

/// Puts the lines of messages behind a text, each with the line of what its desk notes beside it.
pub(crate) fn push_noted(text: &mut Vec<u8>, day: &LiveDay, told: &[SentTo]) -> Pushed
    ensures { OnOk result ((steps : List Step) → IsAt day.now.config steps day.now.venue
        → text.new.items ≡ text.old.items ++ spec.noted_all day.now.form.frames day.now.config
        (live_trail day.now.config steps) told.now) }
{
    for sent in told {
        push_noted_one(text, day, sent)?;
    }
    Ok(())
}

/// The same of one message.
fn push_noted_one(text: &mut Vec<u8>, day: &LiveDay, sent: &SentTo) -> Pushed
    ensures { OnOk result ((steps : List Step) → IsAt day.now.config steps day.now.venue
        → text.new.items ≡ text.old.items ++ spec.noted_sent day.now.form.frames day.now.config
        (live_trail day.now.config steps) sent.now) }
{
    push_one(text, day.form.frames, &day.config, sent)?;
    push_note(text, day, sent.firm(), number_in(&sent.frame()))?;
    Ok(())
}

/// The line of what is noted beside the message of a firm with this number.
fn push_note(text: &mut Vec<u8>, day: &LiveDay, firm: u16, number: u64) -> Pushed
    ensures { OnOk result ((steps : List Step) → IsAt day.now.config steps day.now.venue
        → text.new.items ≡ text.old.items ++ spec.firm_note_line day.now.config
        (live_trail day.now.config steps) firm number) }
{
    let date = day.config.date();
    if let Some(row) = day.config.dealer(firm) {
        let Some(notes) = day.venue.dealer_notes(firm) else {
            return Err(Memory);
        };
        return push_dealer_note(text, date, &row.name, notes, number);
    }
    let Some(row) = day.config.investor(firm) else {
        return Ok(());
    };
    let Some(notes) = day.venue.investor_notes(firm) else {
        return Err(Memory);
    };
    push_investor_note(text, date, &row.name, notes, number)
}

/// The messages of the firms that are asked for, firm by firm, each with the line of what its desk
/// notes beside it.
pub(crate) fn noted_days_text(
    alloc: Global,
    with_frames: bool,
    day: &LiveDay,
    only: Option<u16>,
) -> Result<Vec<u8>, Memory>
    ensures { IfOk result (λ text. (steps : List Step) → IsAt day.now.config steps day.now.venue
        → text.items ≡ spec.noted_days_text with_frames day.now.config
        (live_trail day.now.config steps) only) }
{
    let mut text = Vec::new(alloc);
    let Some(firm) = only else {
        push_noted_firms(&mut text, with_frames, day)?;
        return Ok(text);
    };
    push_noted_firm(&mut text, with_frames, day, firm)?;
    Ok(text)
}

/// The messages of all firms.
fn push_noted_firms(text: &mut Vec<u8>, with_frames: bool, day: &LiveDay) -> Pushed
    ensures { OnOk result ((steps : List Step) → IsAt day.now.config steps day.now.venue
        → text.new.items ≡ text.old.items ++ spec.texts_before (spec.firm_noted_text with_frames
        day.now.config (live_trail day.now.config steps))
        (length (firm_names day.now.config))) }
{
    let firms = (day.config.dealers().len() + day.config.investors().len()) as u16;
    for firm in 0..firms {
        push_noted_firm(text, with_frames, day, firm)?;
    }
    Ok(())
}

/// The messages of the firm with this number.
fn push_noted_firm(text: &mut Vec<u8>, with_frames: bool, day: &LiveDay, firm: u16) -> Pushed
    ensures { OnOk result ((steps : List Step) → IsAt day.now.config steps day.now.venue
        → text.new.items ≡ text.old.items ++ spec.firm_noted_text with_frames day.now.config
        (live_trail day.now.config steps) firm) }
{
    let Some(messages) = day.venue.sent(firm) else {
        return Ok(());
    };
    push_noted_messages(text, with_frames, day, firm, messages)
}

/// These messages of a firm.
fn push_noted_messages(
    text: &mut Vec<u8>,
    with_frames: bool,
    day: &LiveDay,
    firm: u16,
    messages: &[SentMessage],
) -> Pushed
    ensures { OnOk result ((steps : List Step) → IsAt day.now.config steps day.now.venue
        → text.new.items ≡ text.old.items ++ spec.noted_messages with_frames day.now.config
        (live_trail day.now.config steps) firm messages.now) }
{
    for message in messages {
        push_noted_message(text, with_frames, day, firm, message)?;
    }
    Ok(())
}

/// One of them.
fn push_noted_message(
    text: &mut Vec<u8>,
    with_frames: bool,
    day: &LiveDay,
    firm: u16,
    message: &SentMessage,
) -> Pushed
    ensures { OnOk result ((steps : List Step) → IsAt day.now.config steps day.now.venue
        → text.new.items ≡ text.old.items ++ spec.noted_sent with_frames day.now.config
        (live_trail day.now.config steps) (firm, message.now)) }
{
    if let Some(name) = firm_name(&day.config, firm) {
        push_line(text, with_frames, name, message)?;
    }
    push_note(text, day, firm, number_in(&message.frame()))?;
    Ok(())
}
