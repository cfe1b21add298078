//! Messages, each with the line of what is noted beside it.
ghost use Rattle.std.specs.Prelude.{◌≡◌, ◌++◌, IfOk, OnOk};
ghost use Rattle.venue_text.specs.NotedText as spec;

use crate::message_lines::{Pushed, push_line};
use dealer_desk::DealerNote;
use fix_fields::{Date, Memory};
use investor_desk::InvestorNote;
use note_lines::{number_in, push_dealer_note, push_investor_note};
use quote_messages::SentMessage;
use std::alloc::Global;
use venue_rows::Name;

/// The text of messages that a dealer is sent, a line each, and behind each the line of what is
/// noted beside it, if anything is. It fails for memory alone.
pub fn dealer_noted_text(
    alloc: Global,
    with_frames: bool,
    date: &Date,
    dealer: &Name,
    notes: &[Option<DealerNote>],
    messages: &[SentMessage],
) -> Result<Vec<u8>, Memory>
    ensures { IfOk result (λ text. text.items
        ≡ spec.dealer_noted_text with_frames date.now dealer.now notes.now messages.now) }
{
    let mut text = Vec::new(alloc);
    push_dealer_messages(&mut text, with_frames, date, dealer, notes, messages)?;
    Ok(text)
}

/// The same behind a text.
fn push_dealer_messages(
    text: &mut Vec<u8>,
    with_frames: bool,
    date: &Date,
    dealer: &Name,
    notes: &[Option<DealerNote>],
    messages: &[SentMessage],
) -> Pushed
    ensures { OnOk result (text.new.items ≡ text.old.items
        ++ spec.dealer_noted_text with_frames date.now dealer.now notes.now messages.now) }
{
    for message in messages {
        push_line(text, with_frames, dealer, message)?;
        push_dealer_note(text, date, dealer, notes, number_in(&message.frame()))?;
    }
    Ok(())
}

/// The text of messages that an investor is sent, a line each, and behind each the line of what is
/// noted beside it, if anything is. It fails for memory alone.
pub fn investor_noted_text(
    alloc: Global,
    with_frames: bool,
    date: &Date,
    investor: &Name,
    notes: &[Option<InvestorNote>],
    messages: &[SentMessage],
) -> Result<Vec<u8>, Memory>
    ensures { IfOk result (λ text. text.items
        ≡ spec.investor_noted_text with_frames date.now investor.now notes.now messages.now) }
{
    let mut text = Vec::new(alloc);
    push_investor_messages(&mut text, with_frames, date, investor, notes, messages)?;
    Ok(text)
}

/// The same behind a text.
fn push_investor_messages(
    text: &mut Vec<u8>,
    with_frames: bool,
    date: &Date,
    investor: &Name,
    notes: &[Option<InvestorNote>],
    messages: &[SentMessage],
) -> Pushed
    ensures { OnOk result (text.new.items ≡ text.old.items
        ++ spec.investor_noted_text with_frames date.now investor.now notes.now messages.now) }
{
    for message in messages {
        push_line(text, with_frames, investor, message)?;
        push_investor_note(text, date, investor, notes, number_in(&message.frame()))?;
    }
    Ok(())
}
