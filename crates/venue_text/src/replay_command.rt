//! What `replay` prints.
ghost use Rattle.std.specs.Prelude.{◌≡◌, ◌≢◌, ◌++◌, map, slice_get, Err, IfOk, IfErr, OnOk};
ghost use Rattle.std.specs.List.{flat_map, zip};
ghost use Rattle.std.specs.Option.{option_copied};
ghost use Rattle.venue_rows.specs.Rows.{firm_names};
ghost use Rattle.venue_text.specs.AskedDays as asked;
ghost use Rattle.venue_text.specs.MessageLines as lines;
ghost use Rattle.venue_text.specs.ReplayText as spec;

use crate::day_arguments::{OpenDay, read_whole_day, replayed_once};
use crate::long_text::LongText;
use crate::message_lines::{Pushed, messages_text, push_messages};
use fix_fields::Memory;
use input_lines::ProgramFault;
use quote_messages::SentMessage;
use std::alloc::Global;
use step_replay::World;
use venue_rows::{Name, VenueConfig};

/// How many messages of a firm stand in one block of a text at most: some 20,000 bytes.
const BLOCK: usize = 256;

/// The messages of all firms of a venue, dealers and then investors in their order, or of FIRM, a
/// line each, by the bytes of an input: a configuration, a line `%%`, and the steps of a day. Or
/// the first fault of these: [`ProgramFault::Input`], [`ProgramFault::Parts`],
/// [`ProgramFault::Config`], [`ProgramFault::Firm`], or that of the first line at fault. Memory may
/// be refused at any point. The input, the steps and all that the venue keeps beside what it sent
/// are given back as soon as nothing needs them, so that a long day takes less memory.
pub fn replay_text(
    alloc: Global,
    only: Option<&[u8]>,
    with_frames: bool,
    input: Vec<u8>,
) -> Result<LongText, ProgramFault>
    ensures ok { IfOk result (λ text.
        spec.IsReplayed (option_copied only.entry) with_frames input.items text) }
    ensures err { IfErr result (λ fault. fault ≢ ProgramFault.Memory
        → asked.one_day (asked.firms_by (option_copied only.entry)) input.items ≡ Err fault) }
    ensures unwritten { IfErr result (λ fault. fault ≢ ProgramFault.Write) }
{
    let OpenDay { venue, only, steps } = read_whole_day(alloc, input, only)?;
    let world = replayed_once(alloc, &venue, steps)?;
    let text = long_days_text(alloc, with_frames, &venue, world, only)?;
    Ok(text)
}

/// The messages of the firms that are asked for, of a venue that goes: what it keeps beside its
/// messages is given back before they are written.
fn long_days_text(
    alloc: Global,
    with_frames: bool,
    venue: &VenueConfig,
    world: World,
    only: Option<u16>,
) -> Result<LongText, Memory>
    ensures { IfOk result (λ text. text
        ≡ spec.days_text with_frames only (spec.named_days venue.now world)) }
{
    let sent = world.into_sent(alloc)?;
    let text = sent_text(alloc, with_frames, venue, sent.as_slice(), only)?;
    Ok(text)
}

/// The messages of the firms that are asked for, by what each firm was sent.
fn sent_text(
    alloc: Global,
    with_frames: bool,
    venue: &VenueConfig,
    sent: &[Vec<SentMessage>],
    only: Option<u16>,
) -> Result<LongText, Memory>
    ensures { IfOk result (λ text. text ≡ spec.sent_text with_frames only
        (zip (firm_names venue.now) (map (λ list. list.items) sent.now))) }
{
    let mut text = LongText::new(alloc);
    let Some(firm) = only else {
        push_all_lists(alloc, &mut text, with_frames, venue, sent)?;
        return Ok(text);
    };
    push_list(alloc, &mut text, with_frames, venue, sent, firm)?;
    Ok(text)
}

/// The messages of all firms.
fn push_all_lists(
    alloc: Global,
    text: &mut LongText,
    with_frames: bool,
    venue: &VenueConfig,
    sent: &[Vec<SentMessage>],
) -> Result<(), Memory>
    ensures { OnOk result (text.new ≡ text.old ++ flat_map (spec.list_text with_frames)
        (zip (firm_names venue.now) (map (λ list. list.items) sent.now))) }
{
    let firms = (venue.dealers().len() + venue.investors().len()) as u16;
    for number in 0..firms {
        push_list(alloc, text, with_frames, venue, sent, number)?;
    }
    Ok(())
}

/// The messages of the firm with this number.
fn push_list(
    alloc: Global,
    text: &mut LongText,
    with_frames: bool,
    venue: &VenueConfig,
    sent: &[Vec<SentMessage>],
    firm: u16,
) -> Result<(), Memory>
    ensures { OnOk result (text.new ≡ text.old ++ flat_map (spec.list_text with_frames)
        (spec.one_at firm (zip (firm_names venue.now) (map (λ list. list.items) sent.now)))) }
{
    let Some(name) = firm_name(venue, firm) else {
        return Ok(());
    };
    let Some(messages) = sent.get(usize::from(firm)) else {
        return Ok(());
    };
    push_blocks(alloc, text, with_frames, name, messages.as_slice())?;
    Ok(())
}

/// Messages of a firm, so many in a block.
fn push_blocks(
    alloc: Global,
    text: &mut LongText,
    with_frames: bool,
    firm: &Name,
    messages: &[SentMessage],
) -> Result<(), Memory>
    ensures { OnOk result
        (text.new ≡ text.old ++ lines.messages_text with_frames firm.now messages.now) }
{
    let mut rest = messages;
    while !rest.is_empty() {
        let count = rest.len().min(BLOCK);
        let (front, behind) = rest.split_at(count);
        let block = messages_text(alloc, with_frames, firm, front)?;
        text.push(block)?;
        rest = behind;
    }
    Ok(())
}

/// The messages of the firms that are asked for.
pub(crate) fn days_text(
    alloc: Global,
    with_frames: bool,
    venue: &VenueConfig,
    world: &World,
    only: Option<u16>,
) -> Result<Vec<u8>, Memory>
    ensures { IfOk result (λ text. text.items
        ≡ spec.days_text with_frames only (spec.named_days venue.now world.now)) }
{
    let mut text = Vec::new(alloc);
    let Some(firm) = only else {
        push_firms(&mut text, with_frames, venue, world)?;
        return Ok(text);
    };
    push_firm(&mut text, with_frames, venue, world, firm)?;
    Ok(text)
}

/// The messages of all firms.
fn push_firms(text: &mut Vec<u8>, with_frames: bool, venue: &VenueConfig, world: &World) -> Pushed
    ensures { OnOk result (text.new.items ≡ text.old.items
        ++ flat_map (spec.firm_text with_frames) (spec.named_days venue.now world.now)) }
{
    let firms = (venue.dealers().len() + venue.investors().len()) as u16;
    for firm in 0..firms {
        push_firm(text, with_frames, venue, world, firm)?;
    }
    Ok(())
}

/// The messages of the firm with this number.
#[tactic(auto, using(crate::proofs::DayLemmas::messages_at, crate::proofs::DayLemmas::messages_of_none, crate::proofs::DayLemmas::messages_of_no_day))]
fn push_firm(
    text: &mut Vec<u8>,
    with_frames: bool,
    venue: &VenueConfig,
    world: &World,
    firm: u16,
) -> Result<(), Memory>
    ensures { OnOk result (text.new.items ≡ text.old.items ++ flat_map (spec.firm_text with_frames)
        (spec.one_at firm (spec.named_days venue.now world.now))) }
{
    let Some(name) = firm_name(venue, firm) else {
        return Ok(());
    };
    let Some(messages) = world.sent(firm) else {
        return Ok(());
    };
    push_messages(text, with_frames, name, messages)?;
    Ok(())
}

/// The name of the firm with this number.
pub(crate) fn firm_name(venue: &VenueConfig, firm: u16) -> Option<&Name>
    ensures { option_copied result ≡ slice_get (firm_names venue.now) firm }
{
    if let Some(row) = venue.dealer(firm) {
        return Some(&row.name);
    }
    let row = venue.investor(firm)?;
    Some(&row.name)
}
