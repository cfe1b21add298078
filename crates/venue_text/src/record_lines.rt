//! The messages of a recorded day, and the line behind those of one that was woven.
ghost use Rattle.std.specs.Prelude.{◌≡◌, ◌++◌, IfOk, OnOk};
ghost use Rattle.std.specs.List.{flat_map};
ghost use Rattle.venue_text.specs.RecordText as spec;
ghost use Rattle.venue_text.specs.ReplayText.{firm_text, named_days, one_at};

use crate::message_lines::push_messages;
use crate::replay_command::firm_name;
use arrayvec::ArrayString;
use fix_fields::Memory;
use itoa::Buffer;
use recorded_days::DayRecord;
use std::alloc::Global;
use venue_rows::VenueConfig;

/// The messages that all firms of a venue were sent on a recorded day, dealers and then investors in
/// their order, a line each, or as whole frames. It fails for memory alone.
pub fn record_text(
    alloc: Global,
    with_frames: bool,
    venue: &VenueConfig,
    day: &DayRecord,
) -> Result<Vec<u8>, Memory>
    ensures { IfOk result (λ text.
        text.items ≡ spec.record_text with_frames venue.now day.now) }
{
    let mut text = Vec::new(alloc);
    let firms = (venue.dealers().len() + venue.investors().len()) as u16;
    for firm in 0..firms {
        push_firm(&mut text, with_frames, venue, day, firm)?;
    }
    Ok(text)
}

/// The messages of the firm with this number.
#[tactic(auto, using(crate::proofs::DayLemmas::messages_at, crate::proofs::DayLemmas::messages_of_none, crate::proofs::DayLemmas::messages_of_no_day))]
fn push_firm(
    text: &mut Vec<u8>,
    with_frames: bool,
    venue: &VenueConfig,
    day: &DayRecord,
    firm: u16,
) -> Result<(), Memory>
    ensures { OnOk result (text.new.items ≡ text.old.items ++ flat_map (firm_text with_frames)
        (one_at firm (named_days venue.now (spec.days_in_record day.now)))) }
{
    let Some(name) = firm_name(venue, firm) else {
        return Ok(());
    };
    let Some(messages) = day.sent(firm) else {
        return Ok(());
    };
    push_messages(text, with_frames, name, messages)?;
    Ok(())
}

/// The line behind the messages of a day that was woven into so many steps: `woven N`, with its line
/// feed. It takes no memory.
pub fn woven_line(steps: usize) -> ArrayString<32>
    ensures { result.bytes ≡ spec.woven_line steps }
{
    let mut digits = Buffer::new();
    let mut line = ArrayString::new();
    line.push_str("woven ");
    line.push_str(digits.format(steps));
    line.push_str("\n");
    line
}
