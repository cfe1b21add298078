//! What `compare --investor` prints.
ghost use Rattle.std.specs.Prelude.{◌≡◌, ◌≢◌, ◌↔◌, slice_get, Err, IfOk, IfErr, IsTrue};
ghost use Rattle.investor_texts.specs.CompareCommand as spec;
ghost use Rattle.investor_texts.specs.DueCommand.{investor_by};
ghost use Rattle.venue_text.specs.AskedDays.{two_days};
ghost use Rattle.venue_text.specs.CompareText.{IsFirstDifference, sent_on};

use crate::asked_days::read_investors_day;
use crate::same_market::is_same_seen;
use fix_fields::Memory;
use input_lines::{MOST_INPUT, ProgramFault, two_days_parts};
use investor_dues::{DueDay, InvestorDue, is_same_due};
use std::alloc::Global;
use step_replay::World;
use venue_text::{AskedDay, message_difference, sent_in, three_lines};

/// Whether two days agree on an investor, in three lines: what it sees (`row equal` or `row
/// differs`), what was due to it and the messages that it was sent, as `compare_text` of
/// `venue_text` has them of a dealer. The input is four parts that lines `%%` divide: a
/// configuration and the steps of a day, twice. Or the first fault of these, as
/// [`investor_due_text`](crate::investor_due_text) has them, part by part. Memory may be refused at
/// any point.
pub fn investor_compare_text(
    alloc: Global,
    name: &[u8],
    input: &[u8],
) -> Result<Vec<u8>, ProgramFault>
    ensures ok { IfOk result (λ text. spec.IsCompared name.now input.now text.items) }
    ensures err { IfErr result (λ fault. fault ≢ ProgramFault.Memory
        → two_days (investor_by name.now) input.now ≡ Err fault) }
    ensures unwritten { IfErr result (λ fault. fault ≢ ProgramFault.Write) }
{
    if input.len() > MOST_INPUT {
        return Err(ProgramFault::Input);
    }
    let (first, second) = two_days_parts(input)?;
    let one = read_investors_day(alloc, first, name)?;
    let other = read_investors_day(alloc, second, name)?;
    let text = days_compared(alloc, &one, &other)?;
    Ok(text)
}

/// The three lines of two days.
fn days_compared(alloc: Global, one: &AskedDay, other: &AskedDay) -> Result<Vec<u8>, Memory>
    ensures { IfOk result (λ text. (first second : spec.Run)
        → spec.IsRunOf one.now.venue one.now.firm one.now.steps.items first
        → spec.IsRunOf other.now.venue other.now.firm other.now.steps.items second
        → spec.AreCompared first second text.items) }
{
    let first = DueDay::of_steps(alloc, &one.venue, one.steps.as_slice(), one.firm)?;
    let second = DueDay::of_steps(alloc, &other.venue, other.steps.as_slice(), other.firm)?;
    let seen = is_same_seen(&one.venue, one.firm, &other.venue, other.firm);
    let text = lines_of(alloc, seen, first, one.firm, second, other.firm)?;
    Ok(text)
}

/// The three lines, by whether the investor sees the same, and by its two days.
pub(crate) fn lines_of(
    alloc: Global,
    is_same_seen: bool,
    one: DueDay,
    investor: u16,
    other: DueDay,
    other_investor: u16,
) -> Result<Vec<u8>, Memory>
    ensures { IfOk result (λ text. (first second : spec.Run)
        → spec.IsRunDay investor one first → spec.IsRunDay other_investor other second
        → IsTrue is_same_seen ↔ (spec.seen_in first ≡ spec.seen_in second)
        → spec.AreCompared first second text.items) }
{
    let due = due_difference(one.dues.as_slice(), other.dues.as_slice());
    let messages = messages_differ(&one.world, investor, &other.world, other_investor);
    let text = three_lines(alloc, is_same_seen, due, messages)?;
    Ok(text)
}

/// The first position at which the messages that an investor was sent differ in two days.
fn messages_differ(one: &World, investor: u16, other: &World, other_investor: u16) -> Option<usize>
    ensures { IsFirstDifference (sent_on (slice_get one.now investor))
        (sent_on (slice_get other.now other_investor)) result }
{
    message_difference(sent_in(one, investor), sent_in(other, other_investor))
}

/// The first position, from 1, at which two lists of what is due differ.
fn due_difference(one: &[InvestorDue], other: &[InvestorDue]) -> Option<usize>
    ensures { IsFirstDifference one.now other.now result }
{
    let longest = one.len().max(other.len());
    for place in 0..longest {
        if !is_same_due_at(one, other, place) {
            return Some(place + 1);
        }
    }
    None
}

/// Whether two lists have the same at a place, or have both ended.
#[tactic(auto, using(venue_text::proofs::CompareLemmas::same_found))]
fn is_same_due_at(one: &[InvestorDue], other: &[InvestorDue], place: usize) -> bool
    ensures { IsTrue result ↔ (slice_get one.now place ≡ slice_get other.now place) }
{
    let Some(due) = one.get(place) else {
        return other.get(place).is_none();
    };
    let Some(there) = other.get(place) else {
        return false;
    };
    is_same_due(due, there)
}
