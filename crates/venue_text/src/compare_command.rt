//! What `compare` prints.
ghost use Rattle.std.specs.Prelude.{◌≡◌, ◌≢◌, ◌↔◌, ◌++◌, slice_get, None, Err, IfOk, IfErr};
ghost use Rattle.std.specs.Prelude.{IsSome, IsTrue, OnOk};
ghost use Rattle.step_replay.specs.StepFaults.{first_fault};
ghost use Rattle.venue_rows.specs.Rows.{dealer_numbered};
ghost use Rattle.venue_text.specs.AskedDays as asked;
ghost use Rattle.venue_text.specs.CompareCuts as cuts;
ghost use Rattle.venue_text.specs.CompareText as spec;

use crate::day_arguments::{AskedDay, due_on, read_dealers_day, replayed};
use crate::same_dues::is_same_due;
use fix_fields::Memory;
use input_lines::{MOST_INPUT, ProgramFault, two_days_parts};
use itoa::Buffer;
use quote_messages::SentMessage;
use std::alloc::Global;
use step_replay::{Due, World};
use venue_rows::VenueConfig;

/// Whether two venues agree on a dealer, in three lines: its row and the date (`row equal` or `row
/// differs`), what was due to it (`due equal` or `due differs at K`) and the messages that it was
/// sent (`messages equal` or `messages differ at K`), K the first position, from 1, at which one
/// has something else or has ended. The input is four parts that lines `%%` divide: a configuration
/// and the steps of a day, twice. Or the first fault of these, as
/// [`due_command_text`](crate::due_command_text) has them, part by part. Memory may be refused at
/// any point.
pub fn compare_text(alloc: Global, dealer: &[u8], input: &[u8]) -> Result<Vec<u8>, ProgramFault>
    ensures ok { IfOk result (λ text. spec.IsCompared dealer.now input.now text.items) }
    ensures err { IfErr result (λ fault. fault ≢ ProgramFault.Memory
        → asked.two_days (asked.dealer_by dealer.now) input.now ≡ Err fault) }
    ensures unwritten { IfErr result (λ fault. fault ≢ ProgramFault.Write) }
{
    if input.len() > MOST_INPUT {
        return Err(ProgramFault::Input);
    }
    let (first, second) = two_days_parts(input)?;
    let one = read_dealers_day(alloc, first, dealer)?;
    let other = read_dealers_day(alloc, second, dealer)?;
    let due = dues_differ(alloc, &one, &other)?;
    let messages = messages_differ(alloc, &one, &other)?;
    let row = has_same_row(&one.venue, one.firm, &other.venue, other.firm);
    let text = three_lines(alloc, row, due, messages)?;
    Ok(text)
}

/// Whether the date and a dealer's row are the same in two venues.
pub(crate) fn has_same_row(
    one: &VenueConfig,
    dealer: u16,
    other: &VenueConfig,
    other_dealer: u16,
) -> bool
    ensures { IsTrue result ↔ spec.HaveSameRow (cuts.row_of one.now dealer)
        (cuts.row_of other.now other_dealer) }
{
    if one.date().digits().as_slice() != other.date().digits().as_slice() {
        return false;
    }
    let Some(row) = one.dealer(dealer) else {
        return other.dealer(other_dealer).is_none();
    };
    let Some(there) = other.dealer(other_dealer) else {
        return false;
    };
    row.is_same(there)
}

/// The first position at which what was due to the dealer differs in two runs.
fn dues_differ(
    alloc: Global,
    one: &AskedDay,
    other: &AskedDay,
) -> Result<Option<usize>, ProgramFault>
    requires one_known { first_fault one.now.venue one.now.steps.items ≡ None }
    requires other_known { first_fault other.now.venue other.now.steps.items ≡ None }
    requires one_dealer { IsSome (dealer_numbered one.now.venue one.now.firm) }
    requires other_dealer { IsSome (dealer_numbered other.now.venue other.now.firm) }
    ensures ok { IfOk result (λ position. spec.IsFirstDifference
        (spec.due_in one.now.venue one.now.steps.items one.now.firm)
        (spec.due_in other.now.venue other.now.steps.items other.now.firm) position) }
    ensures err { IfErr result (λ fault. fault ≡ ProgramFault.Memory) }
{
    let first = due_on(alloc, &one.venue, one.steps.as_slice(), one.firm)?;
    let second = due_on(alloc, &other.venue, other.steps.as_slice(), other.firm)?;
    Ok(due_difference(first.as_slice(), second.as_slice()))
}

/// The first position at which the messages that the dealer was sent differ in two runs.
fn messages_differ(
    alloc: Global,
    one: &AskedDay,
    other: &AskedDay,
) -> Result<Option<usize>, ProgramFault>
    requires one_known { first_fault one.now.venue one.now.steps.items ≡ None }
    requires other_known { first_fault other.now.venue other.now.steps.items ≡ None }
    ensures ok { IfOk result (λ position. spec.IsFirstDifference
        (spec.sent_in one.now.venue one.now.steps.items one.now.firm)
        (spec.sent_in other.now.venue other.now.steps.items other.now.firm) position) }
    ensures err { IfErr result (λ fault. fault ≡ ProgramFault.Memory) }
{
    let first = replayed(alloc, &one.venue, one.steps.as_slice())?;
    let second = replayed(alloc, &other.venue, other.steps.as_slice())?;
    Ok(message_difference(sent_in(&first, one.firm), sent_in(&second, other.firm)))
}

/// What a firm was sent: nothing where no firm has this number.
pub fn sent_in(world: &World, firm: u16) -> &[SentMessage]
    ensures { result.now ≡ spec.sent_on (slice_get world.now firm) }
{
    let Some(messages) = world.sent(firm) else {
        return &[];
    };
    messages
}

/// The first position, from 1, at which two lists of what is due differ.
pub(crate) fn due_difference(one: &[Due], other: &[Due]) -> Option<usize>
    ensures { spec.IsFirstDifference one.now other.now result }
{
    let longest = one.len().max(other.len());
    for place in 0..longest {
        if !is_same_due_at(one, other, place) {
            return Some(place + 1);
        }
    }
    None
}

/// Whether two lists have the same at a place, or have both ended.
#[tactic(auto, using(crate::proofs::CompareLemmas::same_found))]
fn is_same_due_at(one: &[Due], other: &[Due], place: usize) -> bool
    ensures { IsTrue result ↔ (slice_get one.now place ≡ slice_get other.now place) }
{
    let Some(due) = one.get(place) else {
        return other.get(place).is_none();
    };
    let Some(there) = other.get(place) else {
        return false;
    };
    is_same_due(due, there)
}

/// The first position, from 1, at which two lists of messages differ.
pub fn message_difference(one: &[SentMessage], other: &[SentMessage]) -> Option<usize>
    ensures { spec.IsFirstDifference one.now other.now result }
{
    let longest = one.len().max(other.len());
    for place in 0..longest {
        if !is_same_message_at(one, other, place) {
            return Some(place + 1);
        }
    }
    None
}

/// Whether two lists have the same at a place, or have both ended.
#[tactic(auto, using(crate::proofs::CompareLemmas::same_found))]
fn is_same_message_at(one: &[SentMessage], other: &[SentMessage], place: usize) -> bool
    ensures { IsTrue result ↔ (slice_get one.now place ≡ slice_get other.now place) }
{
    let Some(message) = one.get(place) else {
        return other.get(place).is_none();
    };
    let Some(there) = other.get(place) else {
        return false;
    };
    is_same_message(message, there)
}

/// Whether two messages have the same bytes.
fn is_same_message(one: &SentMessage, other: &SentMessage) -> bool
    ensures { IsTrue result ↔ (one.now ≡ other.now) }
{
    one.as_bytes() == other.as_bytes()
}

/// The three lines.
pub fn three_lines(
    alloc: Global,
    is_same_row: bool,
    due: Option<usize>,
    messages: Option<usize>,
) -> Result<Vec<u8>, Memory>
    ensures { IfOk result (λ text. text.items ≡ spec.compare_text is_same_row due messages) }
{
    let mut text = Vec::new(alloc);
    push_row_line(&mut text, is_same_row)?;
    push_difference(&mut text, b"due equal", b"due differs at ", due)?;
    push_difference(
        &mut text,
        b"messages equal",
        b"messages differ at ",
        messages,
    )?;
    Ok(text)
}

/// `row equal` or `row differs`.
fn push_row_line(text: &mut Vec<u8>, is_same: bool) -> Result<(), Memory>
    ensures { OnOk result (text.new.items ≡ text.old.items ++ spec.row_line is_same) }
{
    if is_same {
        text.extend_from_slice(b"row equal\n")?;
        return Ok(());
    }
    text.extend_from_slice(b"row differs\n")?;
    Ok(())
}

/// One line where two lists are equal, or another with the first position at which they differ.
fn push_difference(
    text: &mut Vec<u8>,
    equal: &[u8],
    differ: &[u8],
    position: Option<usize>,
) -> Result<(), Memory>
    ensures { OnOk result (text.new.items
        ≡ text.old.items ++ spec.difference_line equal.now differ.now position) }
{
    let Some(position) = position else {
        text.extend_from_slice(equal)?;
        text.push(b'\n')?;
        return Ok(());
    };
    let mut digits = Buffer::new();
    text.extend_from_slice(differ)?;
    text.extend_from_slice(digits.format(position).as_bytes())?;
    text.push(b'\n')?;
    Ok(())
}
