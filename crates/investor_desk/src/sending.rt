//! What a desk sends: the messages of an event, as the next ones that its investor is sent.
ghost use Rattle.std.specs.Prelude.{◌≡◌, ◌<◌, ◌≤◌, ◌+◌, ◌^◌, ◌++◌, IfOk, IsOk, is_some};
ghost use Rattle.std.specs.Prelude.{vec_len, vec_capacity, map, if◌then◌else◌};
ghost use Rattle.std.specs.Option.{option_to_list, option_map};
ghost use Rattle.quote_messages.specs.Written.{written};
ghost use Rattle.investor_desk.specs.InvestorOutput as spec;

use crate::InvestorNote;
use crate::market::Market;
use crate::notes::note_again;
use crate::outcomes::Sent;
use fix_fields::{Memory, Moment};
use quote_messages::{Head, OutMessage, SentMessage, write_out};
use std::alloc::Global;

/// The messages of an event as the investor is sent them, the first one with this number.
pub(crate) fn write_both(
    alloc: Global,
    market: &Market,
    number: u64,
    moment: Moment,
    first: &Option<OutMessage>,
    second: &Option<OutMessage>,
) -> Result<Sent, Memory>
    requires { number < 2 ^ 63 + 1 }
    ensures { IfOk result (λ sent. option_to_list sent.first ++ option_to_list sent.second
        ≡ spec.written_from market.now number moment (option_to_list first.now
        ++ option_to_list second.now)) }
{
    let first = write_some(alloc, market, number, moment, first)?;
    let next = next_number(number, &first);
    let second = write_some(alloc, market, next, moment, second)?;
    Ok(Sent { first, second })
}

/// The number behind a message, where there is one.
fn next_number(number: u64, message: &Option<SentMessage>) -> u64
    requires { number < 2 ^ 63 + 1 }
    ensures { result ≡ (if is_some message.now then number + 1 else number) }
{
    if message.is_some() {
        return number + 1;
    }
    number
}

/// A message with this number, where there is one.
fn write_some(
    alloc: Global,
    market: &Market,
    number: u64,
    moment: Moment,
    message: &Option<OutMessage>,
) -> Result<Option<SentMessage>, Memory>
    ensures { IfOk result (λ sent. sent
        ≡ option_map (written (spec.head_of market.now number moment)) message.now) }
{
    let Some(message) = message else {
        return Ok(None);
    };
    let head = Head {
        date: market.date,
        firm: market.row.name.copy(),
        number,
        moment,
    };
    let sent = write_out(alloc, &head, message)?;
    Ok(Some(sent))
}

/// Puts a message behind the others, where there is one.
pub(crate) fn push_some(
    items: &mut Vec<SentMessage>,
    item: Option<SentMessage>,
) -> Result<(), Memory>
    requires { vec_len items.old < vec_capacity items.old }
    ensures ok { IsOk result }
    ensures items { items.new.items ≡ items.old.items ++ option_to_list item }
    ensures len { vec_len items.new ≤ vec_len items.old + 1 }
    ensures room { vec_capacity items.old ≤ vec_capacity items.new }
{
    let Some(item) = item else {
        return Ok(());
    };
    items.push(item)?;
    Ok(())
}

/// Puts what is noted of an event beside a message of it, where there is one.
pub(crate) fn push_note(
    notes: &mut Vec<Option<InvestorNote>>,
    message: &Option<SentMessage>,
    note: &Option<InvestorNote>,
) -> Result<(), Memory>
    requires { vec_len notes.old < vec_capacity notes.old }
    ensures ok { IsOk result }
    ensures items { notes.new.items
        ≡ notes.old.items ++ map (λ sent. note.now) (option_to_list message.now) }
    ensures len { vec_len notes.new ≤ vec_len notes.old + 1 }
    ensures room { vec_capacity notes.old ≤ vec_capacity notes.new }
{
    if message.is_none() {
        return Ok(());
    }
    notes.push(note_again(note))?;
    Ok(())
}
