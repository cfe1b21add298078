//! What a desk sends: closing notices, and messages as the next ones that its dealer is sent.
ghost use Rattle.std.specs.Prelude.{◌≡◌, ◌<◌, ◌++◌, vec_len, vec_capacity, IfOk, IsOk};
ghost use Rattle.std.specs.Option.{option_map, option_to_list};
ghost use Rattle.dealer_desk.specs.DealerFacts.{live_quote_on};
ghost use Rattle.dealer_desk.specs.DealerOutput as spec;
ghost use Rattle.dealer_desk.specs.DealerNotes as notes;

use crate::index::DealerIndex;
use crate::{DealerNote, StandingQuote, StandingRequest};
use fix_fields::{Date, Memory, Moment};
use market_terms::Close;
use quote_messages::{
    ClosingNotice, Head, OutMessage, QuotedPrice, Request, SentMessage, write_out,
};
use std::alloc::Global;
use venue_rows::DealerRow;

/// The closing notice of a request, where one may be sent.
#[tactic(auto, unfolding(crate::specs::DealerOutput::closable))]
pub(crate) fn notice_of<'a>(
    index: &DealerIndex,
    number: u64,
    close: Close,
) -> Option<OutMessage<'a>>
    ensures { result
        ≡ option_map (spec.notice_of index.now.book close) (spec.closable index.now.book number) }
{
    let row = index.request_numbered(number)?;
    if row.request.is_told {
        return None;
    }
    let shown = row.request.number;
    Some(OutMessage::ClosingNotice(ClosingNotice {
        number: index.notices() + 1,
        request: Request {
            number: shown,
            ask: row.request.ask.copy(),
        },
        close,
        quote: price_on(index, shown),
    }))
}

/// What is noted of the closing notice of a request, where one may be sent.
#[tactic(auto, unfolding(crate::specs::DealerOutput::closable))]
pub(crate) fn notice_note(index: &DealerIndex, number: u64, close: Close) -> Option<DealerNote>
    ensures { result ≡ notes.notice_note close (spec.closable index.now.book number) }
{
    let row = index.request_numbered(number)?;
    if row.request.is_told {
        return None;
    }
    trade_of(close, &row.request)
}

/// The trade of which a closing notice of a request tells, where it tells of one.
fn trade_of(close: Close, request: &StandingRequest) -> Option<DealerNote>
    ensures { result ≡ notes.trade_of close request.now }
{
    match close {
        Close::Hit => Some(DealerNote::Trade {
            investor: request.ask.investor.copy(),
        }),
        _ => None,
    }
}

/// What a closing notice says of the dealer's live quote on a request, where there is one.
fn price_on(index: &DealerIndex, request: u64) -> Option<QuotedPrice>
    ensures { result ≡ option_map spec.quoted_price (live_quote_on index.now.book request) }
{
    let own = index.live_quote_on(request)?;
    let price = quoted_price(own);
    Some(price)
}

/// What a closing notice says of a quote.
fn quoted_price(own: &StandingQuote) -> QuotedPrice
    ensures { result ≡ spec.quoted_price own.now }
{
    QuotedPrice {
        id: own.quote.id.copy(),
        price: own.quote.price,
    }
}

/// A message as the next one that the dealer is sent.
pub(crate) fn next_message(
    alloc: Global,
    date: &Date,
    row: &DealerRow,
    sent: &[SentMessage],
    moment: Moment,
    message: &OutMessage,
) -> Result<SentMessage, Memory>
    ensures { IfOk result
        (λ bytes. bytes ≡ spec.next_message date.now row.now sent.now moment message.now) }
{
    let head = Head {
        date: *date,
        firm: row.name.copy(),
        number: sent.len() as u64 + 1,
        moment,
    };
    let bytes = write_out(alloc, &head, message)?;
    Ok(bytes)
}

/// The same of what is sent, where there is one.
pub(crate) fn output_message(
    alloc: Global,
    date: &Date,
    row: &DealerRow,
    sent: &[SentMessage],
    moment: Moment,
    output: &Option<OutMessage>,
) -> Result<Option<SentMessage>, Memory>
    ensures { IfOk result (λ bytes. spec.sent_with date.now row.now sent.now moment output.now
        ≡ sent.now ++ option_to_list bytes) }
{
    let Some(message) = output else {
        return Ok(None);
    };
    let bytes = next_message(alloc, date, row, sent, moment, message)?;
    Ok(Some(bytes))
}

/// What is noted with a message, where there is one.
pub(crate) fn noted_with(
    output: &Option<OutMessage>,
    note: Option<DealerNote>,
) -> Option<Option<DealerNote>>
    ensures { result ≡ option_map (λ (message : OutMessage). note) output.now }
{
    if output.is_none() {
        return None;
    }
    Some(note)
}

/// Puts a value behind the others, where there is one.
pub(crate) fn push_some<T: Drop>(items: &mut Vec<T>, item: Option<T>) -> Result<(), Memory>
    requires { vec_len items.old < vec_capacity items.old }
    ensures ok { IsOk result }
    ensures items { items.new.items ≡ items.old.items ++ option_to_list item }
{
    let Some(item) = item else {
        return Ok(());
    };
    items.push(item)?;
    Ok(())
}
