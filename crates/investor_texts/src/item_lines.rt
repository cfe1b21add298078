//! The lines of an investor's due text that are an item each.
ghost use Rattle.std.specs.Prelude.{◌≡◌, ◌≤◌, ◌+◌, IfOk, IfSome};
ghost use Rattle.investor_texts.specs.InvestorLines as spec;
ghost use Rattle.market_terms.specs.Texts.{is_id};
ghost use Rattle.quote_messages.specs.Texts.{number_of};
ghost use Rattle.venue_rows.specs.Texts.{text_if};

use bond_prices::read_price;
use fix_fields::{Date, Memory, Moment};
use input_lines::{
    SayLine, cut_part, has_part_behind, read_hexed, read_received, read_time, same_text,
};
use investor_dues::InvestorDue;
use market_terms::{HitRefusal, Id, IdBuf, Reply, ResponseRef};
use quote_messages::read_number;
use std::alloc::Global;
use venue_rows::Name;

/// What a line makes due, and the number (34) of the next message that has none in its BODY.
pub(crate) fn read_item(
    alloc: Global,
    date: &Date,
    firm: &Name,
    number: u64,
    line: &[u8],
) -> Result<Option<(InvestorDue, u64)>, Memory>
    requires { number ≤ 9223372036854775808 }
    ensures item { IfOk result (λ item.
        item ≡ spec.item_of date.now firm.now number line.now) }
    ensures next { IfOk result (λ item. IfSome item (λ item. item.1 ≤ number + 1)) }
{
    let (keyword, text) = cut_part(line);
    if same_text(keyword, b"say") {
        return read_said(alloc, date, firm, number, text);
    }
    let Some(item) = read_by_keyword(alloc, date, keyword, text)? else {
        return Ok(None);
    };
    Ok(Some((item, number)))
}

/// The message that a `say` line makes due, and the number of the next one.
fn read_said(
    alloc: Global,
    date: &Date,
    firm: &Name,
    number: u64,
    text: &[u8],
) -> Result<Option<(InvestorDue, u64)>, Memory>
    requires { number ≤ 9223372036854775808 }
    ensures item { IfOk result (λ item.
        item ≡ spec.said_item date.now firm.now number text.now) }
    ensures next { IfOk result (λ item. IfSome item (λ item. item.1 ≤ number + 1)) }
{
    let Some(said) = SayLine::read(alloc, date, text)? else {
        return Ok(None);
    };
    let Some(message) = said.message(alloc, date, firm, number)? else {
        return Ok(None);
    };
    let next = if said.is_numbered() {
        number
    } else {
        number + 1
    };
    let moment = said.moment();
    Ok(Some((InvestorDue::Own(moment, message), next)))
}

/// What a line other than `say` makes due, by its keyword, or none where it is of no form.
fn read_by_keyword(
    alloc: Global,
    date: &Date,
    keyword: &[u8],
    text: &[u8],
) -> Result<Option<InvestorDue>, Memory>
    ensures { IfOk result (λ item.
        item ≡ spec.item_by_keyword date.now keyword.now text.now) }
{
    if same_text(keyword, b"own") {
        return read_own(alloc, date, text);
    }
    if same_text(keyword, b"hex") {
        return read_hex(alloc, date, text);
    }
    if same_text(keyword, b"quoted") {
        return Ok(read_quoted(date, text));
    }
    if same_text(keyword, b"gone") {
        return Ok(read_gone(date, text));
    }
    if same_text(keyword, b"declined") {
        return Ok(read_declined(date, text));
    }
    if same_text(keyword, b"answered") {
        return Ok(read_answered(date, text));
    }
    if same_text(keyword, b"expired") {
        return Ok(read_expired(date, text));
    }
    Ok(None)
}

/// Behind `own`: `TIME FRAME`.
fn read_own(alloc: Global, date: &Date, text: &[u8]) -> Result<Option<InvestorDue>, Memory>
    ensures { IfOk result (λ item. item ≡ spec.own_of date.now text.now) }
{
    let Some((moment, message)) = read_received(alloc, date, text)? else {
        return Ok(None);
    };
    Ok(Some(InvestorDue::Own(moment, message)))
}

/// Behind `hex`: `TIME HEX`.
fn read_hex(alloc: Global, date: &Date, text: &[u8]) -> Result<Option<InvestorDue>, Memory>
    ensures { IfOk result (λ item. item ≡ spec.hex_of date.now text.now) }
{
    let Some((moment, message)) = read_hexed(alloc, date, text)? else {
        return Ok(None);
    };
    Ok(Some(InvestorDue::Own(moment, message)))
}

/// Behind `quoted`: `N DEALER PRICE TIME`, and `UNTIL` where it is given.
#[tactic(auto, unfolding(crate::specs::InvestorLines::quoted_of))]
fn read_quoted(date: &Date, text: &[u8]) -> Option<InvestorDue>
    ensures { result ≡ spec.quoted_of date.now text.now }
{
    let (request, rest) = cut_part(text);
    let (dealer, rest) = cut_part(rest);
    let (price, rest) = cut_part(rest);
    let (time, _) = cut_part(rest);
    let request = read_request(request)?;
    let dealer = Name::of_firm(dealer)?;
    let price = read_price(price).ok()?;
    let moment = read_time(date, time)?;
    let valid_until = read_until(date, rest)?;
    Some(InvestorDue::Offered(request, dealer, price, valid_until, moment))
}

/// The number of a request, in 1 to 9 digits.
fn read_request(text: &[u8]) -> Option<u32>
    ensures { result ≡ number_of text.now }
{
    let request = read_number(text)?;
    Some(request as u32)
}

/// UNTIL, where it stands behind TIME.
fn read_until(date: &Date, text: &[u8]) -> Option<Option<Moment>>
    ensures { result ≡ spec.until_behind date.now text.now }
{
    if !has_part_behind(text) {
        return Some(None);
    }
    let (_, until) = cut_part(text);
    let moment = read_time(date, until)?;
    Some(Some(moment))
}

/// K, where it stands behind TIME.
fn read_quote(text: &[u8]) -> Option<Option<u64>>
    ensures { result ≡ spec.quote_behind text.now }
{
    if !has_part_behind(text) {
        return Some(None);
    }
    let (_, quote) = cut_part(text);
    let quote = read_number(quote)?;
    Some(Some(quote))
}

/// Behind `gone`: `N K TIME`.
#[tactic(auto, unfolding(crate::specs::InvestorLines::gone_of))]
fn read_gone(date: &Date, text: &[u8]) -> Option<InvestorDue>
    ensures { result ≡ spec.gone_of date.now text.now }
{
    let (request, rest) = cut_part(text);
    let (quote, time) = cut_part(rest);
    let request = read_request(request)?;
    let quote = read_number(quote)?;
    let moment = read_time(date, time)?;
    Some(InvestorDue::Gone(request, quote, moment))
}

/// Behind `declined`: `N DEALER TIME`.
#[tactic(auto, unfolding(crate::specs::InvestorLines::declined_of))]
fn read_declined(date: &Date, text: &[u8]) -> Option<InvestorDue>
    ensures { result ≡ spec.declined_of date.now text.now }
{
    let (request, rest) = cut_part(text);
    let (dealer, time) = cut_part(rest);
    let request = read_request(request)?;
    let dealer = Name::of_firm(dealer)?;
    let moment = read_time(date, time)?;
    Some(InvestorDue::Declined(request, dealer, moment))
}

/// Behind `answered`: `N ID REPLY TIME`, and `K` where the response is a hit.
#[tactic(auto, unfolding(crate::specs::InvestorLines::answered_of))]
fn read_answered(date: &Date, text: &[u8]) -> Option<InvestorDue>
    ensures { result ≡ spec.answered_of date.now text.now }
{
    let (request, rest) = cut_part(text);
    let (id, rest) = cut_part(rest);
    let (reply, rest) = cut_part(rest);
    let (time, _) = cut_part(rest);
    let request = read_request(request)?;
    let id = read_id(id)?;
    let reply = read_reply(reply)?;
    let moment = read_time(date, time)?;
    let k = read_quote(rest)?;
    Some(InvestorDue::Answered(request, ResponseRef { id, k }, reply, moment))
}

/// ID, the QuoteRespID (693) of a response.
fn read_id(text: &[u8]) -> Option<IdBuf>
    ensures { result ≡ text_if is_id text.now }
{
    let id = Id::new(text)?;
    Some(IdBuf::of(&id))
}

/// REPLY, how a response is answered.
fn read_reply(text: &[u8]) -> Option<Reply>
    ensures { result ≡ spec.reply_of text.now }
{
    if same_text(text, b"Awarded") {
        return Some(Reply::Awarded);
    }
    if same_text(text, b"Passed") {
        return Some(Reply::Passed);
    }
    if same_text(text, b"NotOpen") {
        return Some(Reply::Refused(HitRefusal::NotOpen));
    }
    if same_text(text, b"Deadline") {
        return Some(Reply::Refused(HitRefusal::Deadline));
    }
    if same_text(text, b"Gone") {
        return Some(Reply::Refused(HitRefusal::Gone));
    }
    if same_text(text, b"Expired") {
        return Some(Reply::Refused(HitRefusal::Expired));
    }
    if same_text(text, b"Withdrawn") {
        return Some(Reply::Refused(HitRefusal::Withdrawn));
    }
    None
}

/// Behind `expired`: `N TIME`.
#[tactic(auto, unfolding(crate::specs::InvestorLines::expired_of))]
fn read_expired(date: &Date, text: &[u8]) -> Option<InvestorDue>
    ensures { result ≡ spec.expired_of date.now text.now }
{
    let (request, time) = cut_part(text);
    let request = read_request(request)?;
    let moment = read_time(date, time)?;
    Some(InvestorDue::Expired(request, moment))
}
