//! An investor's due text, written line by line.
ghost use Rattle.std.specs.Prelude.{◌≡◌, ◌++◌, ◌∷◌, [], IfOk, OnOk};
ghost use Rattle.std.specs.List.{flat_map};
ghost use Rattle.bond_prices.specs.Price.{price_digits};
ghost use Rattle.fix_fields.specs.TimeOfDay as times;
ghost use Rattle.investor_texts.specs.WrittenText as spec;

use bond_prices::{Ticks, price_text};
use fix_fields::{Memory, Moment};
use investor_dues::{InvestorDue, InvestorSeen};
use market_terms::{IdBuf, Reply, ResponseRef};
use std::alloc::Global;
use venue_rows::{BondRow, InvestorRow, Name};
use venue_text::{
    push_band, push_date_line, push_last_time, push_number, push_own, push_time, push_traders,
};

/// The due text of what an investor sees and of what is due to it: the lines of what it sees, and
/// then an item each.
pub fn investor_text(
    alloc: Global,
    seen: &InvestorSeen,
    dues: &[InvestorDue],
) -> Result<Vec<u8>, Memory>
    ensures { IfOk result (λ text. text.items ≡ spec.investor_text seen.now dues.now) }
{
    let mut text = seen_text(alloc, seen)?;
    push_items(&mut text, dues)?;
    Ok(text)
}

/// The lines of what an investor sees.
fn seen_text(alloc: Global, seen: &InvestorSeen) -> Result<Vec<u8>, Memory>
    ensures { IfOk result (λ text. text.items ≡ spec.seen_text seen.now) }
{
    let mut text = Vec::new(alloc);
    push_date_line(&mut text, seen.date())?;
    push_row_line(&mut text, seen.row())?;
    push_bonds(&mut text, seen.bonds())?;
    push_dealers(&mut text, seen.dealers())?;
    Ok(text)
}

/// `investor NAME REQUESTS OPEN QUANTITY TRADER ..`.
fn push_row_line(text: &mut Vec<u8>, row: &InvestorRow) -> Result<(), Memory>
    ensures { OnOk result (text.new.items ≡ text.old.items ++ spec.row_line row.now) }
{
    push_limits(text, row)?;
    push_traders(text, &row.traders)?;
    text.push(b'\n')?;
    Ok(())
}

/// `investor NAME REQUESTS OPEN QUANTITY`.
fn push_limits(text: &mut Vec<u8>, row: &InvestorRow) -> Result<(), Memory>
    ensures { OnOk result (text.new.items ≡ text.old.items ++ spec.limits_text row.now) }
{
    text.extend_from_slice(b"investor ")?;
    text.extend_from_slice(row.name.as_bytes())?;
    text.push(b' ')?;
    push_number(text, u64::from(row.requests))?;
    text.push(b' ')?;
    push_number(text, u64::from(row.open_limit))?;
    text.push(b' ')?;
    push_number(text, row.quantity)?;
    Ok(())
}

/// The lines of bonds.
fn push_bonds(text: &mut Vec<u8>, bonds: &[BondRow]) -> Result<(), Memory>
    ensures { OnOk result (text.new.items
        ≡ text.old.items ++ flat_map spec.bond_line bonds.now) }
{
    for bond in bonds {
        push_bond(text, *bond)?;
    }
    Ok(())
}

/// `bond BOND GRID`, and `LOW HIGH` where not every price is in the band.
fn push_bond(text: &mut Vec<u8>, bond: BondRow) -> Result<(), Memory>
    ensures { OnOk result (text.new.items ≡ text.old.items ++ spec.bond_line bond) }
{
    text.extend_from_slice(b"bond ")?;
    text.extend_from_slice(bond.id.as_bytes())?;
    text.push(b' ')?;
    push_number(text, u64::from(bond.grid.get()))?;
    push_band(text, bond.band)?;
    text.push(b'\n')?;
    Ok(())
}

/// The lines of dealers' names.
fn push_dealers(text: &mut Vec<u8>, names: &[Name]) -> Result<(), Memory>
    ensures { OnOk result (text.new.items
        ≡ text.old.items ++ flat_map spec.dealer_line names.now) }
{
    for name in names {
        push_dealer(text, name)?;
    }
    Ok(())
}

/// `dealer NAME`.
fn push_dealer(text: &mut Vec<u8>, name: &Name) -> Result<(), Memory>
    ensures { OnOk result (text.new.items ≡ text.old.items ++ spec.dealer_line name.now) }
{
    text.extend_from_slice(b"dealer ")?;
    text.extend_from_slice(name.as_bytes())?;
    text.push(b'\n')?;
    Ok(())
}

/// The line of an item.
fn push_item(text: &mut Vec<u8>, due: &InvestorDue) -> Result<(), Memory>
    ensures { OnOk result (text.new.items ≡ text.old.items ++ spec.item_line due.now) }
{
    match due {
        InvestorDue::Own(moment, message) => push_own(text, *moment, message.as_bytes()),
        InvestorDue::Offered(request, dealer, price, valid_until, moment) => {
            push_quoted(text, *request, dealer, *price, *valid_until, *moment)
        }
        InvestorDue::Gone(request, quote, moment) => push_gone(text, *request, *quote, *moment),
        InvestorDue::Declined(request, dealer, moment) => {
            push_declined(text, *request, dealer, *moment)
        }
        InvestorDue::Answered(request, response, reply, moment) => {
            push_answered(text, *request, response, *reply, *moment)
        }
        InvestorDue::Expired(request, moment) => push_expired(text, *request, *moment),
    }
}

/// The lines of a list.
fn push_items(text: &mut Vec<u8>, dues: &[InvestorDue]) -> Result<(), Memory>
    ensures { OnOk result (text.new.items ≡ text.old.items ++ spec.item_lines dues.now) }
{
    for due in dues {
        push_item(text, due)?;
    }
    Ok(())
}

/// `quoted N DEALER PRICE TIME`, and `UNTIL` where it is given.
#[tactic(auto, unfolding(crate::specs::WrittenText::quoted_line))]
fn push_quoted(
    text: &mut Vec<u8>,
    request: u32,
    dealer: &Name,
    price: Ticks,
    valid_until: Option<Moment>,
    moment: Moment,
) -> Result<(), Memory>
    ensures { OnOk result (text.new.items ≡ text.old.items
        ++ spec.quoted_line request dealer.now price valid_until moment) }
{
    text.extend_from_slice(b"quoted ")?;
    push_number(text, u64::from(request))?;
    text.push(b' ')?;
    text.extend_from_slice(dealer.as_bytes())?;
    text.push(b' ')?;
    push_offer(text, price, moment, valid_until)?;
    Ok(())
}

/// `PRICE TIME`, and UNTIL where it is given, up to the end of the line.
fn push_offer(
    text: &mut Vec<u8>,
    price: Ticks,
    moment: Moment,
    valid_until: Option<Moment>,
) -> Result<(), Memory>
    ensures { OnOk result (text.new.items ≡ text.old.items ++ price_digits price
        ++ 32 ∷ times.time_text moment ++ spec.until_text valid_until ++ 10 ∷ []) }
{
    text.extend_from_slice(price_text(price).as_bytes())?;
    text.push(b' ')?;
    push_until(text, moment, valid_until)?;
    Ok(())
}

/// `TIME`, and UNTIL where it is given, up to the end of the line.
#[tactic(auto, unfolding(crate::specs::WrittenText::until_text))]
fn push_until(text: &mut Vec<u8>, moment: Moment, valid_until: Option<Moment>) -> Result<(), Memory>
    ensures { OnOk result (text.new.items ≡ text.old.items
        ++ times.time_text moment ++ spec.until_text valid_until ++ 10 ∷ []) }
{
    push_time(text, moment)?;
    let Some(until) = valid_until else {
        text.push(b'\n')?;
        return Ok(());
    };
    text.push(b' ')?;
    push_time(text, until)?;
    text.push(b'\n')?;
    Ok(())
}

/// `gone N K TIME`.
#[tactic(auto, unfolding(crate::specs::WrittenText::gone_line))]
fn push_gone(text: &mut Vec<u8>, request: u32, quote: u64, moment: Moment) -> Result<(), Memory>
    ensures { OnOk result (text.new.items
        ≡ text.old.items ++ spec.gone_line request quote moment) }
{
    text.extend_from_slice(b"gone ")?;
    push_number(text, u64::from(request))?;
    text.push(b' ')?;
    push_number(text, quote)?;
    push_last_time(text, moment)?;
    Ok(())
}

/// `declined N DEALER TIME`.
#[tactic(auto, unfolding(crate::specs::WrittenText::declined_line))]
fn push_declined(
    text: &mut Vec<u8>,
    request: u32,
    dealer: &Name,
    moment: Moment,
) -> Result<(), Memory>
    ensures { OnOk result (text.new.items
        ≡ text.old.items ++ spec.declined_line request dealer.now moment) }
{
    text.extend_from_slice(b"declined ")?;
    push_number(text, u64::from(request))?;
    text.push(b' ')?;
    text.extend_from_slice(dealer.as_bytes())?;
    push_last_time(text, moment)?;
    Ok(())
}

/// `answered N ID REPLY TIME`, and `K` where the response is a hit.
#[tactic(auto, unfolding(crate::specs::WrittenText::answered_line))]
fn push_answered(
    text: &mut Vec<u8>,
    request: u32,
    response: &ResponseRef,
    reply: Reply,
    moment: Moment,
) -> Result<(), Memory>
    ensures { OnOk result (text.new.items
        ≡ text.old.items ++ spec.answered_line request response.now reply moment) }
{
    text.extend_from_slice(b"answered ")?;
    push_number(text, u64::from(request))?;
    text.push(b' ')?;
    push_id(text, &response.id)?;
    text.push(b' ')?;
    push_reply(text, reply, moment, response.k)?;
    Ok(())
}

/// ID, the QuoteRespID (693) of a response.
fn push_id(text: &mut Vec<u8>, id: &IdBuf) -> Result<(), Memory>
    ensures { OnOk result (text.new.items ≡ text.old.items ++ id.now) }
{
    text.extend_from_slice(id.as_bytes())?;
    Ok(())
}

/// `REPLY TIME`, and K where it is given, up to the end of the line.
fn push_reply(
    text: &mut Vec<u8>,
    reply: Reply,
    moment: Moment,
    quote: Option<u64>,
) -> Result<(), Memory>
    ensures { OnOk result (text.new.items ≡ text.old.items ++ spec.reply_text reply
        ++ 32 ∷ times.time_text moment ++ spec.quote_text quote ++ 10 ∷ []) }
{
    text.extend_from_slice(reply_name(reply))?;
    text.push(b' ')?;
    push_quote(text, moment, quote)?;
    Ok(())
}

/// REPLY.
#[tactic(auto, unfolding(crate::specs::WrittenText::reply_text))]
fn reply_name(reply: Reply) -> &'static [u8]
    ensures { result.now ≡ spec.reply_text reply }
{
    match reply {
        Reply::Awarded => b"Awarded",
        Reply::Passed => b"Passed",
        Reply::Refused(refusal) => refusal.name(),
    }
}

/// `TIME`, and K where it is given, up to the end of the line.
#[tactic(auto, unfolding(crate::specs::WrittenText::quote_text))]
fn push_quote(text: &mut Vec<u8>, moment: Moment, quote: Option<u64>) -> Result<(), Memory>
    ensures { OnOk result (text.new.items ≡ text.old.items
        ++ times.time_text moment ++ spec.quote_text quote ++ 10 ∷ []) }
{
    push_time(text, moment)?;
    let Some(number) = quote else {
        text.push(b'\n')?;
        return Ok(());
    };
    text.push(b' ')?;
    push_number(text, number)?;
    text.push(b'\n')?;
    Ok(())
}

/// `expired N TIME`.
#[tactic(auto, unfolding(crate::specs::WrittenText::expired_line))]
fn push_expired(text: &mut Vec<u8>, request: u32, moment: Moment) -> Result<(), Memory>
    ensures { OnOk result (text.new.items
        ≡ text.old.items ++ spec.expired_line request moment) }
{
    text.extend_from_slice(b"expired ")?;
    push_number(text, u64::from(request))?;
    push_last_time(text, moment)?;
    Ok(())
}
