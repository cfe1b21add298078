//! Reading one tag of a message: each function here is a line of a table.
ghost use Rattle.std.specs.Prelude.{◌≡◌, ℕ, List, [], ◌∷◌, Some, None, true, MatchResult};
ghost use Rattle.std.specs.Prelude.{MatchOption, IsTrue, option_map, option_and_then};
ghost use Rattle.std.specs.Result.{result_ok};
ghost use Rattle.bond_prices.specs.Price.{price_of};
ghost use Rattle.fix_fields.specs.Frame.{Field, value_of};
ghost use Rattle.fix_fields.specs.UtcTimestamp.{moment_of};
ghost use Rattle.venue_rows.specs.Texts.{is_among};
ghost use Rattle.quote_messages.specs.Slots.{is_checked};
ghost use Rattle.quote_messages.specs.TagReading.{Reads, StandsOnce, HasFault};
ghost use Rattle.quote_messages.specs.TagReading.{HasFaultWhereRequired};
ghost use Rattle.quote_messages.specs.ValueForms.{AnyText, AnId, ANumber, APrice, AQuantity};
ghost use Rattle.quote_messages.specs.ValueForms.{AMoment, OneOf, NumberIs, quantity_of};
ghost use Rattle.quote_messages.specs.ValueForms.{moment_fault};
ghost use Rattle.quote_messages.specs.SessionLines.{required, optional, required_where, text_at};
ghost use Rattle.quote_messages.specs.SessionLines.{number_at};

use crate::quantities::read_quantity;
use crate::slots::FieldSlots;
use crate::{Id, Quantity, SessionFault, SessionRejectReason, read_number};
use bond_prices::{PriceFault, Ticks, read_price};
use fix_fields::{Date, Moment, MomentFault, read_moment};
use venue_rows::{Name, Traders};

/// A required tag that has to be this text.
pub(crate) fn check_text(
    message: &FieldSlots,
    tag: u32,
    text: &[u8],
    reason: SessionRejectReason,
) -> Result<(), SessionFault>
    requires { IsTrue (is_checked tag) }
    ensures { (date : List ℕ) → Reads (required tag (OneOf (text.now
        ∷ []) reason) date message.now) result (λ _. Unit {0}) }
{
    let value = required_value(message, tag)?;
    if text != value {
        return Err(fault(tag, reason));
    }
    Ok(())
}

/// SenderSubID (50), one of the firm's traders.
pub(crate) fn trader(message: &FieldSlots, traders: &Traders) -> Result<Name, SessionFault>
    ensures { (date : List ℕ) → Reads (required 50 (OneOf traders.now SessionRejectReason.ValueIncorrect) date message.now) result (λ name. name ≡ text_at 50 message.now) }
{
    let value = required_value(message, 50)?;
    let Some(name) = traders.find(value) else {
        return Err(fault(50, SessionRejectReason::ValueIncorrect));
    };
    Ok(name)
}

/// A required identifier.
pub(crate) fn required_id<'a>(message: &FieldSlots<'a>, tag: u32) -> Result<Id<'a>, SessionFault>
    requires { IsTrue (is_checked tag) }
    ensures { (date : List ℕ) → Reads (required tag AnId date message.now) result
        (λ id. id ≡ text_at tag message.now) }
{
    let value = required_value(message, tag)?;
    let Some(id) = Id::new(value) else {
        return Err(fault(tag, SessionRejectReason::IncorrectDataFormat));
    };
    Ok(id)
}

/// An identifier, where it stands.
#[tactic(auto, using(crate::proofs::SessionLemmas::absent_optional))]
pub(crate) fn optional_id<'a>(
    message: &FieldSlots<'a>,
    tag: u32,
) -> Result<Option<Id<'a>>, SessionFault>
    requires { IsTrue (is_checked tag) }
    ensures { (date : List ℕ) → Reads (optional tag AnId date message.now) result
        (λ id. id ≡ value_of tag message.now) }
{
    let Some(value) = single(message, tag)? else {
        return Ok(None);
    };
    let Some(id) = Id::new(value) else {
        return Err(fault(tag, SessionRejectReason::IncorrectDataFormat));
    };
    Ok(Some(id))
}

/// A required number.
pub(crate) fn required_number(message: &FieldSlots, tag: u32) -> Result<u64, SessionFault>
    requires { IsTrue (is_checked tag) }
    ensures { (date : List ℕ) → Reads (required tag ANumber date message.now) result
        (λ number. number_at tag message.now ≡ Some number) }
{
    let value = required_value(message, tag)?;
    let Some(number) = read_number(value) else {
        return Err(fault(tag, SessionRejectReason::IncorrectDataFormat));
    };
    Ok(number)
}

/// A required number that has to be this one.
pub(crate) fn check_number(message: &FieldSlots, tag: u32, wanted: u64) -> Result<(), SessionFault>
    requires { IsTrue (is_checked tag) }
    ensures { (date : List ℕ) → Reads (required tag (NumberIs (wanted
        ∷ []) SessionRejectReason.ValueIncorrect) date message.now) result (λ _. Unit {0}) }
{
    let value = required_value(message, tag)?;
    let Some(number) = read_number(value) else {
        return Err(fault(tag, SessionRejectReason::IncorrectDataFormat));
    };
    if number != wanted {
        return Err(fault(tag, SessionRejectReason::ValueIncorrect));
    }
    Ok(())
}

/// A required moment of the day.
pub(crate) fn required_moment(
    date: &Date,
    message: &FieldSlots,
    tag: u32,
) -> Result<Moment, SessionFault>
    requires { IsTrue (is_checked tag) }
    ensures { Reads (required tag AMoment date.now message.now) result
        (λ moment. result_ok (moment_of date.now (text_at tag message.now)) ≡ Some moment) }
{
    let value = required_value(message, tag)?;
    let moment = moment(date, value).map_err(|reason| fault(tag, reason))?;
    Ok(moment)
}

/// A moment of the day, where it stands.
#[inline(always)]
#[tactic(auto, using(crate::proofs::SessionLemmas::absent_optional))]
pub(crate) fn optional_moment(
    date: &Date,
    message: &FieldSlots,
    tag: u32,
) -> Result<Option<Moment>, SessionFault>
    requires { IsTrue (is_checked tag) }
    ensures { Reads (optional tag AMoment date.now message.now) result
        (λ moment. moment ≡ option_and_then
        (λ text. result_ok (moment_of date.now text)) (value_of tag message.now)) }
{
    let Some(value) = single(message, tag)? else {
        return Ok(None);
    };
    let moment = moment(date, value).map_err(|reason| fault(tag, reason))?;
    Ok(Some(moment))
}

/// A price, where it stands: out of range or off the grid is left to the checks of the market.
#[inline(always)]
#[tactic(auto, using(crate::proofs::SessionLemmas::absent_optional))]
pub(crate) fn optional_price(
    message: &FieldSlots,
    tag: u32,
) -> Result<Option<Result<Ticks, PriceFault>>, SessionFault>
    requires { IsTrue (is_checked tag) }
    ensures { (date : List ℕ) → Reads (optional tag APrice date message.now) result
        (λ price. price ≡ option_map price_of (value_of tag message.now)) }
{
    let Some(value) = single(message, tag)? else {
        return Ok(None);
    };
    let price = read_price(value);
    if let Err(PriceFault::Form) = price {
        return Err(fault(tag, SessionRejectReason::IncorrectDataFormat));
    }
    Ok(Some(price))
}

/// A required quantity.
pub(crate) fn required_quantity(message: &FieldSlots, tag: u32) -> Result<Quantity, SessionFault>
    requires { IsTrue (is_checked tag) }
    ensures { (date : List ℕ) → Reads (required tag AQuantity date message.now) result
        (λ quantity. result_ok (quantity_of (text_at tag message.now)) ≡ Some quantity) }
{
    let value = required_value(message, tag)?;
    let quantity = read_quantity(value).map_err(|reason| fault(tag, reason))?;
    Ok(quantity)
}

/// A quantity, where it stands.
#[inline(always)]
#[tactic(auto, using(crate::proofs::SessionLemmas::absent_optional))]
pub(crate) fn optional_quantity(
    message: &FieldSlots,
    tag: u32,
) -> Result<Option<Quantity>, SessionFault>
    requires { IsTrue (is_checked tag) }
    ensures { (date : List ℕ) → Reads (optional tag AQuantity date message.now) result
        (λ quantity. quantity ≡ option_and_then
        (λ text. result_ok (quantity_of text)) (value_of tag message.now)) }
{
    let Some(value) = single(message, tag)? else {
        return Ok(None);
    };
    let quantity = read_quantity(value).map_err(|reason| fault(tag, reason))?;
    Ok(Some(quantity))
}

/// A number, where it stands.
#[inline(always)]
#[tactic(auto, using(crate::proofs::SessionLemmas::absent_optional))]
pub(crate) fn optional_number(message: &FieldSlots, tag: u32) -> Result<Option<u64>, SessionFault>
    requires { IsTrue (is_checked tag) }
    ensures { (date : List ℕ) → Reads (optional tag ANumber date message.now) result
        (λ number. number ≡ number_at tag message.now) }
{
    let Some(value) = single(message, tag)? else {
        return Ok(None);
    };
    let Some(number) = read_number(value) else {
        return Err(fault(tag, SessionRejectReason::IncorrectDataFormat));
    };
    Ok(Some(number))
}

/// The value of a tag that has to stand.
#[tactic(auto, unfolding(crate::specs::SessionLines::tag_fault))]
pub(crate) fn required_value<'a>(
    message: &FieldSlots<'a>,
    tag: u32,
) -> Result<&'a [u8], SessionFault>
    requires { IsTrue (is_checked tag) }
    ensures { MatchResult result
        (λ value. StandsOnce tag message.now value.now) (HasFaultWhereRequired tag message.now) }
{
    match single(message, tag) {
        Ok(Some(value)) => Ok(value),
        Ok(None) => Err(fault(tag, SessionRejectReason::RequiredTagMissing)),
        Err(fault) => Err(fault),
    }
}

/// The value of a tag that stands at most once, and is not empty where it stands.
#[inline(always)]
#[tactic(auto, unfolding(crate::specs::SessionLines::tag_fault))]
fn single<'a>(message: &FieldSlots<'a>, tag: u32) -> Result<Option<&'a [u8]>, SessionFault>
    requires { IsTrue (is_checked tag) }
    ensures { MatchResult result
        (λ found. MatchOption found (value_of tag message.now ≡ None)
        (λ value. StandsOnce tag message.now value.now))
        (HasFault tag message.now) }
{
    let slot = message.at(tag);
    let Some(value) = slot.first else {
        return Ok(None);
    };
    if slot.is_repeated {
        return Err(fault(tag, SessionRejectReason::TagMoreThanOnce));
    }
    if value.is_empty() {
        return Err(fault(tag, SessionRejectReason::TagWithoutValue));
    }
    Ok(Some(value))
}

/// The moment of the day that a text is, or what is wrong with it.
#[inline(always)]
fn moment(date: &Date, text: &[u8]) -> Result<Moment, SessionRejectReason>
    ensures { MatchResult result
        (λ moment. moment_of date.now text.now ≡ Ok moment)
        (λ reason. moment_fault (moment_of date.now text.now) ≡ Some reason) }
{
    match read_moment(date, text) {
        Ok(moment) => Ok(moment),
        Err(MomentFault::Form) => Err(SessionRejectReason::IncorrectDataFormat),
        Err(MomentFault::OtherDay) => Err(SessionRejectReason::ValueIncorrect),
    }
}

/// A fault of a tag.
pub(crate) fn fault(tag: u32, reason: SessionRejectReason) -> SessionFault
    ensures { result ≡ record { tag = tag; reason = reason } }
{
    SessionFault { tag, reason }
}
