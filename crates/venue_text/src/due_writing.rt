//! What is due to a dealer, written as lines of due text.
ghost use Rattle.std.specs.Prelude.{◌≡◌, ◌++◌, ◌∷◌, [], decimal, IfOk, OnOk};
ghost use Rattle.std.specs.List.{list_any};
ghost use Rattle.fix_fields.specs.TimeOfDay as times;
ghost use Rattle.venue_text.specs.WrittenDues as spec;

use bond_prices::{Band, Grid, price_text};
use fix_fields::{Memory, Moment, time_text};
use hex::encode;
use input_lines::push_barred;
use itoa::Buffer;
use quote_messages::{Ask, Close};
use std::alloc::Global;
use step_replay::Due;

/// The lines of due text that spell a list, an item each: a message of the dealer's own as an
/// `own` line, with a vertical bar for each SOH, or, where it has a vertical bar or a line feed, as
/// a `hex` line; and times with milliseconds. It fails for memory alone.
pub fn due_lines(alloc: Global, dues: &[Due]) -> Result<Vec<u8>, Memory>
    ensures { IfOk result (λ text. text.items ≡ spec.due_lines dues.now) }
{
    let mut text = Vec::new(alloc);
    push_dues(&mut text, dues)?;
    Ok(text)
}

/// The lines of a list.
pub(crate) fn push_dues(text: &mut Vec<u8>, dues: &[Due]) -> Result<(), Memory>
    ensures { OnOk result (text.new.items ≡ text.old.items ++ spec.due_lines dues.now) }
{
    for due in dues {
        push_due(text, due)?;
    }
    Ok(())
}

/// The line of an item.
fn push_due(text: &mut Vec<u8>, due: &Due) -> Result<(), Memory>
    ensures { OnOk result (text.new.items ≡ text.old.items ++ spec.due_line due.now) }
{
    match due {
        Due::Own(moment, message) => push_own(text, *moment, message.as_bytes()),
        Due::Shown(ask, moment) => push_shown(text, ask, *moment),
        Due::Lifted(quote) => push_lifted(text, *quote),
        Due::Closed(request, close, moment) => push_closed(text, *request, *close, *moment),
        Due::Drop(last, moment) => push_drop(text, *last, *moment),
    }
}

/// `own TIME FRAME`, or `hex TIME HEX` where FRAME could not be read back.
#[tactic(auto, unfolding(crate::specs::WrittenDues::own_line))]
pub fn push_own(text: &mut Vec<u8>, moment: Moment, message: &[u8]) -> Result<(), Memory>
    ensures { OnOk result (text.new.items ≡ text.old.items ++ spec.own_line moment message.now) }
{
    if has_unsayable(message) {
        push_digits(text, moment, message)?;
        return Ok(());
    }
    push_bytes(text, moment, message)?;
    Ok(())
}

/// Whether a message has a byte that an `own` line can't say of itself.
fn has_unsayable(message: &[u8]) -> bool
    ensures { result ≡ list_any spec.is_unsayable message.now }
{
    message.iter().any(|c| is_unsayable(*c))
}

/// A vertical bar or a line feed.
fn is_unsayable(c: u8) -> bool
    ensures { result ≡ spec.is_unsayable c }
{
    c == b'|' || c == b'\n'
}

/// `hex TIME HEX`.
fn push_digits(text: &mut Vec<u8>, moment: Moment, message: &[u8]) -> Result<(), Memory>
    ensures { OnOk result (text.new.items
        ≡ text.old.items ++ spec.hex_line moment message.now) }
{
    let digits = encode(*text.allocator(), message)?;
    text.extend_from_slice(b"hex ")?;
    push_time(text, moment)?;
    text.push(b' ')?;
    text.extend_from_slice(digits.as_bytes())?;
    text.push(b'\n')?;
    Ok(())
}

/// `own TIME FRAME`.
fn push_bytes(text: &mut Vec<u8>, moment: Moment, message: &[u8]) -> Result<(), Memory>
    ensures { OnOk result (text.new.items
        ≡ text.old.items ++ spec.bytes_line moment message.now) }
{
    text.extend_from_slice(b"own ")?;
    push_time(text, moment)?;
    text.push(b' ')?;
    push_barred(text, message)?;
    text.push(b'\n')?;
    Ok(())
}

/// `shown INVESTOR BOND SIDE QUANTITY DEADLINE TIME`, and GRID and LOW HIGH where they
/// say more than nothing.
fn push_shown(text: &mut Vec<u8>, ask: &Ask, moment: Moment) -> Result<(), Memory>
    ensures { OnOk result (text.new.items
        ≡ text.old.items ++ spec.due_line (Due.Shown ask.now moment)) }
{
    text.extend_from_slice(b"shown ")?;
    push_ask(text, ask)?;
    text.push(b' ')?;
    push_end(text, moment, ask)?;
    Ok(())
}

/// TIME GRID LOW HIGH, with which a request's line ends.
#[tactic(auto, unfolding(crate::specs::WrittenDues::end_text))]
fn push_end(text: &mut Vec<u8>, moment: Moment, ask: &Ask) -> Result<(), Memory>
    ensures { OnOk result (text.new.items
        ≡ text.old.items ++ spec.end_text moment ask.now.grid ask.now.band) }
{
    push_time(text, moment)?;
    push_limits(text, ask)?;
    text.push(b'\n')?;
    Ok(())
}

/// GRID LOW HIGH behind their spaces, where the grid is not the finest or not every price is in the
/// band.
#[tactic(auto, unfolding(crate::specs::WrittenDues::limits_text))]
fn push_limits(text: &mut Vec<u8>, ask: &Ask) -> Result<(), Memory>
    ensures { OnOk result (text.new.items
        ≡ text.old.items ++ spec.limits_text ask.now.grid ask.now.band) }
{
    if ask.grid.get() == Grid::FINEST.get() && ask.band.is_whole() {
        return Ok(());
    }
    text.push(b' ')?;
    push_number(text, u64::from(ask.grid.get()))?;
    push_band(text, ask.band)?;
    Ok(())
}

/// LOW HIGH behind their spaces, where not every price is in the band.
#[tactic(auto, unfolding(crate::specs::WrittenDues::band_text))]
pub fn push_band(text: &mut Vec<u8>, band: Band) -> Result<(), Memory>
    ensures { OnOk result (text.new.items ≡ text.old.items ++ spec.band_text band) }
{
    let Band { low, high } = band;
    if band.is_whole() {
        return Ok(());
    }
    text.push(b' ')?;
    text.extend_from_slice(price_text(low).as_bytes())?;
    text.push(b' ')?;
    text.extend_from_slice(price_text(high).as_bytes())?;
    Ok(())
}

/// `INVESTOR BOND SIDE QUANTITY DEADLINE`.
fn push_ask(text: &mut Vec<u8>, ask: &Ask) -> Result<(), Memory>
    ensures { OnOk result (text.new.items ≡ text.old.items ++ spec.ask_text ask.now) }
{
    push_terms(text, ask)?;
    text.push(b' ')?;
    push_time(text, ask.deadline)?;
    Ok(())
}

/// `INVESTOR BOND SIDE QUANTITY`.
fn push_terms(text: &mut Vec<u8>, ask: &Ask) -> Result<(), Memory>
    ensures { OnOk result (text.new.items ≡ text.old.items ++ spec.terms_text ask.now) }
{
    text.extend_from_slice(ask.investor.as_bytes())?;
    text.push(b' ')?;
    text.extend_from_slice(ask.bond.as_bytes())?;
    text.push(b' ')?;
    push_number(text, ask.side.code())?;
    text.push(b' ')?;
    push_number(text, ask.quantity.get())?;
    Ok(())
}

/// `lifted N`.
fn push_lifted(text: &mut Vec<u8>, quote: u32) -> Result<(), Memory>
    ensures { OnOk result (text.new.items
        ≡ text.old.items ++ spec.due_line (Due.Lifted quote)) }
{
    text.extend_from_slice(b"lifted ")?;
    push_number(text, quote as u64)?;
    text.push(b'\n')?;
    Ok(())
}

/// `closed N KIND TIME`.
fn push_closed(text: &mut Vec<u8>, request: u64, close: Close, moment: Moment) -> Result<(), Memory>
    ensures { OnOk result (text.new.items
        ≡ text.old.items ++ spec.due_line (Due.Closed request close moment)) }
{
    text.extend_from_slice(b"closed ")?;
    push_number(text, request)?;
    text.push(b' ')?;
    push_number(text, close.code())?;
    push_last_time(text, moment)?;
    Ok(())
}

/// `drop LAST TIME`.
fn push_drop(text: &mut Vec<u8>, last: u32, moment: Moment) -> Result<(), Memory>
    ensures { OnOk result (text.new.items
        ≡ text.old.items ++ spec.due_line (Due.Drop last moment)) }
{
    text.extend_from_slice(b"drop ")?;
    push_number(text, u64::from(last))?;
    push_last_time(text, moment)?;
    Ok(())
}

/// ` TIME`, with which a line ends.
pub fn push_last_time(text: &mut Vec<u8>, moment: Moment) -> Result<(), Memory>
    ensures { OnOk result (text.new.items
        ≡ text.old.items ++ 32 ∷ times.time_text moment ++ 10 ∷ []) }
{
    text.push(b' ')?;
    push_time(text, moment)?;
    text.push(b'\n')?;
    Ok(())
}

/// TIME, with milliseconds.
pub fn push_time(text: &mut Vec<u8>, moment: Moment) -> Result<(), Memory>
    ensures { OnOk result (text.new.items ≡ text.old.items ++ times.time_text moment) }
{
    text.extend_from_slice(time_text(moment).as_bytes())?;
    Ok(())
}

/// A number in decimal.
pub fn push_number(text: &mut Vec<u8>, number: u64) -> Result<(), Memory>
    ensures { OnOk result (text.new.items ≡ text.old.items ++ decimal number) }
{
    let mut digits = Buffer::new();
    text.extend_from_slice(digits.format(number).as_bytes())?;
    Ok(())
}
