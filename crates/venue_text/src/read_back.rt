//! A law: what is written of what was due is read back.
ghost use Rattle.std.specs.Prelude.{◌≡◌, ◌≤◌, Ok, Some, IsTrue, true, not, ◌==◌, length};
ghost use Rattle.bond_prices.specs.Price.{price_digits, price_of};
ghost use Rattle.std.specs.List.{list_all};
ghost use Rattle.fix_fields.specs.TimeOfDay.{time_text};
ghost use Rattle.venue_rows.specs.Texts.{is_firm_name};
ghost use Rattle.input_lines.specs.Lines.{time_of};
ghost use Rattle.venue_text.specs.ReadBack as spec;

use bond_prices::{Ticks, price_text};
use fix_fields::{Date, Moment, moment_text};
use quote_messages::{Ask, Close};
use step_replay::Due;

/// What is written of a dealer's due list is read again as the same list, whatever lines stand
/// before it (`list`), and a whole due text as its date, its dealer's values and the list (`text`).
///
/// It ends at: values that due text can't say: a message of no byte, a request of a firm that is
/// named as the venue or its clock, and a number of more than nine digits.
/// (`laws_dues::what_is_due_can_be_said`: no day that lines spell has them.)
pub fn what_was_due_is_read_back(date: &Date, dues: &[Due])
    ensures list { list_all spec.is_sayable dues.now ≡ true
        → spec.AreReadBack date.now dues.now }
    ensures text { list_all spec.is_sayable dues.now ≡ true
        → spec.IsReadBack date.now dues.now }
{
    for due in dues {
        is_read_back(date, due);
    }
}

/// An item is read back.
fn is_read_back(date: &Date, due: &Due)
    ensures { spec.is_sayable due.now ≡ true → spec.ReadsAs date.now due.now }
{
    match due {
        Due::Own(moment, message) => own_is_read_back(date, *moment, message.as_bytes()),
        Due::Shown(ask, moment) => shown_is_read_back(date, ask, *moment),
        Due::Lifted(quote) => lifted_is_read_back(date, *quote),
        Due::Closed(request, close, moment) => {
            closed_is_read_back(date, *request, *close, *moment)
        }
        Due::Drop(last, moment) => drop_is_read_back(date, *last, *moment),
    }
}

/// A time of day is read back.
fn time_is_read_back(date: &Date, moment: Moment)
    ensures { time_of date.now (time_text moment) ≡ Some moment }
{
    let _ = moment_text(date, moment);
}

/// A message of the dealer's own is read back.
fn own_is_read_back(date: &Date, moment: Moment, message: &[u8])
    ensures { not (length message.now == 0) ≡ true
        → spec.ReadsAs date.now (Due.Own moment message.now) }
{
    time_is_read_back(date, moment);
}

/// A request that was shown is read back.
fn shown_is_read_back(date: &Date, ask: &Ask, moment: Moment)
    ensures { is_firm_name ask.now.investor ≡ true
        → spec.ReadsAs date.now (Due.Shown ask.now moment) }
{
    time_is_read_back(date, ask.deadline);
    time_is_read_back(date, moment);
    let _ = ask.bond.as_bytes();
    let _ = ask.quantity.get();
    let _ = ask.grid.get();
    price_is_read_back(ask.band.low);
    price_is_read_back(ask.band.high);
}

/// A price is read back.
fn price_is_read_back(price: Ticks)
    ensures most { price ≤ 255999 }
    ensures back { price_of (price_digits price) ≡ Ok price }
{
    let _ = price.get();
    let _ = price_text(price);
}

/// A lifting is read back.
fn lifted_is_read_back(date: &Date, quote: u32)
    ensures { spec.is_short quote ≡ true → spec.ReadsAs date.now (Due.Lifted quote) }
{
    let _ = date;
    let _ = quote;
}

/// A closing notice is read back.
fn closed_is_read_back(date: &Date, request: u64, close: Close, moment: Moment)
    ensures { spec.is_short request ≡ true
        → spec.ReadsAs date.now (Due.Closed request close moment) }
{
    let _ = request;
    let _ = close;
    time_is_read_back(date, moment);
}

/// A drop is read back.
fn drop_is_read_back(date: &Date, last: u32, moment: Moment)
    ensures { spec.is_short last ≡ true → spec.ReadsAs date.now (Due.Drop last moment) }
{
    let _ = last;
    time_is_read_back(date, moment);
}
