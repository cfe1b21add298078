//! A law: what is written of what was due to an investor is read back.
ghost use Rattle.std.specs.Prelude.{◌≡◌, ◌&&◌, ◌==◌, length, not, Ok, Some, true, IfSome};
ghost use Rattle.std.specs.List.{list_all};
ghost use Rattle.fix_fields.specs.TimeOfDay.{time_text};
ghost use Rattle.input_lines.specs.Lines.{time_of};
ghost use Rattle.investor_texts.specs.ReadBack as spec;
ghost use Rattle.venue_rows.specs.Texts.{is_firm_name};
ghost use Rattle.venue_text.specs.ReadBack.{is_short};

use bond_prices::{Ticks, price_text};
use fix_fields::{Date, Moment, moment_text};
use investor_dues::InvestorDue;
use market_terms::{Reply, ResponseRef};
use venue_rows::Name;

/// What is written of an investor's due list is read again as the same list, whatever lines stand
/// before it.
///
/// It ends at: the lines of what the investor sees, for which it is only tested; values that due
/// text can't say: a message of no byte, a dealer that is named as the venue or its clock, and a
/// number of more than nine digits. (`laws_dues::what_is_due_to_an_investor_can_be_said`: no
/// day that lines spell has them.)
pub fn what_was_due_to_an_investor_is_read_back(date: &Date, dues: &[InvestorDue])
    ensures { list_all spec.is_sayable dues.now ≡ true → spec.AreReadBack date.now dues.now }
{
    for due in dues {
        is_read_back(date, due);
    }
}

/// An item is read back.
fn is_read_back(date: &Date, due: &InvestorDue)
    ensures { spec.is_sayable due.now ≡ true → spec.ReadsAs date.now due.now }
{
    match due {
        InvestorDue::Own(moment, message) => own_is_read_back(date, message.as_bytes(), *moment),
        InvestorDue::Offered(request, dealer, price, valid_until, moment) => {
            quoted_is_read_back(date, *request, dealer, *price, *valid_until, *moment)
        }
        InvestorDue::Gone(request, quote, moment) => {
            gone_is_read_back(date, *request, *quote, *moment)
        }
        InvestorDue::Declined(request, dealer, moment) => {
            declined_is_read_back(date, *request, dealer, *moment)
        }
        InvestorDue::Answered(request, response, reply, moment) => {
            answered_is_read_back(date, *request, response, *reply, *moment)
        }
        InvestorDue::Expired(request, moment) => expired_is_read_back(date, *request, *moment),
    }
}

/// A time of day is read back.
fn time_is_read_back(date: &Date, moment: Moment)
    ensures { time_of date.now (time_text moment) ≡ Some moment }
{
    let _ = moment_text(date, moment);
}

/// The same where one is given.
fn until_is_read_back(date: &Date, until: Option<Moment>)
    ensures { IfSome until (λ moment. time_of date.now (time_text moment) ≡ Some moment) }
{
    let Some(moment) = until else {
        return;
    };
    time_is_read_back(date, moment);
}

/// A message of the investor's own is read back.
fn own_is_read_back(date: &Date, message: &[u8], moment: Moment)
    ensures { not (length message.now == 0) ≡ true
        → spec.ReadsAs date.now (InvestorDue.Own moment message.now) }
{
    time_is_read_back(date, moment);
}

/// A quote is read back.
fn quoted_is_read_back(
    date: &Date,
    request: u32,
    dealer: &Name,
    price: Ticks,
    valid_until: Option<Moment>,
    moment: Moment,
)
    ensures { (is_short request && is_firm_name dealer.now) ≡ true → spec.ReadsAs date.now
        (InvestorDue.Offered request dealer.now price valid_until moment) }
{
    let _ = request;
    let _ = dealer;
    let _ = price.get();
    let _ = price_text(price);
    until_is_read_back(date, valid_until);
    time_is_read_back(date, moment);
}

/// What takes a quote back is read back.
fn gone_is_read_back(date: &Date, request: u32, quote: u64, moment: Moment)
    ensures { (is_short request && is_short quote) ≡ true
        → spec.ReadsAs date.now (InvestorDue.Gone request quote moment) }
{
    let _ = request;
    let _ = quote;
    time_is_read_back(date, moment);
}

/// A decline is read back.
fn declined_is_read_back(date: &Date, request: u32, dealer: &Name, moment: Moment)
    ensures { (is_short request && is_firm_name dealer.now) ≡ true
        → spec.ReadsAs date.now (InvestorDue.Declined request dealer.now moment) }
{
    let _ = request;
    let _ = dealer;
    time_is_read_back(date, moment);
}

/// An answer is read back.
fn answered_is_read_back(
    date: &Date,
    request: u32,
    response: &ResponseRef,
    reply: Reply,
    moment: Moment,
)
    ensures { (is_short request && spec.is_short_if response.now.k) ≡ true
        → spec.ReadsAs date.now (InvestorDue.Answered request response.now reply moment) }
{
    let _ = request;
    let _ = response.id.as_bytes();
    let _ = reply;
    time_is_read_back(date, moment);
}

/// An expiry is read back.
fn expired_is_read_back(date: &Date, request: u32, moment: Moment)
    ensures { is_short request ≡ true
        → spec.ReadsAs date.now (InvestorDue.Expired request moment) }
{
    let _ = request;
    time_is_read_back(date, moment);
}
