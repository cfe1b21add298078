//! Whether two items of what is due to an investor are the same.
ghost use Rattle.std.specs.Prelude.{◌≡◌, ◌↔◌, IsTrue};

use crate::InvestorDue;
use bond_prices::Ticks;
use fix_fields::Moment;
use market_terms::{Reply, ResponseRef};
use venue_rows::Name;

/// Whether two items are the same.
pub fn is_same_due(one: &InvestorDue, other: &InvestorDue) -> bool
    ensures { IsTrue result ↔ (one.now ≡ other.now) }
{
    match one {
        InvestorDue::Own(moment, message) => is_own(*moment, message.as_bytes(), other),
        InvestorDue::Offered(request, dealer, price, valid_until, moment) => {
            is_quoted(*request, dealer, *price, *valid_until, *moment, other)
        }
        InvestorDue::Gone(request, quote, moment) => is_gone(*request, *quote, *moment, other),
        InvestorDue::Declined(request, dealer, moment) => {
            is_declined(*request, dealer, *moment, other)
        }
        InvestorDue::Answered(request, response, reply, moment) => {
            is_answered(*request, response, *reply, *moment, other)
        }
        InvestorDue::Expired(request, moment) => is_expired(*request, *moment, other),
    }
}

/// Whether an item is this quote.
fn is_quoted(
    request: u32,
    dealer: &Name,
    price: Ticks,
    valid_until: Option<Moment>,
    moment: Moment,
    due: &InvestorDue,
) -> bool
    ensures { IsTrue result
        ↔ (InvestorDue.Offered request dealer.now price valid_until moment ≡ due.now) }
{
    let InvestorDue::Offered(own_request, own_dealer, own_price, own_until, own_moment) = due else {
        return false;
    };
    if *own_request != request {
        return false;
    }
    if own_dealer.as_bytes() != dealer.as_bytes() {
        return false;
    }
    if own_price.get() != price.get() {
        return false;
    }
    if !is_same_time(*own_until, valid_until) {
        return false;
    }
    own_moment.get() == moment.get()
}

/// Whether two moments, where they are given, are one.
fn is_same_time(one: Option<Moment>, other: Option<Moment>) -> bool
    ensures { IsTrue result ↔ (one ≡ other) }
{
    let Some(moment) = one else {
        return other.is_none();
    };
    let Some(there) = other else {
        return false;
    };
    moment.get() == there.get()
}

/// Whether an item is this message.
fn is_own(moment: Moment, message: &[u8], due: &InvestorDue) -> bool
    ensures { IsTrue result ↔ (InvestorDue.Own moment message.now ≡ due.now) }
{
    let InvestorDue::Own(own_moment, own_message) = due else {
        return false;
    };
    if own_message.as_bytes() != message {
        return false;
    }
    own_moment.get() == moment.get()
}

/// Whether an item takes this quote back.
fn is_gone(request: u32, quote: u64, moment: Moment, due: &InvestorDue) -> bool
    ensures { IsTrue result ↔ (InvestorDue.Gone request quote moment ≡ due.now) }
{
    let InvestorDue::Gone(own_request, own_quote, own_moment) = due else {
        return false;
    };
    if *own_request != request {
        return false;
    }
    if *own_quote != quote {
        return false;
    }
    own_moment.get() == moment.get()
}

/// Whether an item is this decline.
fn is_declined(request: u32, dealer: &Name, moment: Moment, due: &InvestorDue) -> bool
    ensures { IsTrue result ↔ (InvestorDue.Declined request dealer.now moment ≡ due.now) }
{
    let InvestorDue::Declined(own_request, own_dealer, own_moment) = due else {
        return false;
    };
    if own_dealer.as_bytes() != dealer.as_bytes() {
        return false;
    }
    if *own_request != request {
        return false;
    }
    own_moment.get() == moment.get()
}

/// Whether an item is this answer.
fn is_answered(
    request: u32,
    response: &ResponseRef,
    reply: Reply,
    moment: Moment,
    due: &InvestorDue,
) -> bool
    ensures { IsTrue result
        ↔ (InvestorDue.Answered request response.now reply moment ≡ due.now) }
{
    let InvestorDue::Answered(own_request, own_response, own_reply, own_moment) = due else {
        return false;
    };
    if *own_request != request {
        return false;
    }
    if !is_same_response(response, own_response) {
        return false;
    }
    if *own_reply != reply {
        return false;
    }
    own_moment.get() == moment.get()
}

/// Whether two responses are one.
fn is_same_response(one: &ResponseRef, other: &ResponseRef) -> bool
    ensures { IsTrue result ↔ (one.now ≡ other.now) }
{
    if one.id.as_bytes() != other.id.as_bytes() {
        return false;
    }
    is_same_number(one.k, other.k)
}

/// Whether two numbers, where they are given, are one.
fn is_same_number(one: Option<u64>, other: Option<u64>) -> bool
    ensures { IsTrue result ↔ (one ≡ other) }
{
    one == other
}

/// Whether an item is this expiry.
fn is_expired(request: u32, moment: Moment, due: &InvestorDue) -> bool
    ensures { IsTrue result ↔ (InvestorDue.Expired request moment ≡ due.now) }
{
    let InvestorDue::Expired(own_request, own_moment) = due else {
        return false;
    };
    if *own_request != request {
        return false;
    }
    own_moment.get() == moment.get()
}
