//! Whether two items of what is due are the same.
ghost use Rattle.std.specs.Prelude.{◌≡◌, ◌↔◌, IsTrue};

use fix_fields::Moment;
use quote_messages::{Ask, Close};
use step_replay::Due;

/// Whether two items are the same.
pub(crate) fn is_same_due(one: &Due, other: &Due) -> bool
    ensures { IsTrue result ↔ (one.now ≡ other.now) }
{
    match one {
        Due::Own(moment, message) => is_own(other, *moment, message.as_bytes()),
        Due::Shown(ask, moment) => is_shown(other, ask, *moment),
        Due::Lifted(quote) => is_lifted(other, *quote),
        Due::Closed(request, close, moment) => is_closed(other, *request, *close, *moment),
        Due::Drop(last, moment) => is_drop(other, *last, *moment),
    }
}

/// Whether an item is this message.
fn is_own(due: &Due, moment: Moment, message: &[u8]) -> bool
    ensures { IsTrue result ↔ (Due.Own moment message.now ≡ due.now) }
{
    let Due::Own(own_moment, own_message) = due else {
        return false;
    };
    if own_moment.get() != moment.get() {
        return false;
    }
    own_message.as_bytes() == message
}

/// Whether an item is this request.
fn is_shown(due: &Due, ask: &Ask, moment: Moment) -> bool
    ensures { IsTrue result ↔ (Due.Shown ask.now moment ≡ due.now) }
{
    let Due::Shown(own_ask, own_moment) = due else {
        return false;
    };
    if own_moment.get() != moment.get() {
        return false;
    }
    is_same_ask(ask, own_ask)
}

/// Whether an item is the lifting of this quote.
fn is_lifted(due: &Due, quote: u32) -> bool
    ensures { IsTrue result ↔ (Due.Lifted quote ≡ due.now) }
{
    let Due::Lifted(own) = due else {
        return false;
    };
    *own == quote
}

/// Whether an item is this notice.
fn is_closed(due: &Due, request: u64, close: Close, moment: Moment) -> bool
    ensures { IsTrue result ↔ (Due.Closed request close moment ≡ due.now) }
{
    let Due::Closed(own_request, own_close, own_moment) = due else {
        return false;
    };
    if *own_request != request {
        return false;
    }
    if own_moment.get() != moment.get() {
        return false;
    }
    *own_close == close
}

/// Whether an item is this drop.
fn is_drop(due: &Due, last: u32, moment: Moment) -> bool
    ensures { IsTrue result ↔ (Due.Drop last moment ≡ due.now) }
{
    let Due::Drop(own_last, own_moment) = due else {
        return false;
    };
    if own_moment.get() != moment.get() {
        return false;
    }
    *own_last == last
}

/// Whether two requests ask for the same.
fn is_same_ask(one: &Ask, other: &Ask) -> bool
    ensures { IsTrue result ↔ (one.now ≡ other.now) }
{
    if one.investor.as_bytes() != other.investor.as_bytes() {
        return false;
    }
    if one.bond.as_bytes() != other.bond.as_bytes() {
        return false;
    }
    if one.side != other.side {
        return false;
    }
    if one.quantity.get() != other.quantity.get() {
        return false;
    }
    if one.deadline.get() != other.deadline.get() {
        return false;
    }
    if one.grid.get() != other.grid.get() {
        return false;
    }
    one.band.is_same(other.band)
}
