//! The table itself.
ghost use Rattle.std.specs.Prelude.{◌≡◌};
ghost use Rattle.venue_steps.specs.Dealers.{dealer_of};
ghost use Rattle.venue_steps.specs.Placed as spec;

use crate::actors::Actor;
use crate::arrivals::{ForDealer, ForInvestor, ForRoom, Placement};
use crate::quote_words::word_of;
use bond_prices::Ticks;
use fix_fields::Moment;
use market_terms::{Duty, Offer, ResponseRef, RoomRef};
use venue_rows::VenueConfig;

/// Where a duty of an actor is done, and what comes to that place. It takes no memory.
// Inlined, so that a duty is not moved for it.
#[inline(always)]
pub fn placed(config: &VenueConfig, by: Actor, duty: Duty) -> Option<Placement>
    ensures { result ≡ spec.placed config.now by duty }
{
    match duty {
        Duty::Open {
            room,
            ask,
            dealers,
            moment,
        } => in_room(config, room, ForRoom::Open(ask, dealers, moment)),
        Duty::Show {
            dealer,
            room,
            ask,
            moment,
        } => at_dealer(config, dealer, ForDealer::Show(room, ask, moment)),
        Duty::Ready { room, moment } => in_room(config, room, ForRoom::Ready(moment)),
        Duty::Post {
            room,
            quote,
            price,
            valid_until,
            moment,
        } => posted(config, by, room, quote, price, valid_until, moment),
        Duty::Relay {
            room,
            offer,
            moment,
        } => at_investor(config, room, ForInvestor::Relay(room.n, offer, moment)),
        Duty::Unpost {
            room,
            quote,
            moment,
        } => unposted(config, by, room, quote, moment),
        Duty::Gone { room, word, moment } => {
            at_investor(config, room, ForInvestor::Gone(room.n, word, moment))
        }
        Duty::Decline { room, moment } => declines(config, by, room, moment),
        Duty::Declined { room, moment } => declined(config, by, room, moment),
        Duty::Hit {
            room,
            response,
            word,
            moment,
        } => hit_in(config, room, response, word, moment),
        Duty::Pass {
            room,
            response,
            moment,
        } => in_room(config, room, ForRoom::Pass(response, moment)),
        Duty::Answer {
            room,
            response,
            reply,
            moment,
        } => {
            let what = ForInvestor::Answer(room.n, response, reply, moment);
            at_investor(config, room, what)
        }
        Duty::Close { room, moment } => {
            at_investor(config, room, ForInvestor::Close(room.n, moment))
        }
        Duty::Tell {
            dealer,
            room,
            close,
            moment,
        } => at_dealer(config, dealer, ForDealer::Tell(room, close, moment)),
        Duty::Drop { last, moment } => drops(config, by, last, moment),
    }
}

/// Where a sweep comes. It takes no memory.
pub fn swept(config: &VenueConfig, room: RoomRef, moment: Moment) -> Option<Placement>
    ensures { result ≡ spec.swept config.now room moment }
{
    in_room(config, room, ForRoom::Expire(moment))
}

/// At the desk of a dealer.
fn at_dealer(config: &VenueConfig, firm: u16, what: ForDealer) -> Option<Placement>
    ensures { result ≡ spec.at_dealer config.now firm what }
{
    if config.dealer(firm).is_none() {
        return None;
    }
    Some(Placement::Dealer(firm, what))
}

/// At the desk of the investor whose room this is.
fn at_investor(config: &VenueConfig, room: RoomRef, what: ForInvestor) -> Option<Placement>
    ensures { result ≡ spec.at_investor config.now room.investor what }
{
    if config.investor(room.investor).is_none() {
        return None;
    }
    Some(Placement::Investor(room.investor, what))
}

/// In a room.
fn in_room(config: &VenueConfig, room: RoomRef, what: ForRoom) -> Option<Placement>
    ensures { result ≡ spec.in_room config.now room what }
{
    if !config.has_room(room.investor, room.n) {
        return None;
    }
    Some(Placement::Room(room, what))
}

/// In a room that is hit.
fn hit_in(
    config: &VenueConfig,
    room: RoomRef,
    response: ResponseRef,
    word: u32,
    moment: Moment,
) -> Option<Placement>
    ensures { result ≡ spec.hit_in config.now room response word moment }
{
    if !config.has_room(room.investor, room.n) {
        return None;
    }
    Some(Placement::Hit(room, response, word, moment))
}

/// A post of the acting dealer's quote.
fn posted(
    config: &VenueConfig,
    by: Actor,
    room: RoomRef,
    quote: u32,
    price: Ticks,
    valid_until: Option<Moment>,
    moment: Moment,
) -> Option<Placement>
    ensures { result ≡ spec.by_dealer config.now by
        (spec.posted config.now room quote price valid_until moment) }
{
    let Actor::Firm(dealer) = by else {
        return None;
    };
    let row = config.dealer(dealer)?;
    let word = word_of(config, dealer, quote)?;
    let offer = Offer {
        dealer: row.name.copy(),
        word,
        price,
        valid_until,
    };
    in_room(config, room, ForRoom::Post(dealer, offer, moment))
}

/// An unpost of the acting dealer's quote.
fn unposted(
    config: &VenueConfig,
    by: Actor,
    room: RoomRef,
    quote: u32,
    moment: Moment,
) -> Option<Placement>
    ensures { result ≡ spec.by_dealer config.now by (spec.unposted config.now room quote moment) }
{
    let Actor::Firm(dealer) = by else {
        return None;
    };
    let _row = config.dealer(dealer)?;
    let word = word_of(config, dealer, quote)?;
    in_room(config, room, ForRoom::Unpost(dealer, word, moment))
}

/// The acting dealer's decline of a request.
fn declines(config: &VenueConfig, by: Actor, room: RoomRef, moment: Moment) -> Option<Placement>
    ensures { result ≡ spec.by_dealer config.now by (spec.declines config.now room moment) }
{
    let Actor::Firm(dealer) = by else {
        return None;
    };
    let _row = config.dealer(dealer)?;
    in_room(config, room, ForRoom::Decline(dealer, moment))
}

/// What the investor is told of the acting dealer's decline.
fn declined(config: &VenueConfig, by: Actor, room: RoomRef, moment: Moment) -> Option<Placement>
    ensures { result ≡ spec.by_dealer config.now by (spec.declined config.now room moment) }
{
    let Actor::Firm(dealer) = by else {
        return None;
    };
    let row = config.dealer(dealer)?;
    let what = ForInvestor::Declined(room.n, row.name.copy(), moment);
    at_investor(config, room, what)
}

/// A drop of the acting dealer's next quote.
fn drops(config: &VenueConfig, by: Actor, last: u32, moment: Moment) -> Option<Placement>
    ensures { result ≡ spec.by_dealer config.now by (spec.drops last moment) }
{
    let Actor::Firm(dealer) = by else {
        return None;
    };
    let _row = config.dealer(dealer)?;
    Some(Placement::Drop(dealer, last, moment))
}
