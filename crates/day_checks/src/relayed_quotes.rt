//! Whether the quotes that took effect in each room came to its investor as they were posted.
ghost use Rattle.std.specs.Prelude.{◌≡◌, ◌∷◌, [], count_by, length, IfOk, IfNone, IfSome};
ghost use Rattle.std.specs.List.{filter_map, list_all};
ghost use Rattle.std.specs.Option.{option_copied};
ghost use Rattle.day_checks.specs.RelayedQuotes as spec;
ghost use Rattle.day_checks.specs.SweptRooms.{list_of};
ghost use Rattle.venue_rows.specs.Rows.{dealer_numbered};

use crate::arrivals::{Arrival, arrivals_by_room, arrivals_of, firms_are_few};
use crate::day_rooms::DayRoom;
use crate::room_outputs::{RoomOutput, outputs_of};
use fix_fields::{Memory, Moment};
use market_terms::{Offer, RoomRef};
use recorded_days::InvestorDay;
use request_room::PostedQuote;
use std::alloc::Global;
use std::collections::BTreeMap;
use venue_rows::{Name, VenueConfig};

/// The first room whose quotes did not come to its investor as they were posted: of each dealer
/// that its request names those that took effect, in the dealer's order, and no others. The rooms
/// are those of the day, each once, and the investors those of the venue. It fails for memory
/// alone.
pub(crate) fn relay_fault(
    alloc: Global,
    config: &VenueConfig,
    investors: &[InvestorDay],
    rooms: &[DayRoom],
) -> Result<Option<RoomRef>, Memory>
    requires { length investors.now ≡ length config.now.investors }
    ensures { IfOk result (λ fault. fault ≡ spec.first_unrelayed config.now
        (length config.now.dealers) investors.now rooms.now) }
{
    firms_are_few(config);
    let by_room = arrivals_by_room(alloc, config.dealer_count(), investors)?;
    let mut rest = rooms;
    while let Some((room, later)) = rest.split_first() {
        if !is_relayed(alloc, config, &by_room, room)? {
            return Ok(Some(room.at()));
        }
        rest = later;
    }
    Ok(None)
}

/// Whether the quotes of a room came to its investor as they were posted.
fn is_relayed(
    alloc: Global,
    config: &VenueConfig,
    by_room: &BTreeMap<RoomRef, Vec<Arrival>>,
    room: &DayRoom,
) -> Result<bool, Memory>
    ensures { IfOk result (λ relayed. relayed
        ≡ spec.is_relayed config.now (list_of by_room.now room.now.at) room.now) }
{
    let Some(outputs) = outputs_of(alloc, room.events())? else {
        return Ok(false);
    };
    let arrivals = arrivals_of(by_room, room.at());
    let relayed = are_relayed(config, room.dealers(), &outputs, arrivals);
    Ok(relayed)
}

/// Whether the quotes of these dealers that a room left came as they were posted, and no others.
fn are_relayed(
    config: &VenueConfig,
    dealers: &[u16],
    outputs: &[RoomOutput],
    arrivals: &[Arrival],
) -> bool
    ensures { result ≡ spec.are_relayed config.now dealers.now outputs.now arrivals.now }
{
    if count_left(outputs) != count_arrived(arrivals) {
        return false;
    }
    all_came_as_posted(config, dealers, outputs, arrivals)
}

/// How many quotes a room left.
fn count_left(outputs: &[RoomOutput]) -> usize
    ensures { result ≡ count_by spec.is_quote_left outputs.now }
{
    outputs
        .iter()
        .filter(|output| is_quote_left(output))
        .count()
}

/// Whether it is a quote that a room left.
fn is_quote_left(output: &RoomOutput) -> bool
    ensures { result ≡ spec.is_quote_left output.now }
{
    match output {
        RoomOutput::Quote(_) => true,
        RoomOutput::Reply(_) => false,
        RoomOutput::Expired(_) => false,
    }
}

/// How many quotes came.
fn count_arrived(arrivals: &[Arrival]) -> usize
    ensures { result ≡ count_by spec.is_quote_arrived arrivals.now }
{
    arrivals
        .iter()
        .filter(|arrival| is_quote_arrived(arrival))
        .count()
}

/// Whether it is a quote that came.
fn is_quote_arrived(arrival: &Arrival) -> bool
    ensures { result ≡ spec.is_quote_arrived arrival.now }
{
    match arrival {
        Arrival::Quote(_) => true,
        Arrival::Reply(_) => false,
        Arrival::Expired(_) => false,
    }
}

/// Whether the quotes of each of these dealers came as they were posted.
fn all_came_as_posted(
    config: &VenueConfig,
    dealers: &[u16],
    outputs: &[RoomOutput],
    arrivals: &[Arrival],
) -> bool
    ensures { result ≡ list_all (λ dealer. spec.came_as_posted dealer
        (dealer_numbered config.now dealer) outputs.now arrivals.now) dealers.now }
{
    dealers.iter().all(|dealer| came_as_posted(config, *dealer, outputs, arrivals))
}

/// Whether the quotes of the dealer with this number came as they were posted.
fn came_as_posted(
    config: &VenueConfig,
    dealer: u16,
    outputs: &[RoomOutput],
    arrivals: &[Arrival],
) -> bool
    ensures { result ≡ spec.came_as_posted dealer (dealer_numbered config.now dealer) outputs.now
        arrivals.now }
{
    let Some(row) = config.dealer(dealer) else {
        return false;
    };
    are_as_posted(dealer, &row.name, outputs, arrivals)
}

/// Whether the quotes of a dealer among these outputs are, one by one, those that came under this
/// name.
fn are_as_posted(dealer: u16, name: &Name, outputs: &[RoomOutput], arrivals: &[Arrival]) -> bool
    ensures { result ≡ spec.are_as_posted (filter_map (spec.quote_by dealer) outputs.now)
        (filter_map (spec.offer_under name.now) arrivals.now) }
{
    let mut outputs = outputs;
    let mut arrivals = arrivals;
    while let Some((output, later)) = outputs.split_first() {
        outputs = later;
        let Some(quote) = quote_by(dealer, output) else {
            continue;
        };
        let Some((offer, behind)) = next_under(name, arrivals) else {
            return false;
        };
        if !is_as_posted(&quote, offer) {
            return false;
        }
        arrivals = behind;
    }
    next_under(name, arrivals).is_none()
}

/// The quote that an output is, where it is one of this dealer.
fn quote_by(dealer: u16, output: &RoomOutput) -> Option<PostedQuote>
    ensures { result ≡ spec.quote_by dealer output.now }
{
    let RoomOutput::Quote(quote) = output else {
        return None;
    };
    if quote.posted.dealer != dealer {
        return None;
    }
    Some(quote.posted)
}

/// The next quote that came under this name, and what came behind it.
fn next_under<'a>(name: &Name, arrivals: &'a [Arrival]) -> Option<(&'a Offer, &'a [Arrival])>
    ensures none { IfNone result (filter_map (spec.offer_under name.now) arrivals.entry.now ≡ []) }
    ensures next { IfSome result (λ next.
        filter_map (spec.offer_under name.now) arrivals.entry.now
        ≡ next.0.now ∷ filter_map (spec.offer_under name.now) next.1.now) }
{
    let mut rest = arrivals;
    while let Some((arrival, later)) = rest.split_first() {
        rest = later;
        let Some(offer) = offer_under(name, arrival) else {
            continue;
        };
        return Some((offer, later));
    }
    None
}

/// The quote that came, where it came under this name.
fn offer_under<'a>(name: &Name, arrival: &'a Arrival) -> Option<&'a Offer>
    ensures { option_copied result ≡ spec.offer_under name.now arrival.entry.now }
{
    let Arrival::Quote(offer) = arrival else {
        return None;
    };
    if offer.dealer.as_bytes() != name.as_bytes() {
        return None;
    }
    Some(offer)
}

/// Whether a quote came as it was posted.
fn is_as_posted(quote: &PostedQuote, offer: &Offer) -> bool
    ensures { result ≡ spec.is_as_posted quote.now offer.now }
{
    if offer.word != quote.word {
        return false;
    }
    if offer.price != quote.price {
        return false;
    }
    same_until(offer.valid_until, quote.valid_until)
}

/// Whether two moments until which quotes are valid are the same, where there are any.
fn same_until(one: Option<Moment>, other: Option<Moment>) -> bool
    ensures { result ≡ spec.same_until one other }
{
    let Some(one) = one else {
        return other.is_none();
    };
    let Some(other) = other else {
        return false;
    };
    one == other
}
