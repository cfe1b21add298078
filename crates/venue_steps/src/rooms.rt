//! The steps in a room before it ends.
ghost use Rattle.std.specs.Prelude.{◌≡◌, ◌<◌, ◌≤◌, [], length, IfOk, OnOk, OnErr, vec_len, vec_capacity};
ghost use Rattle.request_room.specs.RoomFacts.{hears, is_opening};
ghost use Rattle.request_room.specs.Book.{room_after};
ghost use Rattle.request_room.specs.declared.events.RoomEvent.TheVariants as event;
ghost use Rattle.venue_steps.specs.RoomSteps as spec;

use crate::Duties;
use fix_fields::{Memory, Moment};
use market_terms::{Ask, AskedDealers, Duty, Offer, RoomRef};
use request_room::Room;
use std::alloc::Global;

/// The room of an accepted request is opened. Each named dealer is shown the request, in the
/// request's order, and then the room is made ready. Where the room is not vacant nothing changes.
/// It fails for memory alone, and then the room is as before.
pub fn do_open(
    room: &mut Room,
    at: RoomRef,
    ask: Ask,
    dealers: AskedDealers,
    moment: Moment,
) -> Result<Duties, Memory>
    ensures ok { OnOk result (room.new ≡ spec.room_after_open room.old ask dealers) }
    ensures duties { IfOk result (λ duties. duties.items ≡
        spec.duties_of_open (room_after room.old) at ask dealers moment) }
    ensures few { IfOk result (λ duties. length duties.items ≤ 9) }
    ensures err { OnErr result (room.new ≡ room.old) }
{
    if !room.is_vacant() {
        return Ok(Duties::new(room.alloc()));
    }
    let duties = shown_then_ready(room.alloc(), at, &ask, &dealers, moment)?;
    room.open(ask, dealers)?;
    Ok(duties)
}

/// What an opening leaves.
fn shown_then_ready(
    alloc: Global,
    at: RoomRef,
    ask: &Ask,
    dealers: &AskedDealers,
    moment: Moment,
) -> Result<Duties, Memory>
    ensures items { IfOk result (λ duties.
        duties.items ≡ spec.shown_then_ready at ask.now dealers.now moment) }
    ensures few { IfOk result (λ duties. length duties.items ≤ 9) }
{
    let named = dealers.as_slice();
    let mut duties = Duties::with_capacity(alloc, named.len() + 1)?;
    for dealer in named {
        duties.push(Duty::Show {
            dealer: *dealer,
            room: at,
            ask: ask.copy(),
            moment,
        })?;
    }
    duties.push(Duty::Ready { room: at, moment })?;
    Ok(duties)
}

/// Each named dealer was shown the request: an opening room is open from now on. Elsewhere nothing
/// changes. Nothing follows. It fails for memory alone, and then the room is as before.
pub fn do_ready(room: &mut Room) -> Result<Duties, Memory>
    ensures ok { OnOk result (room.new
        ≡ spec.where_done (is_opening (room_after room.old)) room.old event.Ready) }
    ensures duties { IfOk result (λ duties. duties.items ≡ []) }
    ensures err { OnErr result (room.new ≡ room.old) }
{
    if !room.is_opening() {
        return Ok(Duties::new(room.alloc()));
    }
    room.ready()?;
    Ok(Duties::new(room.alloc()))
}

/// A quote of a dealer, by its number among the firms, is posted in the room of its request, and
/// relayed to the investor where that takes effect. A dealer that the request does not name changes
/// nothing. It fails for memory alone, and then the room is as before.
pub fn do_post(
    room: &mut Room,
    at: RoomRef,
    dealer: u16,
    offer: Offer,
    moment: Moment,
) -> Result<Duties, Memory>
    ensures ok { OnOk result (room.new
        ≡ spec.where_done (hears (room_after room.old) dealer) room.old
        (event.Post dealer offer.word offer.price offer.valid_until)) }
    ensures duties { IfOk result (λ duties. duties.items ≡
        spec.duties_of_post (room_after room.old) at dealer offer moment) }
    ensures few { IfOk result (λ duties. length duties.items ≤ 9) }
    ensures err { OnErr result (room.new ≡ room.old) }
{
    if !hears_dealer(room, dealer) {
        return Ok(Duties::new(room.alloc()));
    }
    let duties = Duties::with_capacity(room.alloc(), 1)?;
    let posted = room.post(dealer, offer.word, offer.price, offer.valid_until)?;
    let relay = Duty::Relay {
        room: at,
        offer,
        moment,
    };
    Ok(left_if(duties, posted, relay))
}

/// A withdrawn quote of a dealer is taken out of the room of its request, and the investor is told
/// so where that takes effect. A dealer that the request does not name changes nothing. It fails
/// for memory alone, and then the room is as before.
pub fn do_unpost(
    room: &mut Room,
    at: RoomRef,
    dealer: u16,
    word: u32,
    moment: Moment,
) -> Result<Duties, Memory>
    ensures ok { OnOk result (room.new
        ≡ spec.where_done (hears (room_after room.old) dealer) room.old
        (event.Unpost dealer word)) }
    ensures duties { IfOk result (λ duties. duties.items ≡
        spec.duties_of_unpost (room_after room.old) at dealer word moment) }
    ensures few { IfOk result (λ duties. length duties.items ≤ 9) }
    ensures err { OnErr result (room.new ≡ room.old) }
{
    if !hears_dealer(room, dealer) {
        return Ok(Duties::new(room.alloc()));
    }
    let duties = Duties::with_capacity(room.alloc(), 1)?;
    let taken = room.unpost(dealer, word)?;
    let gone = Duty::Gone {
        room: at,
        word,
        moment,
    };
    Ok(left_if(duties, taken, gone))
}

/// A decline of a dealer is noted in the room of its request, and the investor is told so where
/// that takes effect. A dealer that the request does not name changes nothing. It fails for memory
/// alone, and then the room is as before.
pub fn do_decline(
    room: &mut Room,
    at: RoomRef,
    dealer: u16,
    moment: Moment,
) -> Result<Duties, Memory>
    ensures ok { OnOk result (room.new
        ≡ spec.where_done (hears (room_after room.old) dealer) room.old
        (event.Decline dealer)) }
    ensures duties { IfOk result (λ duties. duties.items ≡
        spec.duties_of_decline (room_after room.old) at dealer moment) }
    ensures few { IfOk result (λ duties. length duties.items ≤ 9) }
    ensures err { OnErr result (room.new ≡ room.old) }
{
    if !hears_dealer(room, dealer) {
        return Ok(Duties::new(room.alloc()));
    }
    let duties = Duties::with_capacity(room.alloc(), 1)?;
    let noted = room.decline(dealer)?;
    let declined = Duty::Declined { room: at, moment };
    Ok(left_if(duties, noted, declined))
}

/// Whether a room hears a dealer.
fn hears_dealer(room: &Room, dealer: u16) -> bool
    ensures { result ≡ hears (room_after room.now) dealer }
{
    room.is_vacant() || room.named(dealer)
}

/// One duty, where it follows, in a list with room for it.
fn left_if(mut duties: Duties, follows: bool, duty: Duty) -> Duties
    requires none { duties.items ≡ [] }
    requires room { vec_len duties < vec_capacity duties }
    ensures items { result.items ≡ spec.where_follows follows duty }
    ensures few { length result.items ≤ 1 }
{
    if !follows {
        return duties;
    }
    duties.push_reserved(duty);
    duties
}
