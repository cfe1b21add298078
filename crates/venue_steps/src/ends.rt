//! The steps that may end a room.
ghost use Rattle.std.specs.Prelude.{◌≡◌, ◌≤◌, ◌∷◌, [], ◌++◌, length, IfOk, OnOk, OnErr};
ghost use Rattle.std.specs.Prelude.{if◌then◌else◌, vec_capacity};
ghost use Rattle.request_room.specs.Book.{room_after};
ghost use Rattle.request_room.specs.declared.events.RoomEvent.TheVariants as event;
ghost use Rattle.venue_steps.specs.RoomSteps as spec;
ghost use Rattle.venue_steps.specs.Words.{AsksAtMost, settlement_in, has_word, word_to_ask};

use crate::Duties;
use crate::words::ask;
use fix_fields::{Memory, Moment};
use market_terms::{Close, Duty, HitRefusal, Reply, ResponseRef, RoomRef};
use quote_word::{Settled, Words};
use request_room::{End, EndKind, Room};

/// How many duties a step leaves at most.
const MOST_DUTIES: usize = 9;

/// The investor hits the quote with this word. Where no check of the room refuses it, the word is
/// lifted where it is open, and a lifted word awards the request. What follows is the reply to the
/// investor and then, where the hit awards, each named dealer is told how it ended for it.
///
/// Where the row has no such word nothing changes. It fails for memory alone: then the room is as
/// before, and the word was asked.
pub fn do_hit<W: Words>(
    room: &mut Room,
    words: &mut W,
    at: RoomRef,
    response: ResponseRef,
    word: u32,
    moment: Moment,
) -> Result<Duties, Memory>
    ensures words { AsksAtMost W.settles W.entry words.old
        (word_to_ask (W.count words.old) (spec.hit_word (room_after room.old) word moment))
        Settled.Lifted words.new }
    ensures ok { OnOk result (room.new ≡ spec.where_done
        (has_word (W.count words.old) (spec.hit_word (room_after room.old) word moment)) room.old
        (event.Hit word moment
        (settlement_in (W.entry words.new) (spec.hit_word (room_after room.old) word moment)))) }
    ensures duties { IfOk result (λ duties. duties.items ≡
        spec.duties_of_hit (room_after room.old) at response word moment
        (has_word (W.count words.old) (spec.hit_word (room_after room.old) word moment))
        (settlement_in (W.entry words.new) (spec.hit_word (room_after room.old) word moment))) }
    ensures few { IfOk result (λ duties. length duties.items ≤ 9) }
    ensures err { OnErr result (room.new ≡ room.old) }
{
    let asked = word_of_hit(room, word, moment);
    let Some(settlement) = ask(words, asked, Settled::Lifted) else {
        return Ok(Duties::new(room.alloc()));
    };
    let duties = room_for_told(room)?;
    let reply = room.hit(word, moment, settlement)?;
    let answered = Duty::Answer {
        room: at,
        response,
        reply,
        moment,
    };
    Ok(with_told(duties, answered, is_award(reply), room, at, moment))
}

/// The word that a hit asks, where no check of the room refuses it before.
fn word_of_hit(room: &Room, word: u32, moment: Moment) -> Option<u64>
    ensures { result ≡ spec.hit_word (room_after room.now) word moment }
{
    let asked = room.question_hit(word, moment).ok()?;
    Some(u64::from(asked))
}

/// Whether a reply says that the request is awarded.
fn is_award(reply: Reply) -> bool
    ensures { result ≡ spec.is_award reply }
{
    matches!(reply, Reply::Awarded)
}

/// The investor passes its request, which ends an open room. What follows is the reply to the
/// investor and then, where the room ended, each named dealer is told so. It fails for memory
/// alone, and then the room is as before.
pub fn do_pass(
    room: &mut Room,
    at: RoomRef,
    response: ResponseRef,
    moment: Moment,
) -> Result<Duties, Memory>
    ensures ok { OnOk result (room.new ≡ room.old ++ event.Pass moment ∷ []) }
    ensures duties { IfOk result (λ duties. duties.items ≡
        spec.duties_of_pass (room_after room.old) at response moment) }
    ensures few { IfOk result (λ duties. length duties.items ≤ 9) }
    ensures err { OnErr result (room.new ≡ room.old) }
{
    let duties = room_for_told(room)?;
    let passed = room.pass(moment)?;
    let answered = Duty::Answer {
        room: at,
        response,
        reply: reply_to_pass(passed),
        moment,
    };
    Ok(with_told(duties, answered, passed, room, at, moment))
}

/// The room's reply to a pass.
fn reply_to_pass(passed: bool) -> Reply
    ensures { result ≡ spec.reply_to_pass passed }
{
    if !passed {
        return Reply::Refused(HitRefusal::NotOpen);
    }
    Reply::Passed
}

/// A sweep of a room, which ends it where it is open and its deadline has come. What follows then
/// is that the investor is told, and each named dealer; they are duties of the clock. It fails for
/// memory alone, and then the room is as before.
pub fn do_expire(room: &mut Room, at: RoomRef, moment: Moment) -> Result<Duties, Memory>
    ensures ok { OnOk result (room.new ≡ room.old ++ event.Expire moment ∷ []) }
    ensures duties { IfOk result (λ duties. duties.items ≡
        spec.duties_of_expire (room_after room.old) at moment) }
    ensures few { IfOk result (λ duties. length duties.items ≤ 9) }
    ensures err { OnErr result (room.new ≡ room.old) }
{
    let duties = room_for_told(room)?;
    let ended = room.expire(moment)?;
    if !ended {
        return Ok(duties);
    }
    let closed = Duty::Close { room: at, moment };
    Ok(with_told(duties, closed, true, room, at, moment))
}

/// An empty list with room for a duty and, where the room ends, for those that tell each named
/// dealer so.
fn room_for_told(room: &Room) -> Result<Duties, Memory>
    ensures none { IfOk result (λ duties. duties.items ≡ []) }
    ensures room { IfOk result (λ duties. MOST_DUTIES ≤ vec_capacity duties) }
{
    let duties = Duties::with_capacity(room.alloc(), MOST_DUTIES)?;
    Ok(duties)
}

/// A duty and, where the room has just ended, those that tell each named dealer so.
fn with_told(
    mut duties: Duties,
    first: Duty,
    ended: bool,
    room: &Room,
    at: RoomRef,
    moment: Moment,
) -> Duties
    requires none { duties.items ≡ [] }
    requires room { MOST_DUTIES ≤ vec_capacity duties }
    ensures items { result.items ≡ first ∷ (if ended
        then spec.told_of_end (room_after room.now) at moment else []) }
    ensures few { length result.items ≤ 9 }
{
    duties.push_reserved(first);
    if !ended {
        return duties;
    }
    let Some(end) = room.end() else {
        return duties;
    };
    let Some(request) = room.request() else {
        return duties;
    };
    tell_each(&mut duties, at, &end, request.dealers.as_slice(), moment);
    duties
}

/// Puts behind a duty, for each of at most 8 dealers, that it is told how a request ended for it.
fn tell_each(duties: &mut Duties, at: RoomRef, end: &End, dealers: &[u16], moment: Moment)
    requires one { length duties.old.items ≤ 1 }
    requires few { length dealers.now ≤ 8 }
    requires room { MOST_DUTIES ≤ vec_capacity duties.old }
    ensures items { duties.new.items
        ≡ duties.old.items ++ spec.told_to_each at end.now dealers.now moment }
    ensures few { length duties.new.items ≤ 9 }
{
    for dealer in dealers {
        duties.push_reserved(Duty::Tell {
            dealer: *dealer,
            room: at,
            close: close_for(end, *dealer),
            moment,
        });
    }
}

/// How a request ended for a dealer, as it is told: it won (QuoteRespType 694=1), its quote is the
/// cover (4), it was done away (5), the investor passed (6), or the request expired (3).
pub fn close_for(end: &End, dealer: u16) -> Close
    ensures { result ≡ spec.close_for end.now dealer }
{
    match end.kind {
        EndKind::Awarded => close_at_award(end, dealer),
        EndKind::Passed => Close::Pass,
        EndKind::Expired => Close::Expired,
    }
}

/// How an award ended for a dealer.
fn close_at_award(end: &End, dealer: u16) -> Close
    ensures { result ≡ spec.close_at_award end.now dealer }
{
    if is_winner(end, dealer) {
        return Close::Hit;
    }
    if end.cover == Some(dealer) {
        return Close::Cover;
    }
    Close::DoneAway
}

/// Whether a dealer won.
fn is_winner(end: &End, dealer: u16) -> bool
    ensures { result ≡ spec.is_winner end.now.winner dealer }
{
    let Some((winner, _)) = end.winner else {
        return false;
    };
    winner == dealer
}
