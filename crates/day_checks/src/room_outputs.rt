//! What quotes and replies a room leaves for the desk of its investor, and whether it expired. A
//! room keeps no list of that, so what was tried in it is tried in a room once more.
ghost use Rattle.std.specs.Prelude.{◌≡◌, [], ◌∷◌, ◌++◌, IfOk, IsTrue, OnOk};
ghost use Rattle.std.specs.Option.{option_map};
ghost use Rattle.request_room.specs.Book.{hit_question, quote_posted, room_after};
ghost use Rattle.request_room.specs.RoomFacts as facts;
ghost use Rattle.day_checks.specs.NextItems.{with_next};
ghost use Rattle.day_checks.specs.RoomOutputs as spec;
ghost use Rattle.venue_steps.specs.RoomSteps.{reply_to_pass};

use bond_prices::Ticks;
use fix_fields::{Memory, Moment};
use market_terms::{HitRefusal, Reply};
use quote_word::Settled;
use request_room::{PostedQuote, Room, RoomEvent, RoomRequest, facts_after_one_event_more};
use std::alloc::Global;

/// A quote that took effect.
#[derive(Clone, Copy)]
pub(crate) struct RoomQuote {
    /// As it was posted.
    pub(crate) posted: PostedQuote,
}

/// A reply to a hit or a pass.
#[derive(Clone, Copy)]
pub(crate) struct RoomReply {
    /// Whether it is one to a hit.
    pub(crate) to_hit: bool,
    /// The moment of the response.
    pub(crate) moment: Moment,
    /// What the room decided.
    pub(crate) reply: Reply,
}

/// What an event in a room leaves for the desk of its investor.
#[derive(Clone, Copy)]
pub(crate) enum RoomOutput {
    /// A quote took effect.
    Quote(RoomQuote),
    /// A hit or a pass was decided.
    Reply(RoomReply),
    /// A sweep at this moment ended the room.
    Expired(Moment),
}

/// What these events in a room leave for its investor, in their order: none where one of them may
/// not be tried in the room as it then is.
pub(crate) fn outputs_of(
    alloc: Global,
    events: &[RoomEvent],
) -> Result<Option<Vec<RoomOutput>>, Memory>
    ensures { IfOk result (λ outputs.
        option_map (λ all. all.items) outputs ≡ spec.outputs_of events.now) }
{
    facts_after_one_event_more();
    let mut room = Room::vacant(alloc);
    let mut outputs = Vec::new(alloc);
    let mut rest = events;
    while let Some((event, later)) = rest.split_first() {
        if !may_be_tried(&room, event) {
            return Ok(None);
        }
        try_event(&mut room, &mut outputs, event)?;
        rest = later;
    }
    Ok(Some(outputs))
}

/// Whether an event may be tried in a room.
fn may_be_tried(room: &Room, event: &RoomEvent) -> bool
    ensures { result ≡ spec.may_be_tried (room_after room.now) event.now }
{
    match event {
        RoomEvent::Open(_) => room.is_vacant(),
        RoomEvent::Ready => room.is_opening(),
        RoomEvent::Post { dealer, .. } => hears(room, *dealer),
        RoomEvent::Unpost { dealer, .. } => hears(room, *dealer),
        RoomEvent::Decline { dealer } => hears(room, *dealer),
        RoomEvent::Hit {
            word,
            moment,
            settlement,
        } => is_settled_as_asked(room, *word, *moment, *settlement),
        RoomEvent::Pass { .. } => true,
        RoomEvent::Expire { .. } => true,
    }
}

/// Whether a room hears a dealer.
fn hears(room: &Room, dealer: u16) -> bool
    ensures { result ≡ facts.hears (room_after room.now) dealer }
{
    room.is_vacant() || room.named(dealer)
}

/// Whether a hit has the settlement of its word exactly where it asks the word.
fn is_settled_as_asked(room: &Room, word: u32, moment: Moment, settlement: Option<Settled>) -> bool
    ensures { result
        ≡ spec.is_settled_as_asked (hit_question (room_after room.now) word moment) settlement }
{
    if room.question_hit(word, moment).is_ok() {
        return settlement.is_some();
    }
    settlement.is_none()
}

/// Tries an event in a room, and puts what it leaves for the room's investor behind the others.
#[tactic(auto, using(crate::proofs::OutputLemmas::settled_is_asked))]
fn try_event(
    room: &mut Room,
    outputs: &mut Vec<RoomOutput>,
    event: &RoomEvent,
) -> Result<(), Memory>
    requires { IsTrue (spec.may_be_tried (room_after room.old) event.now) }
    ensures room { OnOk result (room.new ≡ room.old ++ event.now ∷ []) }
    ensures outputs { OnOk result (outputs.new.items
        ≡ with_next outputs.old.items (spec.output_of (room_after room.old) event.now)) }
{
    match event {
        RoomEvent::Open(kept) => try_open(room, kept.request()),
        RoomEvent::Ready => room.ready(),
        RoomEvent::Post {
            dealer,
            word,
            price,
            valid_until,
        } => {
            let takes_effect = room.post(*dealer, *word, *price, *valid_until)?;
            if !takes_effect {
                return Ok(());
            }
            let posted = quote_posted(*dealer, *word, *price, *valid_until);
            push_behind(outputs, RoomOutput::Quote(RoomQuote { posted }))
        }
        RoomEvent::Unpost { dealer, word } => try_unpost(room, *dealer, *word),
        RoomEvent::Decline { dealer } => try_decline(room, *dealer),
        RoomEvent::Hit {
            word,
            moment,
            settlement,
        } => {
            let reply = room.hit(*word, *moment, *settlement)?;
            push_behind(outputs, RoomOutput::Reply(reply_at(true, *moment, reply)))
        }
        RoomEvent::Pass { moment } => {
            let reply = pass_reply(room.pass(*moment)?);
            push_behind(outputs, RoomOutput::Reply(reply_at(false, *moment, reply)))
        }
        RoomEvent::Expire { moment } => {
            let ended = room.expire(*moment)?;
            if !ended {
                return Ok(());
            }
            push_behind(outputs, RoomOutput::Expired(*moment))
        }
    }
}

/// Tries an opening, which leaves nothing.
fn try_open(room: &mut Room, request: &RoomRequest) -> Result<(), Memory>
    requires { IsTrue (facts.is_vacant (room_after room.old)) }
    ensures { OnOk result (room.new ≡ room.old ++ RoomEvent.Open request.now ∷ []) }
{
    room.open(request.ask.copy(), request.dealers.copy())?;
    Ok(())
}

/// Tries an unpost, which leaves nothing here.
fn try_unpost(room: &mut Room, dealer: u16, word: u32) -> Result<(), Memory>
    requires { IsTrue (facts.hears (room_after room.old) dealer) }
    ensures { OnOk result (room.new ≡ room.old ++ RoomEvent.Unpost dealer word ∷ []) }
{
    room.unpost(dealer, word)?;
    Ok(())
}

/// Tries a decline, which leaves nothing here.
fn try_decline(room: &mut Room, dealer: u16) -> Result<(), Memory>
    requires { IsTrue (facts.hears (room_after room.old) dealer) }
    ensures { OnOk result (room.new ≡ room.old ++ RoomEvent.Decline dealer ∷ []) }
{
    room.decline(dealer)?;
    Ok(())
}

/// A quote as it stands once it is posted.
fn quote_posted(dealer: u16, word: u32, price: Ticks, valid_until: Option<Moment>) -> PostedQuote
    ensures { result ≡ quote_posted dealer word price valid_until }
{
    PostedQuote {
        dealer,
        word,
        price,
        valid_until,
    }
}

/// A reply at the moment of its response.
fn reply_at(to_hit: bool, moment: Moment, reply: Reply) -> RoomReply
    ensures { result ≡ record { to_hit = to_hit; moment = moment; reply = reply } }
{
    RoomReply {
        to_hit,
        moment,
        reply,
    }
}

/// The reply to a pass that ended its room, or did not.
fn pass_reply(ended: bool) -> Reply
    ensures { result ≡ reply_to_pass ended }
{
    if ended {
        return Reply::Passed;
    }
    Reply::Refused(HitRefusal::NotOpen)
}

/// Puts an item behind the others.
fn push_behind<T: Drop>(items: &mut Vec<T>, item: T) -> Result<(), Memory>
    ensures { OnOk result (items.new.items ≡ items.old.items ++ item ∷ []) }
{
    items.push(item)?;
    Ok(())
}
