//! What lies under the locks after the joins, as the record of the day has it.
ghost use Rattle.std.specs.Prelude.{◌≡◌, ◌<◌, ◌+◌, ◌^◌, [], ◌++◌, length, map, IfErr, IfOk, OnOk};
ghost use mathlib.Core.List.{IsPrefix};
ghost use Rattle.quote_word.specs.SettleLog.{IsLegal};
ghost use Rattle.session_worker.specs.Locks.{IsInboxAmong};
ghost use Rattle.day_checks.specs.KeptDays.{DealersKeep, DealersStand, InvestorsKeep};
ghost use Rattle.day_checks.specs.KeptDays.{RoomsStand, names_by, names_from, names_of};

use crate::dealers::LockedDealer;
use crate::naming::Naming;
use crate::rooms::LockedRoom;
use crate::venue::InvestorPlace;
use crate::watched::VenueBoard;
use day_checks::{DayFault, DayRoom};
use market_terms::RoomRef;
use quote_word::BoardSeen;
use recorded_days::{Action, DealerDay, Inbound, InvestorDay};
use std::alloc::Global;
use std::sync::Mutex;

/// What a session leaves: the messages that came to it, and what the firm did.
#[derive(Drop)]
pub(crate) struct Session {
    pub(crate) inbox: Vec<Inbound>,
    pub(crate) actions: Vec<Action>,
}

/// The days of the dealers, and a token that is later than those of all their locks. The fault is
/// the first dealer whose desk is another's, or whose own events are not its inbox.
pub(crate) fn dealer_days<J: Naming>(
    alloc: Global,
    board: &VenueBoard,
    seen: BoardSeen,
    places: Vec<Mutex<LockedDealer<J>>>,
    sessions: Vec<Session>,
) -> Result<(Vec<DealerDay>, BoardSeen), DayFault>
    requires board { board.now ≡ J.board }
    requires seen { seen.board ≡ J.board }
    requires legal { IsLegal seen.log }
    requires sessions { length sessions.items ≡ length places.items }
    ensures seen { IfOk result (λ days. days.1.board ≡ J.board) }
    ensures legal { IfOk result (λ days. IsLegal days.1.log) }
    ensures keep { IfOk result (λ days. DealersKeep J.config days.0.items) }
    ensures stand { IfOk result (λ days. DealersStand J.config days.1.log days.0.items) }
    ensures inboxes { IfOk result (λ days. map (λ day. day.inbox) days.0.items
        ≡ map (λ session. session.inbox.items) sessions.items) }
    ensures among { IfErr result (IsInboxAmong 0 (length places.items)) }
{
    let mut days = Vec::with_capacity(alloc, places.len())?;
    let mut seen = seen;
    for (place, session) in places.into_iter().zip(sessions) {
        let locked = place.into_inner();
        seen = board.both(seen, locked.seen());
        let day = locked.day_at(days.len(), session)?;
        days.push(day)?;
    }
    Ok((days, seen))
}

/// The days of the investors, still without their rooms, which stand in a list of all rooms; and a
/// token that is later than those of all rooms. The fault is the first investor whose desk is
/// another's, whose own events are not its inbox, which was answered what its messages did not
/// leave, or with a room that is another request's.
pub(crate) fn investor_days<J: Naming>(
    alloc: Global,
    board: &VenueBoard,
    seen: BoardSeen,
    first: u16,
    places: Vec<InvestorPlace<J>>,
    sessions: Vec<Session>,
    all: &mut Vec<DayRoom>,
) -> Result<(Vec<InvestorDay>, BoardSeen), DayFault>
    requires board { board.now ≡ J.board }
    requires seen { seen.board ≡ J.board }
    requires legal { IsLegal seen.log }
    requires first { first ≡ length J.config.dealers }
    requires numbers { first + length places.items < 2 ^ 16 }
    requires sessions { length sessions.items ≡ length places.items }
    requires none { all.old.items ≡ [] }
    ensures later { IfOk result (λ days. IsPrefix seen.log days.1.log) }
    ensures legal { IfOk result (λ days. IsLegal days.1.log) }
    ensures keep { IfOk result (λ days. InvestorsKeep J.config days.0.items) }
    ensures rooms { OnOk result (names_of all.new.items
        ≡ names_by first (map (λ place. length place.rooms.items) places.items)) }
    ensures stand { IfOk result (λ days. RoomsStand days.1.log all.new.items) }
    ensures inboxes { IfOk result (λ days. map (λ day. day.inbox) days.0.items
        ≡ map (λ session. session.inbox.items) sessions.items) }
    ensures among { IfErr result (IsInboxAmong first (length places.items)) }
{
    let mut days = Vec::with_capacity(alloc, places.len())?;
    let mut seen = seen;
    for (place, session) in places.into_iter().zip(sessions) {
        let InvestorPlace { desk, rooms, .. } = place;
        let firm = first + days.len() as u16;
        let day = desk.into_inner().day_at(alloc, firm, session)?;
        seen = put_rooms(board, seen, firm, rooms, all)?;
        days.push(day)?;
    }
    Ok((days, seen))
}

/// Puts the rooms of an investor behind the others, each by the number of its request, and gives a
/// token that is later than those of their locks. The fault is a room that is another request's.
fn put_rooms<J: Naming>(
    board: &VenueBoard,
    seen: BoardSeen,
    investor: u16,
    rooms: Vec<Mutex<LockedRoom<J>>>,
    all: &mut Vec<DayRoom>,
) -> Result<BoardSeen, DayFault>
    requires board { board.now ≡ J.board }
    requires seen { seen.board ≡ J.board }
    requires legal { IsLegal seen.log }
    requires numbers { length rooms.items < 2 ^ 32 }
    requires stand { RoomsStand seen.log all.old.items }
    ensures seen { IfOk result (λ later. later.board ≡ J.board) }
    ensures later { IfOk result (λ later. IsPrefix seen.log later.log) }
    ensures legal { IfOk result (λ later. IsLegal later.log) }
    ensures rooms { OnOk result (names_of all.new.items
        ≡ names_of all.old.items ++ names_from investor 1 (length rooms.items)) }
    ensures stand { IfOk result (λ later. RoomsStand later.log all.new.items) }
    ensures among { IfErr result (IsInboxAmong investor 1) }
{
    let mut seen = seen;
    let mut n = 0u32;
    for room in rooms {
        let locked = room.into_inner();
        seen = board.both(seen, locked.seen());
        n += 1;
        let day = locked.day_at(RoomRef { investor, n })?;
        all.push(day)?;
    }
    Ok(seen)
}
