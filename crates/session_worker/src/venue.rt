//! The venue that threads share.
ghost use Rattle.std.specs.Prelude.{◌≡◌, ◌<◌, ◌^◌, ℕ, ◌+◌, true, length, map, slice_get, IfOk, IfSome};
ghost use Rattle.std.specs.Prelude.{option_and_then};
ghost use Rattle.std.specs.Option.{option_copied};
ghost use Rattle.std.specs.Sync.Mutex.{mutex_guard_value};
ghost use Rattle.day_checks.specs.KeptDays.{requests_of};
ghost use Rattle.session_worker.specs.Locks.{numbered_from};
ghost use Rattle.step_replay.specs.Actions.{words_of};
ghost use Rattle.venue_rows.specs.Rows.{has_room};

use crate::dealers::LockedDealer;
use crate::investors::LockedInvestor;
use crate::naming::Naming;
use crate::rooms::LockedRoom;
use crate::watched::VenueBoard;
use fix_fields::Memory;
use market_terms::RoomRef;
use quote_word::{Board, BoardSeen};
use std::alloc::Global;
use std::marker::Model;
use std::sync::{Mutex, MutexGuard, Wait};
use venue_rows::VenueConfig;

/// The place of an investor.
#[derive(Drop)]
pub(crate) struct InvestorPlace<J: Naming> {
    /// Its desk.
    pub(crate) desk: Mutex<LockedInvestor<J>>,
    /// The rooms of its requests, as many as it may make in its day.
    pub(crate) rooms: Vec<Mutex<LockedRoom<J>>>,
    pub(crate) ghost few: { length rooms.items < 2 ^ 32 },
}

/// The venue that the sessions and the clock of a day share: a lock for each desk and for each
/// room, and the board. There is no other lock.
#[derive(Drop)]
pub struct SharedVenue<J: Naming> {
    pub(crate) alloc: Global,
    pub(crate) config: VenueConfig,
    pub(crate) board: VenueBoard,
    pub(crate) dealers: Vec<Mutex<LockedDealer<J>>>,
    pub(crate) investors: Vec<InvestorPlace<J>>,
    pub(crate) ghost board_is: { board ≡ J.board },
    pub(crate) ghost config_is: { config ≡ J.config },
    pub(crate) ghost dealers_are: { length dealers.items ≡ length J.config.dealers },
    pub(crate) ghost rooms_are: { map (λ place. length place.rooms.items) investors.items
        ≡ requests_of J.config.investors },
}

impl<J: Naming> SharedVenue<J> {
    /// The venue at the start of the day: every desk without an event, every room vacant. The board
    /// has a word for each quote of the configuration, and the token is one of it. It fails for
    /// memory alone.
    pub fn new(
        alloc: Global,
        config: VenueConfig,
        board: Board,
        seen: BoardSeen,
    ) -> Result<Self, Memory>
        requires board { board ≡ J.board }
        requires words { board.words ≡ words_of config }
        requires seen { seen.board ≡ J.board }
        requires config { config ≡ J.config }
    {
        let dealers = dealers_at_start(alloc, &config, &seen)?;
        let investors = investors_at_start(alloc, &config, &seen)?;
        Ok(SharedVenue {
            alloc,
            config,
            board: VenueBoard::new(board),
            dealers,
            investors,
        })
    }

    /// The desk of the dealer with this number among the firms, once its lock is had. What lies
    /// there bears that number.
    pub(crate) fn lock_dealer<R: Wait>(
        &self,
        rt: &R,
        firm: u16,
    ) -> Option<MutexGuard<'_, LockedDealer<J>>>
        ensures { IfSome result (λ desk. (mutex_guard_value desk).firm ≡ firm) }
    {
        let place = self.dealer(firm)?;
        let desk = place.lock(rt);
        if desk.firm() != firm {
            return None;
        }
        Some(desk)
    }

    /// The same of an investor.
    pub(crate) fn lock_investor<R: Wait>(
        &self,
        rt: &R,
        firm: u16,
    ) -> Option<MutexGuard<'_, LockedInvestor<J>>>
        ensures { IfSome result (λ desk. (mutex_guard_value desk).desk.market.firm ≡ firm) }
    {
        let place = self.investor(firm)?;
        let desk = place.desk.lock(rt);
        if desk.firm() != firm {
            return None;
        }
        Some(desk)
    }

    /// The room with this name, once its lock is had. What lies there bears that name.
    pub(crate) fn lock_room<R: Wait>(
        &self,
        rt: &R,
        at: RoomRef,
    ) -> Option<MutexGuard<'_, LockedRoom<J>>>
        ensures { IfSome result (λ room. (mutex_guard_value room).at ≡ at) }
    {
        let place = self.room(at)?;
        let room = place.lock(rt);
        if !room.is(at) {
            return None;
        }
        Some(room)
    }

    /// The lock of the dealer with this number among the firms.
    fn dealer(&self, firm: u16) -> Option<&Mutex<LockedDealer<J>>>
        ensures { option_copied result ≡ slice_get self.now.dealers.items firm }
    {
        self.dealers.get(usize::from(firm))
    }

    /// The place of the investor with this number among the firms.
    fn investor(&self, firm: u16) -> Option<&InvestorPlace<J>>
        ensures { option_copied result
            ≡ numbered_from (length self.now.dealers.items) self.now.investors.items firm }
    {
        let index = usize::from(firm).checked_sub(self.dealers.len())?;
        self.investors.get(index)
    }

    /// The lock of a room, where the venue has it.
    fn room(&self, room: RoomRef) -> Option<&Mutex<LockedRoom<J>>>
        ensures { option_copied result
            ≡ option_and_then (λ place. numbered_from 1 place.rooms.items room.n)
            (numbered_from (length self.now.dealers.items) self.now.investors.items
            room.investor) }
    {
        let investor = self.investor(room.investor)?;
        let index = (room.n as usize).checked_sub(1)?;
        investor.rooms.get(index)
    }
}

/// The dealers' desks without an event, each with the word of its first quote.
fn dealers_at_start<J: Naming>(
    alloc: Global,
    config: &VenueConfig,
    seen: &BoardSeen,
) -> Result<Vec<Mutex<LockedDealer<J>>>, Memory>
    requires seen { seen.now.board ≡ J.board }
    requires config { config.now ≡ J.config }
    ensures { IfOk result (λ places. length places.items ≡ length J.config.dealers) }
{
    let mut places = Vec::with_capacity(alloc, config.dealers().len())?;
    let mut firm = 0u16;
    let mut first_word = 0;
    for row in config.dealers() {
        let desk = LockedDealer::new(alloc, config, firm, row, first_word, seen.again())?;
        places.push(Mutex::new(desk))?;
        firm += 1;
        first_word += row.quotes;
    }
    Ok(places)
}

/// The investors' desks without an event, each with its rooms.
fn investors_at_start<J: Naming>(
    alloc: Global,
    config: &VenueConfig,
    seen: &BoardSeen,
) -> Result<Vec<InvestorPlace<J>>, Memory>
    requires seen { seen.now.board ≡ J.board }
    requires config { config.now ≡ J.config }
    ensures { IfOk result (λ places. map (λ place. length place.rooms.items) places.items
        ≡ requests_of J.config.investors) }
{
    let mut places = Vec::with_capacity(alloc, config.investors().len())?;
    let mut firm = config.dealer_count();
    for row in config.investors() {
        let desk = LockedInvestor::new(alloc, config, firm)?;
        let rooms = vacant_rooms(alloc, firm, row.requests, seen)?;
        places.push(InvestorPlace {
            desk: Mutex::new(desk),
            rooms,
        })?;
        firm += 1;
    }
    Ok(places)
}

/// So many vacant rooms of an investor, which may make so many requests.
fn vacant_rooms<J: Naming>(
    alloc: Global,
    investor: u16,
    count: u32,
    seen: &BoardSeen,
) -> Result<Vec<Mutex<LockedRoom<J>>>, Memory>
    requires seen { seen.now.board ≡ J.board }
    requires rooms { (index : ℕ) → index < count
        → has_room J.config investor (index + 1) ≡ true }
    ensures { IfOk result (λ rooms. length rooms.items ≡ count) }
{
    let mut rooms = Vec::with_capacity(alloc, count as usize)?;
    for index in 0..count {
        let at = RoomRef {
            investor,
            n: index + 1,
        };
        rooms.push(Mutex::new(LockedRoom::vacant(alloc, at, seen.again())))?;
    }
    Ok(rooms)
}
