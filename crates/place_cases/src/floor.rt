//! The places that steps are done at.
use case_lines::{CaseFault, VENUE};
use dealer_desk::DealerDesk;
use investor_desk::InvestorDesk;
use market_terms::RoomRef;
use request_room::Room;
use std::alloc::Global;
use venue_config::read_config;
use venue_rows::VenueConfig;

/// The number of INV1 among the firms.
pub(crate) const INVESTOR: u16 = 2;

/// The room of the first request of INV1.
pub(crate) const ROOM: RoomRef = RoomRef {
    investor: INVESTOR,
    n: 1,
};

/// The desks of DLR1, DLR2 and INV1, and the room of the first request of INV1.
#[derive(Drop)]
pub(crate) struct Floor {
    pub(crate) first: DealerDesk,
    pub(crate) second: DealerDesk,
    pub(crate) investor: InvestorDesk,
    pub(crate) room: Room,
}

/// How much the places have seen: the events of each, and the messages of each desk.
#[derive(Clone, Copy)]
pub(crate) struct Counts {
    pub(crate) first: usize,
    pub(crate) second: usize,
    pub(crate) investor: usize,
    pub(crate) room: usize,
    pub(crate) to_first: usize,
    pub(crate) to_second: usize,
    pub(crate) to_investor: usize,
}

/// The places before the day. There is no event, and no message.
pub(crate) fn new_floor(alloc: Global) -> Result<Floor, CaseFault> {
    let Ok(config) = read_config(alloc, VENUE) else {
        return Err(CaseFault::Form);
    };
    floor_of(alloc, &config)
}

/// The places of a configuration. A desk is alive at few of its exits, since each of them drops it.
fn floor_of(alloc: Global, config: &VenueConfig) -> Result<Floor, CaseFault> {
    let investor = investor(alloc, config)?;
    let (first, second) = two_dealers(alloc, config)?;
    let room = Room::vacant(alloc);
    Ok(Floor {
        first,
        second,
        investor,
        room,
    })
}

/// The desks of DLR1 and DLR2.
fn two_dealers(alloc: Global, config: &VenueConfig) -> Result<(DealerDesk, DealerDesk), CaseFault> {
    let first = dealer(alloc, config, 0)?;
    let second = dealer(alloc, config, 1)?;
    Ok((first, second))
}

/// The desk of a dealer.
fn dealer(alloc: Global, config: &VenueConfig, firm: u16) -> Result<DealerDesk, CaseFault> {
    let Some(row) = config.dealer(firm) else {
        return Err(CaseFault::Condition);
    };
    let desk = DealerDesk::new(alloc, *config.date(), row.copy())?;
    Ok(desk)
}

/// The desk of INV1.
fn investor(alloc: Global, config: &VenueConfig) -> Result<InvestorDesk, CaseFault> {
    if config.investor(INVESTOR).is_none() {
        return Err(CaseFault::Condition);
    }
    let desk = InvestorDesk::new(alloc, config, INVESTOR)?;
    Ok(desk)
}

/// What the places have seen.
pub(crate) fn counts_of(floor: &Floor) -> Counts {
    Counts {
        first: floor.first.events().len(),
        second: floor.second.events().len(),
        investor: floor.investor.events().len(),
        room: floor.room.events().len(),
        to_first: floor.first.sent().len(),
        to_second: floor.second.sent().len(),
        to_investor: floor.investor.sent().len(),
    }
}
