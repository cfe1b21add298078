//! Days in which nothing happens.
use case_lines::CaseFault;
use recorded_days::{DealerDay, InvestorDay, RoomDay};
use std::alloc::Global;

/// A dealer's day in which nothing happens.
pub(crate) fn empty_dealer(alloc: Global) -> DealerDay {
    DealerDay {
        sent: Vec::new(alloc),
        lines: Vec::new(alloc),
        events: Vec::new(alloc),
        order: Vec::new(alloc),
        inbox: Vec::new(alloc),
        actions: Vec::new(alloc),
    }
}

/// An investor's, with so many rooms.
pub(crate) fn empty_investor(alloc: Global, requests: u32) -> Result<InvestorDay, CaseFault> {
    let mut rooms = Vec::new(alloc);
    for _ in 0..requests {
        rooms.push(empty_room(alloc))?;
    }
    Ok(InvestorDay {
        sent: Vec::new(alloc),
        lines: Vec::new(alloc),
        events: Vec::new(alloc),
        order: Vec::new(alloc),
        inbox: Vec::new(alloc),
        actions: Vec::new(alloc),
        rooms,
    })
}

/// A room in which nothing happens.
pub(crate) fn empty_room(alloc: Global) -> RoomDay {
    RoomDay {
        events: Vec::new(alloc),
        order: Vec::new(alloc),
    }
}
