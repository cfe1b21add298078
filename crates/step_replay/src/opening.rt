//! The places of a venue at the start of a day.
ghost use Rattle.std.specs.Prelude.{◌≡◌, ◌++◌, [], length, replicate, IfOk, OnOk};
ghost use Rattle.venue_rows.specs.Rows.{KeepsLimits};
ghost use Rattle.step_replay.specs.Openings as spec;

use crate::floor::{DealerPlace, Floor, InvestorPlace};
use dealer_desk::DealerDesk;
use fix_fields::Memory;
use investor_desk::InvestorDesk;
use quote_word::PlainWords;
use request_room::Room;
use std::alloc::Global;
use venue_rows::VenueConfig;

impl Floor {
    /// The places of a venue at the start of a day: every desk without an event, every room
    /// vacant, every word open.
    pub(crate) fn at_start(alloc: Global, config: &VenueConfig) -> Result<Self, Memory>
        ensures { IfOk result (λ floor. spec.Opens config.now floor) }
    {
        let dealers = dealers_at_start(alloc, config)?;
        let investors = investors_at_start(alloc, config)?;
        let owners = owners_of_words(alloc, config)?;
        let words = PlainWords::new(alloc, owners.len() as u32)?;
        Ok(Floor {
            config: config.copy(alloc)?,
            dealers,
            investors,
            words,
            owners,
        })
    }
}

/// The dealers' desks without an event, each with the word of its first quote.
fn dealers_at_start(alloc: Global, config: &VenueConfig) -> Result<Vec<DealerPlace>, Memory>
    ensures { IfOk result (λ places. spec.DealersOpen config.now (length config.now.dealers) places.items) }
{
    let mut places = Vec::with_capacity(alloc, config.dealers().len())?;
    let mut first_word = 0;
    for row in config.dealers() {
        let desk = DealerDesk::new(alloc, *config.date(), row.copy())?;
        places.push(DealerPlace {
            desk,
            first_word,
            liftings: Vec::new(alloc),
        })?;
        first_word += row.quotes;
    }
    Ok(places)
}

/// The number of the dealer whose quote has each word.
fn owners_of_words(alloc: Global, config: &VenueConfig) -> Result<Vec<u16>, Memory>
    ensures owners { IfOk result (λ owners.
        owners.items ≡ spec.owners_from 0 config.now.dealers) }
    ensures limits { KeepsLimits config.now }
{
    let mut owners = Vec::new(alloc);
    let mut number = 0;
    for row in config.dealers() {
        put_owner(&mut owners, number, row.quotes)?;
        number += 1;
    }
    Ok(owners)
}

/// Puts the owner of so many words more.
fn put_owner(owners: &mut Vec<u16>, number: u16, words: u32) -> Result<(), Memory>
    ensures { OnOk result (owners.new.items ≡ owners.old.items ++ replicate words number) }
{
    for _ in 0..words {
        owners.push(number)?;
    }
    Ok(())
}

/// The investors' desks without an event, each with its rooms.
fn investors_at_start(alloc: Global, config: &VenueConfig) -> Result<Vec<InvestorPlace>, Memory>
    ensures { IfOk result (λ places. spec.InvestorsOpen config.now
        (length config.now.investors) places.items) }
{
    let mut places = Vec::with_capacity(alloc, config.investors().len())?;
    let mut firm = config.dealer_count();
    for row in config.investors() {
        let desk = InvestorDesk::new(alloc, config, firm)?;
        let rooms = vacant_rooms(alloc, row.requests)?;
        places.push(InvestorPlace { desk, rooms })?;
        firm += 1;
    }
    Ok(places)
}

/// So many vacant rooms.
fn vacant_rooms(alloc: Global, count: u32) -> Result<Vec<Room>, Memory>
    ensures { IfOk result (λ rooms. rooms.items ≡ replicate count []) }
{
    let mut rooms = Vec::with_capacity(alloc, count as usize)?;
    for _ in 0..count {
        rooms.push(Room::vacant(alloc))?;
    }
    Ok(rooms)
}
