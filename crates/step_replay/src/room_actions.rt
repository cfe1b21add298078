//! What happens in the rooms of a replay.
ghost use Rattle.std.specs.Prelude.{◌≡◌, IfOk};
ghost use Rattle.step_replay.specs.Standing.{ActsOnce};
ghost use Rattle.step_replay.specs.Coming as coming;
ghost use Rattle.step_replay.specs.RoomPlaces as spec;

use crate::floor::Floor;
use fix_fields::Memory;
use market_terms::RoomRef;
use venue_steps::{Duties, ForRoom, bring_to_room};

impl Floor {
    /// The place of a room: which of the investors' it is, and which of the rooms there.
    pub(crate) fn room_place(&self, room: RoomRef) -> Option<(usize, usize)>
        ensures { result ≡ spec.room_place self.now room }
    {
        let investor = usize::from(room.investor).checked_sub(self.dealers.len())?;
        let index = (room.n as usize).checked_sub(1)?;
        let place = self.investors.get(investor)?;
        if index >= place.rooms.len() {
            return None;
        }
        Some((investor, index))
    }

    /// What comes to a room is brought to it.
    #[tactic(auto, using(crate::proofs::RoomPlaceLemmas::investor_inside, crate::proofs::RoomPlaceLemmas::room_inside))]
    pub(crate) fn to_room(&mut self, room: RoomRef, what: ForRoom) -> Result<Duties, Memory>
        ensures { IfOk result (λ duties. ActsOnce
            (λ config facts. coming.room_gets config facts room what)
            self.old self.new duties.items) }
    {
        let Some((investor, index)) = self.room_place(room) else {
            return Ok(self.nothing());
        };
        let place = &mut self.investors[investor].rooms[index];
        let duties = bring_to_room(place, room, what)?;
        Ok(duties)
    }
}
