//! The deadlines of the requests that have not ended.
ghost use Rattle.std.specs.Prelude.{◌≡◌};
ghost use Rattle.request_room.specs.Book.{room_after};
ghost use Rattle.step_replay.specs.Deadlines as spec;
ghost use Rattle.step_replay.specs.DonePlaces.{IsDeadline};

use crate::floor::Floor;
use fix_fields::Moment;
use market_terms::RoomRef;
use request_room::Room;

/// The deadline of a room of the venue that is opening or open.
pub(crate) fn deadline_at(floor: &Floor, room: RoomRef) -> Option<Moment>
    ensures { IsDeadline floor.now room result }
{
    let Some((investor, index)) = floor.room_place(room) else {
        return None;
    };
    deadline_of(&floor.investors[investor].rooms[index])
}

/// The deadline of a room that is opening or open.
fn deadline_of(room: &Room) -> Option<Moment>
    ensures { result ≡ spec.deadline_of (room_after room.now) }
{
    let Some(request) = room.request() else {
        return None;
    };
    if room.end().is_some() {
        return None;
    }
    Some(request.ask.deadline)
}
