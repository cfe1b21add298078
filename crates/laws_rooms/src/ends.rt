//! A room that has ended is closed at the desk of its investor.
ghost use Rattle.std.specs.Prelude.{◌≡◌, true, List};
ghost use Rattle.laws_rooms.specs.Ends.{IsClosedThere};
ghost use Rattle.market_terms.specs.declared.rooms.RoomRef.{RoomRef};
ghost use Rattle.request_room.specs.RoomFacts.{is_ended};
ghost use Rattle.step_replay.specs.AuditTrail as venue;
ghost use Rattle.step_replay.specs.VenueFacts.{of_room};
ghost use Rattle.step_replay.specs.declared.steps.Step.{Step};
ghost use Rattle.laws_days.specs.LiveDuties.{NoDutyIsLeft};
ghost use Rattle.laws_shown.specs.ShownRequests.{at_investor};
ghost use Rattle.venue_rows.specs.Rows.{Configuration};

use dealer_desk::{limits_are_kept, what_is_asked_is_of_the_day};

/// Once no duty is left, the request of a room that has ended is closed at the desk of its
/// investor, whether a hit, a pass or a sweep ended the room (`specs/Ends`).
///
/// So what was shown *while the request is open at the desk* was shown *unless the room has ended*.
///
/// It ends at: days on which a duty is left; how the request was closed.
pub fn an_ended_room_is_closed_at_its_desk()
    ensures { (config : Configuration) (steps : List Step) (room : RoomRef)
        → NoDutyIsLeft (venue.audit_trail config steps)
        → is_ended (of_room room (venue.audit_trail config steps).facts) ≡ true
        → IsClosedThere (at_investor room.investor (venue.audit_trail config steps).facts) room.n }
{
    limits_are_kept();
    what_is_asked_is_of_the_day();
}
