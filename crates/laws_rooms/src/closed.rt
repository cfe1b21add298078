//! A request that is closed at the desk of its investor has a room that has ended.
ghost use Rattle.std.specs.Prelude.{◌≡◌, true, List};
ghost use Rattle.laws_rooms.specs.Ends.{IsClosedThere};
ghost use Rattle.market_terms.specs.declared.rooms.RoomRef.{RoomRef};
ghost use Rattle.request_room.specs.RoomFacts.{is_ended};
ghost use Rattle.step_replay.specs.AuditTrail as venue;
ghost use Rattle.step_replay.specs.VenueFacts.{of_room};
ghost use Rattle.step_replay.specs.declared.steps.Step.{Step};
ghost use Rattle.laws_shown.specs.ShownRequests.{at_investor};
ghost use Rattle.venue_rows.specs.Rows.{Configuration};

use dealer_desk::{limits_are_kept, what_is_asked_is_of_the_day};

/// A request that is closed at the desk of its investor has a room that has ended, at each moment.
///
/// It ends at: how the request was closed, and how the room ended.
pub fn a_closed_request_has_an_ended_room()
    ensures { (config : Configuration) (steps : List Step) (room : RoomRef)
        → IsClosedThere (at_investor room.investor (venue.audit_trail config steps).facts) room.n
        → is_ended (of_room room (venue.audit_trail config steps).facts) ≡ true }
{
    limits_are_kept();
    what_is_asked_is_of_the_day();
}
