//! No room is left opening.
ghost use Rattle.std.specs.Prelude.{◌≡◌, ℕ, List, is_some, true, false};
ghost use Rattle.dealer_desk.specs.DealerOutput.{number_in};
ghost use Rattle.market_terms.specs.declared.rooms.RoomRef.{RoomRef};
ghost use Rattle.request_room.specs.RoomFacts.{is_named, is_opening};
ghost use Rattle.step_replay.specs.AuditTrail as venue;
ghost use Rattle.step_replay.specs.DealerTrail.{rooms_by};
ghost use Rattle.step_replay.specs.VenueFacts.{of_dealer, of_room};
ghost use Rattle.step_replay.specs.declared.steps.Step.{Step};
ghost use Rattle.laws_days.specs.LiveDuties.{NoDutyIsLeft};
ghost use Rattle.venue_rows.specs.Rows.{Configuration};

use dealer_desk::{limits_are_kept, what_is_asked_is_of_the_day};

/// No room is opening: one that was opened is open, or has ended (`opening`). Each dealer that the
/// request of a room names was shown it (`shown`).
///
/// It ends at: days on which a duty is left.
pub fn no_room_is_left_opening()
    ensures opening { (config : Configuration) (steps : List Step) (room : RoomRef)
        → NoDutyIsLeft (venue.audit_trail config steps)
        → is_opening (of_room room (venue.audit_trail config steps).facts) ≡ false }
    ensures shown { (config : Configuration) (steps : List Step) (room : RoomRef) (dealer : ℕ)
        → NoDutyIsLeft (venue.audit_trail config steps)
        → is_named (of_room room (venue.audit_trail config steps).facts) dealer ≡ true
        → is_some (number_in
        (rooms_by (of_dealer dealer (venue.audit_trail config steps).facts)) room) ≡ true }
{
    limits_are_kept();
    what_is_asked_is_of_the_day();
}
