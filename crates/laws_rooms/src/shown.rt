//! The quotes of a dealer are shown in their order.
ghost use Rattle.std.specs.Prelude.{◌≡◌, ℕ, List, Some};
ghost use Rattle.laws_rooms.specs.Offers.{AreShownFirst};
ghost use Rattle.market_terms.specs.declared.rooms.RoomRef.{RoomRef};
ghost use Rattle.step_replay.specs.AuditTrail as venue;
ghost use Rattle.step_replay.specs.VenueFacts.{of_room};
ghost use Rattle.step_replay.specs.declared.steps.Step.{Step};
ghost use Rattle.laws_days.specs.LiveDuties.{NoDutyIsLeft};
ghost use Rattle.laws_shown.specs.ShownRequests.{at_investor};
ghost use Rattle.venue_rows.specs.Rows.{Configuration, dealer_numbered};
ghost use Rattle.venue_rows.specs.declared.dealer_rows.DealerRow.{DealerRow};

use dealer_desk::{limits_are_kept, what_is_asked_is_of_the_day};

/// The quotes of a dealer are shown in their order, and none is left out between two.
///
/// Once no duty is left, the quotes of a dealer that the investor of a room was shown on the room's
/// request are the first of those that took effect in the room, in their order. They are all of them
/// while the request is open at the investor's desk.
///
/// It ends at: days on which a duty is left. (The place of a decline among the quotes:
/// `laws_rooms::answers_are_told_as_they_took_effect`, that of a withdrawal:
/// `laws_rooms::each_answer_is_told_in_its_turn`.)
pub fn quotes_are_shown_as_they_took_effect()
    ensures { (config : Configuration) (steps : List Step) (dealer : ℕ) (row : DealerRow)
        (room : RoomRef) → dealer_numbered config dealer ≡ Some row
        → NoDutyIsLeft (venue.audit_trail config steps)
        → AreShownFirst config dealer room.n (of_room room (venue.audit_trail config steps).facts)
        (at_investor room.investor (venue.audit_trail config steps).facts) }
{
    limits_are_kept();
    what_is_asked_is_of_the_day();
}
