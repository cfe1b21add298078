//! What a dealer answers takes effect in its order.
ghost use Rattle.std.specs.Prelude.{◌≡◌, ℕ, List, Some};
ghost use Rattle.laws_rooms.specs.Answered.{TookEffect, answers_at, changes_in};
ghost use Rattle.laws_rooms.specs.Tellings.{IsLive};
ghost use Rattle.market_terms.specs.declared.rooms.RoomRef.{RoomRef};
ghost use Rattle.step_replay.specs.AuditTrail as venue;
ghost use Rattle.step_replay.specs.LiveDays.{live_trail};
ghost use Rattle.step_replay.specs.VenueFacts.{of_dealer, of_room};
ghost use Rattle.step_replay.specs.declared.steps.Step.{Step};
ghost use Rattle.laws_days.specs.LiveDuties.{NoDutyIsLeft};
ghost use Rattle.venue_steps.specs.Dealers as places;
ghost use Rattle.venue_rows.specs.Rows.{Configuration, dealer_numbered};
ghost use Rattle.venue_rows.specs.declared.dealer_rows.DealerRow.{DealerRow};

use dealer_desk::{limits_are_kept, what_is_asked_is_of_the_day};

/// What a dealer answers on a request takes effect in the room in its order.
///
/// Once no duty is left, the quotes, the withdrawals and the declines of a dealer that took effect
/// in a room are the first of those that stand at its desk on that request, in their order
/// (`specs/Answered`). They are all of them unless the room has ended.
///
/// It ends at: days on which a duty is left; what a message becomes at the desk, which the desk's
/// definition says; what the investor is told (of that
/// `laws_rooms::each_answer_is_told_in_its_turn`).
pub fn each_answer_takes_effect_in_its_order()
    ensures { (config : Configuration) (steps : List Step) (dealer : ℕ) (row : DealerRow)
        (room : RoomRef) → dealer_numbered config dealer ≡ Some row
        → NoDutyIsLeft (venue.audit_trail config steps)
        → TookEffect (of_room room (venue.audit_trail config steps).facts) dealer
        (answers_at config (places.dealer_of dealer row) room
        (of_dealer dealer (venue.audit_trail config steps).facts)) }
{
    limits_are_kept();
    what_is_asked_is_of_the_day();
}

/// On a live day all quotes, withdrawals and declines that stand at a dealer's desk on the request
/// of a room took effect in the room, in their order.
///
/// The steps of such a day come one by one, and none of them leaves a duty.
///
/// It ends at: what a message becomes at the desk, which the desk's definition says; what the
/// investor is told (of that `laws_rooms::each_answer_is_told_on_a_live_day`).
pub fn each_answer_takes_effect_on_a_live_day()
    ensures { (config : Configuration) (steps : List Step) (dealer : ℕ) (row : DealerRow)
        (room : RoomRef) → dealer_numbered config dealer ≡ Some row → IsLive config steps
        → answers_at config (places.dealer_of dealer row) room
        (of_dealer dealer (live_trail config steps).facts)
        ≡ changes_in dealer (of_room room (live_trail config steps).facts) }
{
    limits_are_kept();
    what_is_asked_is_of_the_day();
}
