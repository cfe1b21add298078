//! A decline comes to the investor of its request.
ghost use Rattle.std.specs.Prelude.{ℕ, List};
ghost use Rattle.laws_rooms.specs.Declines.{IsToldSo};
ghost use Rattle.market_terms.specs.declared.rooms.RoomRef.{RoomRef};
ghost use Rattle.request_room.specs.RoomFacts.{Noted};
ghost use Rattle.step_replay.specs.AuditTrail as venue;
ghost use Rattle.step_replay.specs.Lists.{In};
ghost use Rattle.step_replay.specs.VenueFacts.{of_room};
ghost use Rattle.step_replay.specs.declared.steps.Step.{Step};
ghost use Rattle.laws_days.specs.LiveDuties.{NoDutyIsLeft};
ghost use Rattle.venue_rows.specs.Rows.{Configuration};

use dealer_desk::{limits_are_kept, what_is_asked_is_of_the_day};

/// Of each dealer that declined in a room its investor was sent 35=AI with 297=11, the request's
/// 131 and the dealer's name (448); or the request was closed at its desk (`specs/Declines`).
///
/// It ends at: days on which a duty is left; which further fields the messages have. (The order of
/// what an investor is told: `laws_rooms::answers_are_told_as_they_took_effect`.)
pub fn each_decline_comes_to_its_investor()
    ensures { (config : Configuration) (steps : List Step) (room : RoomRef) (dealer : ℕ)
        → NoDutyIsLeft (venue.audit_trail config steps)
        → In (Noted dealer) (of_room room (venue.audit_trail config steps).facts)
        → IsToldSo config (venue.audit_trail config steps).facts room dealer }
{
    limits_are_kept();
    what_is_asked_is_of_the_day();
}
