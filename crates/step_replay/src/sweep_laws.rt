//! A law of sweeps.
ghost use Rattle.std.specs.Prelude.{◌≡◌, ◌++◌, ◌∷◌, ℕ, List, [], false};
ghost use Rattle.market_terms.specs.declared.rooms.RoomRef.{RoomRef};
ghost use Rattle.request_room.specs.Book.{may_expire};
ghost use Rattle.venue_rows.specs.Rows.{Configuration};
ghost use Rattle.step_replay.specs.AuditTrail.{AuditTrail, after_step};
ghost use Rattle.step_replay.specs.LiveDays.{live_trail};
ghost use Rattle.step_replay.specs.LiveStanding.{IsAt};
ghost use Rattle.step_replay.specs.VenueFacts.{of_room};
ghost use Rattle.step_replay.specs.declared.live.LiveVenue.{LiveVenue};
ghost use Rattle.step_replay.specs.declared.steps.Step.{Step};
ghost use Rattle.step_replay.specs.declared.steps.Step.TheVariants as step;

/// A sweep of a room that is not due changes nothing, so nothing is sent. A room is due that is
/// open, where the deadline of its request has come.
pub fn sweeps_of_rooms_that_are_not_due_do_nothing()
    ensures one { (config : Configuration) (trail : AuditTrail) (room : RoomRef) (moment : ℕ)
        → may_expire (of_room room trail.facts) moment ≡ false
        → after_step config trail (step.Expire room moment) ≡ trail }
    // The same with the turns behind it, of a venue that answers as steps come.
    ensures live { (config : Configuration) (steps : List Step) (venue : LiveVenue)
        (room : RoomRef) (moment : ℕ) → IsAt config steps venue
        → may_expire (of_room room (live_trail config steps).facts) moment ≡ false
        → live_trail config (steps ++ step.Expire room moment ∷ []) ≡ live_trail config steps }
{}
