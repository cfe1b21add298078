//! An award is in time.
ghost use Rattle.std.specs.Prelude.{◌≡◌, ℕ, List, ◌∷◌, ◌++◌, true};
ghost use Rattle.market_terms.specs.declared.rooms.RoomRef.{RoomRef};
ghost use Rattle.venue_rows.specs.Rows.{Configuration};
ghost use Rattle.request_room.specs.RoomFacts.{Ended, RoomFact, is_awarded_kind};
ghost use Rattle.request_room.specs.declared.ends.End.{End};
ghost use Rattle.step_replay.specs.AuditTrail as venue;
ghost use Rattle.step_replay.specs.VenueFacts.{of_room};
ghost use Rattle.step_replay.specs.declared.steps.Step.{Step};
ghost use Rattle.laws_trades.specs.Awards.{IsInTime};

/// An award is in time: its moment is before the request's deadline and before the end of the
/// quote's validity.
///
/// A room that was awarded was open, and the winner's quote stood in its book (`specs/Awards`).
///
/// It ends at: at which moment the quote came (the times of a day's steps need not be in
/// ascending order); that a hit in time is awarded.
pub fn an_award_is_in_time()
    ensures { (config : Configuration) (steps : List Step) (room : RoomRef)
        (before after : List RoomFact) (award : End) (moment : ℕ)
        → of_room room (venue.audit_trail config steps).facts
        ≡ before ++ Ended award moment ∷ after
        → is_awarded_kind award.kind ≡ true
        → IsInTime before award moment }
{}
