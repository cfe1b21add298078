//! An award names the best cover.
ghost use Rattle.std.specs.Prelude.{◌≡◌, ℕ, List, ◌∷◌, ◌++◌, true};
ghost use Rattle.market_terms.specs.declared.rooms.RoomRef.{RoomRef};
ghost use Rattle.venue_rows.specs.Rows.{Configuration};
ghost use Rattle.request_room.specs.RoomFacts.{Ended, RoomFact, is_awarded_kind};
ghost use Rattle.request_room.specs.declared.ends.End.{End};
ghost use Rattle.step_replay.specs.AuditTrail as venue;
ghost use Rattle.step_replay.specs.VenueFacts.{of_room};
ghost use Rattle.step_replay.specs.declared.steps.Step.{Step};
ghost use Rattle.laws_trades.specs.Awards.{NamesBestCover};

use request_room::the_cover_is_the_best_other_quote;

/// An award names the best cover: the dealer of the best of the other dealers' quotes in the room's
/// book.
///
/// None of these quotes is better for the investor, and each that was posted earlier is worse. If
/// no other dealer's quote stood there, nobody is the cover.
///
/// It ends at: whether the cover could still be hit: its validity may have ended; the notices.
/// (`laws_days::each_named_dealer_is_told_once` says that each dealer is told once how the room
/// ended for it, which for the cover is 694=4.)
pub fn an_award_names_the_best_cover()
    ensures { (config : Configuration) (steps : List Step) (room : RoomRef)
        (before after : List RoomFact) (award : End) (moment : ℕ)
        → of_room room (venue.audit_trail config steps).facts
        ≡ before ++ Ended award moment ∷ after
        → is_awarded_kind award.kind ≡ true
        → NamesBestCover before award }
{
    the_cover_is_the_best_other_quote();
}
