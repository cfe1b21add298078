//! A quote in a room comes to its investor.
ghost use Rattle.std.specs.Prelude.{ℕ, List};
ghost use Rattle.laws_rooms.specs.Told.{CameToIt};
ghost use Rattle.market_terms.specs.declared.rooms.RoomRef.{RoomRef};
ghost use Rattle.request_room.specs.RoomFacts.{Posted};
ghost use Rattle.request_room.specs.declared.quotes.PostedQuote.{PostedQuote};
ghost use Rattle.step_replay.specs.AuditTrail as venue;
ghost use Rattle.step_replay.specs.Lists.{In};
ghost use Rattle.step_replay.specs.VenueFacts.{of_room};
ghost use Rattle.step_replay.specs.declared.steps.Step.{Step};
ghost use Rattle.laws_days.specs.LiveDuties.{NoDutyIsLeft};
ghost use Rattle.laws_shown.specs.ShownRequests.{at_investor};
ghost use Rattle.venue_rows.specs.Rows.{Configuration};

use dealer_desk::{limits_are_kept, what_is_asked_is_of_the_day};

/// Each quote that took effect in a room was shown to its investor on that request, with its
/// dealer, word, price and valid-until; or the request was closed at the investor's desk
/// (`specs/Told`).
///
/// It ends at: days on which a duty is left. (The order of quotes:
/// `laws_rooms::quotes_are_shown_as_they_took_effect`. Withdrawals:
/// `laws_rooms::each_answer_is_told_in_its_turn`.)
pub fn each_quote_comes_to_its_investor()
    ensures { (config : Configuration) (steps : List Step) (room : RoomRef) (quote : PostedQuote)
        → NoDutyIsLeft (venue.audit_trail config steps)
        → In (Posted quote) (of_room room (venue.audit_trail config steps).facts)
        → CameToIt config (at_investor room.investor (venue.audit_trail config steps).facts) room.n
        quote }
{
    limits_are_kept();
    what_is_asked_is_of_the_day();
}
