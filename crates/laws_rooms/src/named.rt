//! A request is shown to no dealer that it does not name.
ghost use Rattle.std.specs.Prelude.{ℕ, List};
ghost use Rattle.investor_desk.specs.InvestorFacts.{Asked};
ghost use Rattle.investor_desk.specs.declared.standing.AcceptedRequest.{AcceptedRequest};
ghost use Rattle.laws_rooms.specs.Shown.{HasAsked, IsShown};
ghost use Rattle.market_terms.specs.declared.rooms.RoomRef.{RoomRef};
ghost use Rattle.step_replay.specs.AuditTrail as venue;
ghost use Rattle.step_replay.specs.Lists.{In};
ghost use Rattle.step_replay.specs.VenueFacts.{of_dealer};
ghost use Rattle.step_replay.specs.declared.steps.Step.{Step};
ghost use Rattle.laws_shown.specs.ShownRequests.{at_investor, room_of};
ghost use Rattle.venue_rows.specs.Rows.{Configuration};

use dealer_desk::{limits_are_kept, what_is_asked_is_of_the_day};

/// A request is shown to no dealer that it does not name.
///
/// A dealer that was shown an accepted request is one of those that the request names (`only`), and
/// no dealer was shown a request that was not accepted (`accepted`). This holds also while duties
/// are left.
///
/// It ends at: the messages: the law speaks of the facts at the dealer's desk.
/// (`laws_shown::what_is_shown_was_quoted` says the same of the messages 35=R that a dealer was
/// sent, `laws_shown::requests_are_shown_as_written` of the names that the investor wrote.)
pub fn a_request_is_shown_to_no_other_dealer()
    ensures only { (config : Configuration) (steps : List Step) (investor : ℕ)
        (request : AcceptedRequest) (dealer : ℕ)
        → In (Asked request) (at_investor investor (venue.audit_trail config steps).facts)
        → IsShown (of_dealer dealer (venue.audit_trail config steps).facts)
        (room_of investor request.number)
        → In dealer request.dealers }
    ensures accepted { (config : Configuration) (steps : List Step) (room : RoomRef) (dealer : ℕ)
        → IsShown (of_dealer dealer (venue.audit_trail config steps).facts) room
        → HasAsked (at_investor room.investor (venue.audit_trail config steps).facts) room.n dealer }
{
    limits_are_kept();
    what_is_asked_is_of_the_day();
}
