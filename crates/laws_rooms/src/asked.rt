//! What is asked for is shown.
ghost use Rattle.std.specs.Prelude.{ℕ, List};
ghost use Rattle.investor_desk.specs.InvestorFacts.{Asked};
ghost use Rattle.investor_desk.specs.declared.standing.AcceptedRequest.{AcceptedRequest};
ghost use Rattle.laws_rooms.specs.Shown.{IsShownOnce};
ghost use Rattle.step_replay.specs.AuditTrail as venue;
ghost use Rattle.step_replay.specs.Lists.{In};
ghost use Rattle.step_replay.specs.VenueFacts.{of_dealer};
ghost use Rattle.step_replay.specs.declared.steps.Step.{Step};
ghost use Rattle.laws_days.specs.LiveDuties.{NoDutyIsLeft};
ghost use Rattle.laws_shown.specs.ShownRequests.{at_investor, room_of};
ghost use Rattle.venue_rows.specs.Rows.{Configuration};

use dealer_desk::{limits_are_kept, what_is_asked_is_of_the_day};

/// Each accepted request is shown once to each dealer that it names.
///
/// Its room stands at one place in the list of rooms that this dealer was shown (`specs/Shown`).
///
/// It ends at: days on which work is left; that a QuoteRequest (35=R) is sent each time a request
/// is shown, and its 131: a definition says so (`DealerOutput`), and no law. (By
/// `laws_shown::requests_are_shown_as_written` these are the dealers that the investor wrote in
/// 448.)
pub fn each_accepted_request_is_shown()
    ensures { (config : Configuration) (steps : List Step) (investor : ℕ)
        (request : AcceptedRequest) (dealer : ℕ)
        → NoDutyIsLeft (venue.audit_trail config steps)
        → In (Asked request) (at_investor investor (venue.audit_trail config steps).facts)
        → In dealer request.dealers
        → IsShownOnce (of_dealer dealer (venue.audit_trail config steps).facts)
        (room_of investor request.number) }
{
    limits_are_kept();
    what_is_asked_is_of_the_day();
}
