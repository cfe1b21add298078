//! Each quote that is gone is reported.
ghost use Rattle.std.specs.Prelude.{◌≡◌, ℕ, List, Some};
ghost use Rattle.investor_desk.specs.InvestorDesk.{market_of};
ghost use Rattle.laws_rooms.specs.Reports.{AreReported};
ghost use Rattle.step_replay.specs.AuditTrail as venue;
ghost use Rattle.step_replay.specs.declared.steps.Step.{Step};
ghost use Rattle.laws_shown.specs.ShownRequests.{at_investor};
ghost use Rattle.venue_rows.specs.Rows.{Configuration, investor_numbered};
ghost use Rattle.venue_rows.specs.declared.investor_rows.InvestorRow.{InvestorRow};

use dealer_desk::{limits_are_kept, what_is_asked_is_of_the_day};

/// An investor's messages 35=AI with 297=17 name, in order, the quotes that are gone by the facts
/// at its desk, each once, by the request's 131 and the quote's 117 (`specs/Reports`).
///
/// It ends at: which fields the messages have; why a quote is gone (of that
/// `laws_rooms::each_answer_is_told_in_its_turn`).
pub fn each_quote_that_is_gone_is_reported()
    ensures { (config : Configuration) (steps : List Step) (investor : ℕ) (row : InvestorRow)
        → investor_numbered config investor ≡ Some row
        → AreReported (market_of config investor row)
        (at_investor investor (venue.audit_trail config steps).facts)
        (venue.sent_to config investor (venue.audit_trail config steps)) }
{
    limits_are_kept();
    what_is_asked_is_of_the_day();
}
