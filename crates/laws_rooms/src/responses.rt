//! Each hit and each pass is answered.
ghost use Rattle.std.specs.Prelude.{◌≡◌, ℕ, List, Some};
ghost use Rattle.investor_desk.specs.InvestorDesk.{market_of};
ghost use Rattle.laws_rooms.specs.Responses.{AreAnswered, responses_left};
ghost use Rattle.step_replay.specs.AuditTrail as venue;
ghost use Rattle.step_replay.specs.declared.steps.Step.{Step};
ghost use Rattle.laws_days.specs.LiveDuties.{NoDutyIsLeft};
ghost use Rattle.venue_rows.specs.Rows.{Configuration, investor_numbered};
ghost use Rattle.venue_rows.specs.declared.investor_rows.InvestorRow.{InvestorRow};

use dealer_desk::{limits_are_kept, what_is_asked_is_of_the_day};

/// Each hit and each pass that a message left as work is answered once, in order, and no such
/// answer goes to anything else.
///
/// The answers are the investor's messages 35=AI that have 693 and are not 297=9. They bear the
/// 693, the 52 and the k of 117=Qk that stand in the duty, as the desk read them
/// (`specs/Responses`).
///
/// It ends at: days on which work is left; which fields the answers have; which quote a message
/// names, and which room: the desk's definition says it; whether an answer is an award or a
/// refusal.
pub fn each_response_is_answered()
    ensures { (config : Configuration) (steps : List Step) (investor : ℕ) (row : InvestorRow)
        → investor_numbered config investor ≡ Some row
        → NoDutyIsLeft (venue.audit_trail config steps)
        → AreAnswered (market_of config investor row)
        (venue.sent_to config investor (venue.audit_trail config steps))
        (responses_left config investor steps) }
{
    limits_are_kept();
    what_is_asked_is_of_the_day();
}
