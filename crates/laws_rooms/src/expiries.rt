//! Each expiry is told, once.
ghost use Rattle.std.specs.Prelude.{◌≡◌, ℕ, List, Some};
ghost use Rattle.investor_desk.specs.InvestorDesk.{market_of};
ghost use Rattle.laws_rooms.specs.Expiries.{AreExpired, requests_swept};
ghost use Rattle.step_replay.specs.AuditTrail as venue;
ghost use Rattle.step_replay.specs.declared.steps.Step.{Step};
ghost use Rattle.laws_days.specs.LiveDuties.{NoDutyIsLeft};
ghost use Rattle.laws_shown.specs.ShownRequests.{at_investor};
ghost use Rattle.venue_rows.specs.Rows.{Configuration, investor_numbered};
ghost use Rattle.venue_rows.specs.declared.investor_rows.InvestorRow.{InvestorRow};

use dealer_desk::{limits_are_kept, what_is_asked_is_of_the_day};

/// An investor's messages 297=7 name, in order, its requests whose rooms a sweep ended, each once
/// (`specs/Expiries`).
///
/// No room ends twice (`request_room::a_room_ends_once`).
///
/// It ends at: days on which a duty is left; which fields the messages have.
pub fn each_expiry_is_told_once()
    ensures { (config : Configuration) (steps : List Step) (investor : ℕ) (row : InvestorRow)
        → investor_numbered config investor ≡ Some row
        → NoDutyIsLeft (venue.audit_trail config steps)
        → AreExpired (market_of config investor row)
        (at_investor investor (venue.audit_trail config steps).facts)
        (venue.sent_to config investor (venue.audit_trail config steps))
        (requests_swept config investor steps) }
{
    limits_are_kept();
    what_is_asked_is_of_the_day();
}
