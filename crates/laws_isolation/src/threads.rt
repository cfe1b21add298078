//! Laws of investors on days on threads: what is true of every day that keeps what `run_day`
//! ensures, of every two of them, and of one beside a replay.
ghost use Rattle.std.specs.Prelude.{◌≡◌, ℕ, List, Some};
ghost use Rattle.std.specs.Option.{option_map};
ghost use Rattle.venue_rows.specs.Rows.{Configuration, investor_numbered};
ghost use Rattle.venue_rows.specs.declared.investor_rows.InvestorRow.{InvestorRow};
ghost use Rattle.step_replay.specs.AuditTrail as venue;
ghost use Rattle.step_replay.specs.declared.steps.Step.{Step};
ghost use Rattle.investor_views.specs.DeskView.{desk_view};
ghost use Rattle.investor_views.specs.InvestorDues.{due_to_investor};
ghost use Rattle.investor_views.specs.InvestorView.{investor_view, seen_by};
ghost use Rattle.recorded_days.specs.Records.{RecordedDay};
ghost use Rattle.recorded_days.specs.declared.actions.Inbound.{Inbound};
ghost use Rattle.recorded_days.specs.declared.actions.Sweep.{Sweep};
ghost use Rattle.day_weaving.specs.Weaving.{SendAsRecorded, sent_by_record};
ghost use Rattle.day_checks.specs.KeptDays.{KeepsDay};
ghost use Rattle.laws_isolation.specs.DayViews.{EventsFit, investor_dues_of, investor_sent_on};

use investor_views::{
    desks_send_their_view, investors_are_given_their_view, investors_are_sent_their_view,
};

/// On threads, an investor's due list is read off the events at its desk, and what it was sent is
/// the desk view of that (`sent`). This is the investor view if the day is woven (`woven`), and
/// wherever each event fits what stood at the desk before it (`fitting`).
///
/// It ends at: that each event fits, which `KeepsDay` does not say.
pub fn investors_of_a_day_are_sent_their_view()
    ensures sent { (config : Configuration) (inboxes : List (List Inbound)) (sweeps : List Sweep)
        (day : RecordedDay) (investor : ℕ) (row : InvestorRow)
        → KeepsDay config inboxes sweeps day → investor_numbered config investor ≡ Some row
        → investor_sent_on day investor
        ≡ option_map (desk_view (seen_by config row)) (investor_dues_of config day investor) }
    ensures fitting { (config : Configuration) (inboxes : List (List Inbound))
        (sweeps : List Sweep) (day : RecordedDay) (investor : ℕ) (row : InvestorRow)
        → KeepsDay config inboxes sweeps day → investor_numbered config investor ≡ Some row
        → EventsFit config day investor
        → investor_sent_on day investor
        ≡ option_map (investor_view (seen_by config row)) (investor_dues_of config day investor) }
    ensures woven { (config : Configuration) (day : RecordedDay) (steps : List Step)
        (investor : ℕ) (row : InvestorRow)
        → SendAsRecorded config day steps → investor_numbered config investor ≡ Some row
        → sent_by_record day investor
        ≡ Some (investor_view (seen_by config row) (due_to_investor config investor steps)) }
{
    desks_send_their_view();
    investors_are_given_their_view();
}

/// What is due to an investor in a list of steps fits what stands at its desk, item by item, so its
/// desk view is its investor view.
pub fn lists_of_a_replay_fit()
    ensures { (config : Configuration) (steps : List Step) (investor : ℕ) (row : InvestorRow)
        → investor_numbered config investor ≡ Some row
        → desk_view (seen_by config row) (due_to_investor config investor steps)
        ≡ investor_view (seen_by config row) (due_to_investor config investor steps) }
{
    desks_send_their_view();
}

/// The same market and the same due list gave an investor the same bytes on two days on threads
/// (`days`), and on one such day and in a list of steps that is replayed (`replayed`).
///
/// The threads may have run in any way. All else may differ: the limits of the dealers, all other
/// investors, the numbers of the investors, what came from all other firms and the words of all
/// quotes.
pub fn investors_are_isolated_on_threads()
    ensures days { (one other : Configuration) (inboxes others : List (List Inbound))
        (sweeps clocked : List Sweep) (day later : RecordedDay) (investor number : ℕ)
        (row again : InvestorRow)
        → KeepsDay one inboxes sweeps day → KeepsDay other others clocked later
        → investor_numbered one investor ≡ Some row → investor_numbered other number ≡ Some again
        → seen_by one row ≡ seen_by other again
        → investor_dues_of one day investor ≡ investor_dues_of other later number
        → investor_sent_on day investor ≡ investor_sent_on later number }
    ensures replayed { (one other : Configuration) (steps : List Step)
        (inboxes : List (List Inbound)) (sweeps : List Sweep) (day : RecordedDay)
        (investor number : ℕ) (row again : InvestorRow)
        → KeepsDay other inboxes sweeps day
        → investor_numbered one investor ≡ Some row → investor_numbered other number ≡ Some again
        → seen_by one row ≡ seen_by other again
        → Some (due_to_investor one investor steps) ≡ investor_dues_of other day number
        → Some (venue.sent_to one investor (venue.audit_trail one steps))
        ≡ investor_sent_on day number }
{
    investors_of_a_day_are_sent_their_view();
    lists_of_a_replay_fit();
    investors_are_sent_their_view();
}
