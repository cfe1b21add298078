//! Laws of an investor's desk: what it sends is a view of the events there, whatever brought them.
ghost use Rattle.std.specs.Prelude.{◌≡◌, ℕ, List, Some, fold, true};
ghost use Rattle.venue_rows.specs.Rows.{Configuration, investor_numbered};
ghost use Rattle.venue_rows.specs.declared.investor_rows.InvestorRow.{InvestorRow};
ghost use Rattle.investor_desk.specs.InvestorDesk.{market_of, no_events};
ghost use Rattle.investor_desk.specs.InvestorOutput.{desk_after, investor_output};
ghost use Rattle.investor_desk.specs.InvestorRules.{InvestorMarket};
ghost use Rattle.investor_desk.specs.declared.events.InvestorEvent.{InvestorEvent};
ghost use Rattle.step_replay.specs.AuditTrail.{audit_trail};
ghost use Rattle.step_replay.specs.InvestorEvents.{happened_to};
ghost use Rattle.step_replay.specs.InvestorTrail.{facts_of};
ghost use Rattle.step_replay.specs.VenueFacts.{of_investor};
ghost use Rattle.step_replay.specs.declared.steps.Step.{Step};
ghost use Rattle.investor_views.specs.DeskView.{all_fit, desk_view, fitting_dues_from, seen_at};
ghost use Rattle.investor_views.specs.InvestorDues.{event_dues};
ghost use Rattle.investor_views.specs.InvestorView.{investor_view, where_it_fits};

/// What a desk sends for events, whatever they are, is the desk view of what was due by them
/// (`by_events`). What it sends if it takes those alone that fit what stands there is the investor
/// view of what is due by them (`taken`), and so is what it sends for events that all fit
/// (`fitting`).
///
/// In a day that is replayed, each event at an investor's desk fits what stands there (`fit`), and
/// the desk has the facts of its investor's trail (`by_trail`).
pub fn desks_send_their_view()
    ensures by_events { (market : InvestorMarket) (events : List InvestorEvent)
        → investor_output market events
        ≡ desk_view (seen_at market) (event_dues market events) }
    ensures taken { (market : InvestorMarket) (events : List InvestorEvent)
        → investor_output market (fold where_it_fits (no_events market) events).events
        ≡ investor_view (seen_at market) (fitting_dues_from (no_events market) events) }
    ensures fitting { (market : InvestorMarket) (events : List InvestorEvent)
        → all_fit (no_events market) events ≡ true
        → investor_output market events
        ≡ investor_view (seen_at market) (event_dues market events) }
    ensures fit { (config : Configuration) (steps : List Step) (investor : ℕ) (row : InvestorRow)
        → investor_numbered config investor ≡ Some row
        → all_fit (no_events (market_of config investor row))
        (happened_to investor (audit_trail config steps)) ≡ true }
    ensures by_trail { (config : Configuration) (steps : List Step) (investor : ℕ)
        (row : InvestorRow) → investor_numbered config investor ≡ Some row
        → (desk_after (market_of config investor row)
        (happened_to investor (audit_trail config steps))).facts
        ≡ facts_of (of_investor investor (audit_trail config steps).facts) }
{}
