//! Laws of what is noted beside an investor's messages: what is true of every list of steps of every
//! venue.
ghost use Rattle.std.specs.Prelude.{◌≡◌, ℕ, List, Some};
ghost use Rattle.venue_rows.specs.Rows.{Configuration, investor_numbered};
ghost use Rattle.venue_rows.specs.declared.investor_rows.InvestorRow.{InvestorRow};
ghost use Rattle.investor_desk.specs.InvestorDesk.{market_of};
ghost use Rattle.step_replay.specs.AuditTrail.{audit_trail};
ghost use Rattle.step_replay.specs.NotedTrail.{notes_by};
ghost use Rattle.step_replay.specs.VenueFacts.{of_investor};
ghost use Rattle.step_replay.specs.declared.steps.Step.{Step};
ghost use Rattle.investor_views.specs.InvestorDues.{due_to_investor};
ghost use Rattle.investor_views.specs.InvestorView.{seen_by};
ghost use Rattle.investor_views.specs.NoteView.{note_view};

/// The notes beside an investor's messages are the note view of its due list, by its market.
pub fn investors_are_noted_their_view()
    ensures { (config : Configuration) (steps : List Step) (investor : ℕ) (row : InvestorRow)
        → investor_numbered config investor ≡ Some row
        → notes_by (market_of config investor row)
        (of_investor investor (audit_trail config steps).facts)
        ≡ note_view (seen_by config row) (due_to_investor config investor steps) }
{}

/// With the same market and the same due list in two venues, the same is noted beside an investor's
/// messages, whatever else differs.
pub fn notes_are_isolated()
    ensures { (one other : Configuration) (steps others : List Step) (investor number : ℕ)
        (row again : InvestorRow)
        → investor_numbered one investor ≡ Some row → investor_numbered other number ≡ Some again
        → seen_by one row ≡ seen_by other again
        → due_to_investor one investor steps ≡ due_to_investor other number others
        → notes_by (market_of one investor row)
        (of_investor investor (audit_trail one steps).facts)
        ≡ notes_by (market_of other number again)
        (of_investor number (audit_trail other others).facts) }
{
    investors_are_noted_their_view();
}
