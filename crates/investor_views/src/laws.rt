//! Laws of what an investor is sent: what is true of every list of steps of every venue.
ghost use Rattle.std.specs.Prelude.{◌≡◌, ℕ, List, Some, slice_get};
ghost use Rattle.std.specs.Option.{option_map};
ghost use Rattle.venue_rows.specs.Rows.{Configuration, investor_numbered};
ghost use Rattle.venue_rows.specs.declared.investor_rows.InvestorRow.{InvestorRow};
ghost use Rattle.step_replay.specs.AuditTrail as venue;
ghost use Rattle.step_replay.specs.FirmDays.{FirmDay, firm_days};
ghost use Rattle.step_replay.specs.LiveDays.{live_messages, live_steps, messages_for};
ghost use Rattle.step_replay.specs.declared.steps.Step.{Step};
ghost use Rattle.investor_views.specs.InvestorDues.{due_to_investor};
ghost use Rattle.investor_views.specs.InvestorView.{investor_view, seen_by};

use step_replay::firms_are_sent_one_list;

/// After every list of steps, what an investor was sent is the investor view of its due list, by
/// its [market](docs/PROOFS.md#investors).
pub fn investors_are_sent_their_view()
    ensures { (config : Configuration) (steps : List Step) (investor : ℕ) (row : InvestorRow)
        → investor_numbered config investor ≡ Some row
        → venue.sent_to config investor (venue.audit_trail config steps)
        ≡ investor_view (seen_by config row) (due_to_investor config investor steps) }
{}

/// What an investor is sent follows from its [market](docs/PROOFS.md#investors) and its due list:
/// if both are the same in two venues, so is every byte.
///
/// All else may differ: the limits of the dealers, all other investors, the investor's number among
/// the firms, the steps of every other firm and the words of all quotes.
///
/// It ends at: what the due list itself gives away; times and session numbers on the wire.
pub fn investors_are_isolated()
    ensures { (one other : Configuration) (steps others : List Step) (investor number : ℕ)
        (row again : InvestorRow)
        → investor_numbered one investor ≡ Some row → investor_numbered other number ≡ Some again
        → seen_by one row ≡ seen_by other again
        → due_to_investor one investor steps ≡ due_to_investor other number others
        → venue.sent_to one investor (venue.audit_trail one steps)
        ≡ venue.sent_to other number (venue.audit_trail other others) }
{
    investors_are_sent_their_view();
}

/// A replay (`days`) and a live venue (`live`) give an investor the investor view of its due list.
pub fn investors_are_given_their_view()
    ensures days { (config : Configuration) (steps : List Step) (investor : ℕ) (row : InvestorRow)
        → investor_numbered config investor ≡ Some row
        → option_map (λ (day : FirmDay). day.sent)
        (slice_get (firm_days config (venue.audit_trail config steps).facts) investor)
        ≡ Some (investor_view (seen_by config row) (due_to_investor config investor steps)) }
    ensures live { (config : Configuration) (steps : List Step) (investor : ℕ) (row : InvestorRow)
        → investor_numbered config investor ≡ Some row
        → messages_for investor (live_messages config steps)
        ≡ investor_view (seen_by config row) (due_to_investor config investor (live_steps steps)) }
{
    investors_are_sent_their_view();
    firms_are_sent_one_list();
}
