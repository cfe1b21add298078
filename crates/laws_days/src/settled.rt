//! Which step settled a word.
ghost use Rattle.std.specs.Prelude.{◌≡◌, ℕ, true, List, Some};
ghost use Rattle.venue_rows.specs.Rows.{Configuration, dealer_numbered};
ghost use Rattle.venue_rows.specs.declared.dealer_rows.DealerRow.{DealerRow};
ghost use Rattle.step_replay.specs.AuditTrail as venue;
ghost use Rattle.step_replay.specs.DealerTrail.{was_lifted, was_withdrawn};
ghost use Rattle.step_replay.specs.VenueFacts.{of_dealer};
ghost use Rattle.step_replay.specs.declared.steps.Step.{Step};
ghost use Rattle.laws_days.specs.AskedWords.{HasStep, WouldLift, WouldWithdraw};

/// Each settled word was settled by something of that day that asked it: a message of its dealer or
/// the turn of a drop of its dealer (`withdrawn`), or the turn of a hit (`lifted`).
///
/// Each of them is judged by the day before it.
pub fn settled_words_were_asked()
    ensures withdrawn { (config : Configuration) (steps : List Step) (dealer : ℕ) (row : DealerRow)
        (quote : ℕ) → dealer_numbered config dealer ≡ Some row
        → was_withdrawn (of_dealer dealer (venue.audit_trail config steps).facts) quote ≡ true
        → HasStep config steps (WouldWithdraw config dealer row quote) }
    ensures lifted { (config : Configuration) (steps : List Step) (dealer quote : ℕ)
        → was_lifted (of_dealer dealer (venue.audit_trail config steps).facts) quote ≡ true
        → HasStep config steps (WouldLift config dealer quote) }
{}
