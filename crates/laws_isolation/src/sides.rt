//! What firms do is not heard on the other side of a venue.
ghost use Rattle.std.specs.Prelude.{◌≡◌, ℕ, Bool, true, List};
ghost use Rattle.venue_rows.specs.Rows.{Configuration};
ghost use Rattle.step_replay.specs.AuditTrail as venue;
ghost use Rattle.step_replay.specs.LiveDays.{live_steps, live_trail};
ghost use Rattle.step_replay.specs.declared.steps.Step.{Step};
ghost use Rattle.investor_views.specs.InvestorDues.{due_to_investor};
ghost use Rattle.laws_isolation.specs.Apart.{AreOneThere};

/// Nothing on one side of a venue changes what is due to an investor (`investors`) or a dealer
/// (`dealers`) on the other side, or what it is sent (`sent`).
///
/// The premises: on each of the two days, nobody asks a dealer of the other side, and all turns of
/// a step's actor follow the step. On the first side the days may differ in all messages, whatever
/// they are and however many, in turns and in sweeps.
pub fn investors_are_apart()
    ensures investors { (config : Configuration) (side : ℕ → Bool) (steps others : List Step)
        (investor : ℕ) → side investor ≡ true → AreOneThere config side steps others
        → due_to_investor config investor (live_steps steps)
        ≡ due_to_investor config investor (live_steps others) }
    ensures dealers { (config : Configuration) (side : ℕ → Bool) (steps others : List Step)
        (dealer : ℕ) → side dealer ≡ true → AreOneThere config side steps others
        → venue.due_to dealer (live_trail config steps)
        ≡ venue.due_to dealer (live_trail config others) }
    ensures sent { (config : Configuration) (side : ℕ → Bool) (steps others : List Step)
        (firm : ℕ) → side firm ≡ true → AreOneThere config side steps others
        → venue.sent_to config firm (live_trail config steps)
        ≡ venue.sent_to config firm (live_trail config others) }
{}
