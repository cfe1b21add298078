//! A law: what is due to an investor on a day can be said.
ghost use Rattle.std.specs.Prelude.{◌≡◌, ℕ, List, Ok, true};
ghost use Rattle.std.specs.List.{list_all};
ghost use Rattle.venue_rows.specs.Rows.{Configuration, KeepsLimits, values_of};
ghost use Rattle.step_replay.specs.declared.steps.Step.{Step};
ghost use Rattle.investor_views.specs.InvestorDues.{due_to_investor};
ghost use Rattle.input_lines.specs.DueText.{Lines};
ghost use Rattle.input_lines.specs.StepLines.{steps_of};
ghost use Rattle.investor_texts.specs.ReadBack.{is_sayable};
ghost use Rattle.laws_dues.specs.SaidSteps.{has_bytes};

use dealer_desk::limits_are_kept;
use investor_views::desks_send_their_view;

/// Due text can say all that is due to an investor, on every day whose messages have bytes
/// (`steps`), and so on each that lines spell (`lines`), in every venue that keeps its limits.
///
/// Each dealer that quotes or declines has the name of a firm. The numbers of requests and quotes
/// are short: an investor's requests are at most 1,024, and of each dealer it is shown no more
/// quotes than that dealer may give in a day.
pub fn what_is_due_to_an_investor_can_be_said()
    ensures steps { (config : Configuration) (steps : List Step) (investor : ℕ)
        → KeepsLimits config → list_all has_bytes steps ≡ true
        → list_all is_sayable (due_to_investor config investor steps) ≡ true }
    ensures lines { (config : Configuration) (lines : Lines) (steps : List Step) (investor : ℕ)
        → KeepsLimits config → steps_of (values_of config) lines ≡ Ok steps
        → list_all is_sayable (due_to_investor config investor steps) ≡ true }
{
    limits_are_kept();
    desks_send_their_view();
}
