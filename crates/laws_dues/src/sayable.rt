//! Laws: what is due on a day can be said.
ghost use Rattle.std.specs.Prelude.{◌≡◌, ℕ, List, Ok, true};
ghost use Rattle.std.specs.List.{list_all};
ghost use Rattle.venue_rows.specs.Rows.{ConfigValues, Configuration, KeepsLimits, values_of};
ghost use Rattle.step_replay.specs.AuditTrail as venue;
ghost use Rattle.step_replay.specs.LiveDays.{live_steps};
ghost use Rattle.step_replay.specs.declared.steps.Step.{Step};
ghost use Rattle.input_lines.specs.DueText.{Lines};
ghost use Rattle.input_lines.specs.StepLines.{steps_of};
ghost use Rattle.venue_text.specs.ReadBack.{is_sayable};
ghost use Rattle.laws_dues.specs.SaidSteps.{has_bytes};

use dealer_desk::limits_are_kept;

/// Each message that lines spell has a byte, be it said field by field, byte by byte or digit by
/// digit, or cut out of pieces (`lines`). Turns that come after steps bring none (`live`).
pub fn messages_have_bytes()
    ensures lines { (config : ConfigValues) (lines : Lines) (steps : List Step)
        → steps_of config lines ≡ Ok steps → list_all has_bytes steps ≡ true }
    ensures live { (steps : List Step)
        → list_all has_bytes steps ≡ true → list_all has_bytes (live_steps steps) ≡ true }
{}

/// Due text can say all that is due to a dealer, on every day whose messages have bytes (`steps`),
/// and so on each that lines spell (`lines`), in every venue that keeps its limits.
///
/// Each investor that asks has a name that a firm may have. The numbers of quotes and requests are
/// short: a dealer's quotes are at most 4,096, and its requests no more than the venue has rooms,
/// since each is shown to it once.
pub fn what_is_due_can_be_said()
    ensures steps { (config : Configuration) (steps : List Step) (dealer : ℕ)
        → KeepsLimits config → list_all has_bytes steps ≡ true
        → list_all is_sayable (venue.due_to dealer (venue.audit_trail config steps)) ≡ true }
    ensures lines { (config : Configuration) (lines : Lines) (steps : List Step) (dealer : ℕ)
        → KeepsLimits config → steps_of (values_of config) lines ≡ Ok steps
        → list_all is_sayable (venue.due_to dealer (venue.audit_trail config steps)) ≡ true }
{
    limits_are_kept();
}
