//! A cancel of all is answered.
ghost use Rattle.std.specs.Prelude.{◌≡◌, ℕ, ◌+◌, List, [], ◌∷◌, ◌++◌, Some, length};
ghost use Rattle.dealer_desk.specs.DealerRules.{dealer_verdict};
ghost use Rattle.dealer_desk.specs.declared.verdicts.DealerVerdict.TheVariants.{DropsFollow};
ghost use Rattle.laws_trades.specs.Cancels.{droppable, reports};
ghost use Rattle.step_replay.specs.AuditTrail.{sent_to};
ghost use Rattle.step_replay.specs.DealerTrail.{book_by};
ghost use Rattle.step_replay.specs.LiveDays.{live_trail};
ghost use Rattle.step_replay.specs.VenueFacts.{of_dealer};
ghost use Rattle.step_replay.specs.declared.steps.Step.{Step};
ghost use Rattle.step_replay.specs.declared.steps.Step.TheVariants.{In};
ghost use Rattle.laws_days.specs.LiveDuties.{NoDutyIsLeft};
ghost use Rattle.venue_rows.specs.Rows.{Configuration, dealer_numbered};
ghost use Rattle.venue_rows.specs.declared.dealer_rows.DealerRow.{DealerRow};

use dealer_desk::{limits_are_kept, what_is_asked_is_of_the_day};
use laws_days::no_duty_is_left_on_a_live_day;

/// After the line by which a dealer cancels all its quotes, it was sent one 35=AI more for each
/// quote that was droppable, in the order of acceptance, and nothing else.
///
/// Each has the quote's 117, the moment of the message, and 297=17, or 297=5 if the quote was
/// lifted (`specs/Cancels`).
///
/// It ends at: which lines cancel all (the desk's verdict `DropsFollow` says it); days whose steps
/// do not come one by one, or leave a duty; which fields the reports have.
pub fn a_cancel_of_all_is_answered()
    ensures { (config : Configuration) (steps : List Step) (dealer moment last : ℕ)
        (row : DealerRow) (bytes : List ℕ) → dealer_numbered config dealer ≡ Some row
        → dealer_verdict config.date row
        (book_by (of_dealer dealer (live_trail config steps).facts)) moment bytes
        ≡ DropsFollow last → NoDutyIsLeft (live_trail config steps)
        → NoDutyIsLeft (live_trail config (steps ++ In dealer moment bytes ∷ []))
        → sent_to config dealer (live_trail config (steps ++ In dealer moment bytes ∷ []))
        ≡ sent_to config dealer (live_trail config steps)
        ++ reports config.date row (of_dealer dealer (live_trail config steps).facts) moment
        (length (sent_to config dealer (live_trail config steps)) + 1)
        (droppable (of_dealer dealer (live_trail config steps).facts)) }
{
    limits_are_kept();
    what_is_asked_is_of_the_day();
    no_duty_is_left_on_a_live_day();
}
