//! What another dealer's price can change for a dealer: who is told that its quote was the cover.
ghost use Rattle.std.specs.Prelude.{◌≡◌, ℕ, List};
ghost use Rattle.venue_rows.specs.Rows.{Configuration};
ghost use Rattle.step_replay.specs.AuditTrail as venue;
ghost use Rattle.laws_days.specs.PriceAlike.{IsPriceAlike, IsOneButForCover};
ghost use Rattle.step_replay.specs.declared.steps.Step.{Step};

use dealer_desk::{limits_are_kept, what_is_asked_is_of_the_day};
use fix_fields::frame_of_is_the_reading;

/// If two days of one venue differ only in lawful prices in other dealers' messages, a dealer's due
/// lists are the same, except that a notice may say cover on one day and done away on the other.
///
/// It ends at: prices that are not lawful; days that differ in more, such as in what an investor
/// does about a price.
pub fn price_law()
    ensures { (config : Configuration) (steps others : List Step) (dealer : ℕ)
        → IsPriceAlike config dealer steps others
        → IsOneButForCover (venue.due_to dealer (venue.audit_trail config steps))
        (venue.due_to dealer (venue.audit_trail config others)) }
{
    frame_of_is_the_reading();
    limits_are_kept();
    what_is_asked_is_of_the_day();
}
