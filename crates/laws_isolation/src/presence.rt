//! What other dealers do is not heard behind a hit either.
ghost use Rattle.std.specs.Prelude.{◌≡◌, ℕ, List};
ghost use Rattle.venue_rows.specs.Rows.{Configuration};
ghost use Rattle.step_replay.specs.AuditTrail as venue;
ghost use Rattle.laws_days.specs.PriceAlike.{IsOneButForCover};
ghost use Rattle.step_replay.specs.LiveDays.{live_trail};
ghost use Rattle.laws_isolation.specs.Presence.{AreOneButForPresence, AreOneButForPresenceLive};
ghost use Rattle.laws_isolation.specs.Presence.{Beside, first_day, second_day};

use dealer_desk::{limits_are_kept, what_is_asked_is_of_the_day};
use fix_fields::frame_of_is_the_reading;

/// If two days of one venue differ only in what other dealers send, in when the venue does its work
/// for them, and in which quotes hits name, and the same hits award requests to the same dealers, a
/// dealer's due lists are the same, except that a notice may say cover on one day and done away on
/// the other.
///
/// The premises: behind each step of both days, the same requests have been awarded to the same
/// dealers, and the same messages have left a hit.
///
/// It ends at: hits that are awarded otherwise; what an investor does about quotes, but for the
/// quote that a hit names.
pub fn presence_is_not_told()
    ensures { (config : Configuration) (days : List Beside) (dealer : ℕ)
        → AreOneButForPresence config dealer days
        → IsOneButForCover (venue.due_to dealer (venue.audit_trail config (first_day days)))
        (venue.due_to dealer (venue.audit_trail config (second_day days))) }
{
    frame_of_is_the_reading();
    limits_are_kept();
    what_is_asked_is_of_the_day();
}

/// If two live days of one venue differ only in what other dealers send and in which quotes hits
/// name, and the same hits award requests to the same dealers, a dealer's due lists are the same,
/// except that a notice may say cover on one day and done away on the other.
///
/// On a live day all turns of a step's actor follow the step. So a message may leave a hit on one
/// day alone: that hit is refused.
///
/// The premises: behind each step of both days, the same requests have been awarded to the same
/// dealers, and the venue has no work left.
///
/// It ends at: hits that are awarded otherwise; what an investor does about quotes, but for the
/// quote that a hit names.
pub fn presence_is_not_told_on_live_days()
    ensures { (config : Configuration) (days : List Beside) (dealer : ℕ)
        → AreOneButForPresenceLive config dealer days
        → IsOneButForCover (venue.due_to dealer (live_trail config (first_day days)))
        (venue.due_to dealer (live_trail config (second_day days))) }
{
    frame_of_is_the_reading();
    limits_are_kept();
    what_is_asked_is_of_the_day();
}
