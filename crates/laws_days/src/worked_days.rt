//! Worked days of the whole venue, computed from the definitions.
ghost use Rattle.std.specs.Prelude.{◌≡◌, map};
ghost use Rattle.laws_days.specs.FourQuotes as four;
ghost use Rattle.laws_days.specs.WorkedDays as days;

/// On each worked day each firm is sent, by the definitions of the audit trail, what was written
/// down beforehand, byte for byte; on two of them what is due to a dealer is what was written down.
/// The day of four quotes has a venue of its own.
///
/// The proof computes each day.
pub fn definitions_give_the_worked_days()
    ensures sent { map days.sent_in days.worked_days ≡ map days.wanted_in days.worked_days }
    ensures four_quotes { four.sent_to_each ≡ four.wanted_by_each }
    ensures too_late { days.due_in days.cancelled_too_late ≡ days.wanted_too_late }
    ensures cancelled_all { days.due_in days.cancelled_all ≡ days.wanted_cancelled_all }
{}
