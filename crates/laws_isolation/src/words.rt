//! A law of the words of quotes on a day on threads.
ghost use Rattle.std.specs.Prelude.{◌≡◌, ℕ, List};
ghost use Rattle.quote_word.specs.declared.settled.Settled.{Settled};
ghost use Rattle.quote_word.specs.declared.settled.Settled.TheVariants.{Lifted};
ghost use Rattle.venue_rows.specs.Rows.{Configuration};
ghost use Rattle.recorded_days.specs.Records.{RecordedDay};
ghost use Rattle.recorded_days.specs.declared.actions.Inbound.{Inbound};
ghost use Rattle.recorded_days.specs.declared.actions.Sweep.{Sweep};
ghost use Rattle.day_checks.specs.KeptDays.{KeepsDay};
ghost use Rattle.laws_isolation.specs.DayWords.{HasWon, WasAsked};

/// On a day on threads all who asked a word were told one settlement (`asked`): lifted, where its
/// quote won (`won`).
///
/// So no dealer was told that a quote is withdrawn which traded, and no investor that a quote is
/// its own which a dealer had withdrawn.
pub fn words_of_a_day_have_one_settlement()
    ensures asked { (config : Configuration) (inboxes : List (List Inbound)) (sweeps : List Sweep)
        (day : RecordedDay) (word : ℕ) (one other : Settled)
        → KeepsDay config inboxes sweeps day → WasAsked config day (word, one)
        → WasAsked config day (word, other) → one ≡ other }
    ensures won { (config : Configuration) (inboxes : List (List Inbound)) (sweeps : List Sweep)
        (day : RecordedDay) (word : ℕ) (settled : Settled)
        → KeepsDay config inboxes sweeps day → HasWon day word
        → WasAsked config day (word, settled) → settled ≡ Lifted }
{}
