//! A law of days whose steps come one by one.
ghost use Rattle.std.specs.Prelude.{ℕ, List, [], ◌∷◌, ◌++◌};
ghost use Rattle.venue_rows.specs.Rows.{Configuration};
ghost use Rattle.step_replay.specs.LiveDays.{Sent, live_trail};
ghost use Rattle.step_replay.specs.LiveStanding.{Answers, AnswersSweeps};
ghost use Rattle.step_replay.specs.VenueRooms.{sweeps_at, rooms_of};
ghost use Rattle.step_replay.specs.declared.live.LiveVenue.{LiveVenue};
ghost use Rattle.step_replay.specs.declared.steps.Step.{Step};
ghost use Rattle.laws_days.specs.LiveDuties.{NoDutyIsLeft};

/// After each line that it answers, the live venue has no work left.
///
/// No actor has a duty at the start (`start`), and none has one after a step (`step`) or a sweep
/// (`sweep`) that the venue answers (`Answers`, `AnswersSweeps`) if none had before. So laws that
/// end at days on which a duty is left hold after each line of `live`, and of what it prints.
///
/// It ends at: what was put into the queues; a venue to which memory was refused.
pub fn no_duty_is_left_on_a_live_day()
    ensures start { (config : Configuration) → NoDutyIsLeft (live_trail config []) }
    ensures step { (config : Configuration) (steps : List Step) (next : Step)
        (after : LiveVenue) (told : List Sent)
        → NoDutyIsLeft (live_trail config steps) → Answers config steps next after told
        → NoDutyIsLeft (live_trail config (steps ++ next ∷ [])) }
    ensures sweep { (config : Configuration) (steps : List Step) (moment : ℕ)
        (after : LiveVenue) (told : List Sent)
        → NoDutyIsLeft (live_trail config steps)
        → AnswersSweeps config steps moment after told
        → NoDutyIsLeft (live_trail config (steps ++ sweeps_at moment (rooms_of config))) }
{}
