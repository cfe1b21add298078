//! Laws of days that go on, line by line.
ghost use Rattle.std.specs.Prelude.{◌≡◌, ◌++◌, ℕ, Bool, List, false, Some, Ok};
ghost use Rattle.step_replay.specs.AuditTrail.{due_to};
ghost use Rattle.step_replay.specs.DealerView.{dealer_view};
ghost use Rattle.step_replay.specs.LiveDays.{live_messages, live_trail};
ghost use Rattle.step_replay.specs.NoteViews.{dealer_note_view};
ghost use Rattle.step_replay.specs.declared.steps.Step.{Step};
ghost use Rattle.venue_rows.specs.Rows.{ConfigValues, Configuration, dealer_numbered, values_of};
ghost use Rattle.venue_rows.specs.declared.dealer_rows.DealerRow.{DealerRow};
ghost use Rattle.venue_text.specs.AskedDays.{firm_by};
ghost use Rattle.input_lines.specs.DueText.{Lines};
ghost use Rattle.venue_text.specs.FirmLines.{firm_part, line_messages};
ghost use Rattle.venue_text.specs.KeptDays.{kept_text, messages, noted};
ghost use Rattle.venue_text.specs.LiveInput as spec;
ghost use Rattle.venue_text.specs.LiveLines.{Taken, gained_messages, line_fault, line_text};
ghost use Rattle.venue_text.specs.LiveLines.{live_text, nothing_taken, told_text, with_any_line};
ghost use Rattle.venue_text.specs.MessageLines.{messages_text};
ghost use Rattle.venue_text.specs.NotedText.{dealer_noted_text};
ghost use Rattle.venue_text.specs.declared.live_form.LiveForm.{LiveForm};

use step_replay::{dealers_are_given_their_view, firms_are_sent_one_list};

/// In what pieces an input comes makes no difference to what its lines bring: where the parts of
/// two inputs are the same lines, they bring the same steps, and so the same messages, and the same
/// faults.
pub fn lines_bring_the_same_however_they_come()
    ensures { (config : ConfigValues) (parts others : List Lines)
        → spec.lines_in parts ≡ spec.lines_in others
        → spec.taken_by config (nothing_taken config) parts
        ≡ spec.taken_by config (nothing_taken config) others }
{}

/// Without marks and notes all that is printed for lines are the messages of all their steps, which
/// are those of each line after those of the lines before.
pub fn without_marks_a_day_is_its_messages()
    ensures gained { (config : Configuration) (taken more : List Step)
        → live_messages config (taken ++ more)
        ≡ live_messages config taken ++ gained_messages config taken more }
    ensures unmarked { (frames : Bool) (config : Configuration) (lines : List (List ℕ))
        → spec.text_in (record { frames = frames; marks = false; notes = false }) config lines
        ≡ live_text frames config (spec.taken_in config lines).steps }
{}

/// What `replay --live FIRM` prints is what `live` prints of that firm, line for line.
///
/// For a line of steps `live` prints the messages that it brings, a line each, and after them its
/// mark, where the form has marks (`line`). Of these lines of messages, those of a firm are all
/// that is printed of it at the end of the same day (`firm`). Of a dealer they are what `alone`
/// prints of its due list on that day (`dealer`).
pub fn a_firm_is_printed_what_live_prints_of_it()
    ensures line { (form : LiveForm) (config : Configuration) (taken : Taken) (k : ℕ)
        (line : List ℕ) → line_text form config taken k line
        ≡ told_text form config (with_any_line (values_of config) taken (k, line)).steps k
        (line_messages config taken (k, line)) (line_fault (values_of config) taken (k, line)) }
    ensures firm { (frames : Bool) (config : Configuration) (name : List ℕ) (firm : ℕ)
        (lines : List (List ℕ)) → firm_by name (values_of config) ≡ Ok firm
        → kept_text (messages (Some name) frames) config (spec.taken_in config lines).steps
        ≡ firm_part frames config firm lines }
    ensures dealer { (frames : Bool) (config : Configuration) (dealer : ℕ) (row : DealerRow)
        (lines : List (List ℕ)) → dealer_numbered config dealer ≡ Some row
        → messages_text frames row.name (dealer_view config.date row
        (due_to dealer (live_trail config (spec.taken_in config lines).steps)))
        ≡ firm_part frames config dealer lines }
{
    firms_are_sent_one_list();
    dealers_are_given_their_view();
}

/// What `replay --live --notes` prints of a dealer is what `alone --notes` prints of its due list
/// on that day, with every reason and every name of a trade.
pub fn a_dealer_is_printed_what_its_desk_notes()
    ensures { (frames : Bool) (config : Configuration) (name : List ℕ) (dealer : ℕ)
        (row : DealerRow) (steps : List Step) → firm_by name (values_of config) ≡ Ok dealer
        → dealer_numbered config dealer ≡ Some row
        → kept_text (noted (Some name) frames) config steps
        ≡ dealer_noted_text frames config.date row.name
        (dealer_note_view config.date row (due_to dealer (live_trail config steps)))
        (dealer_view config.date row (due_to dealer (live_trail config steps))) }
{
    dealers_are_given_their_view();
}
