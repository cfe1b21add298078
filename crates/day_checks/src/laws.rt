//! Laws of days on threads: what is true of every day that keeps what `run_day` ensures, of every
//! two of them, and of one beside a replay.
ghost use Rattle.std.specs.Prelude.{◌≡◌, ◌↔◌, ℕ, List, None, Some};
ghost use Rattle.std.specs.Option.{option_map};
ghost use Rattle.venue_rows.specs.Rows.{Configuration, dealer_numbered};
ghost use Rattle.venue_rows.specs.declared.dealer_rows.DealerRow.{DealerRow};
ghost use Rattle.step_replay.specs.AuditTrail as venue;
ghost use Rattle.recorded_days.specs.DayDues.{day_dues_of};
ghost use Rattle.step_replay.specs.DealerView.{dealer_view};
ghost use Rattle.recorded_days.specs.Records.{RecordedDay};
ghost use Rattle.recorded_days.specs.declared.actions.Inbound.{Inbound};
ghost use Rattle.recorded_days.specs.declared.actions.Sweep.{Sweep};
ghost use Rattle.step_replay.specs.declared.steps.Step.{Step};
ghost use Rattle.recorded_days.specs.Records.{DealerLists, InvestorLists};
ghost use Rattle.day_checks.specs.AnsweredResponses.{first_unanswered};
ghost use Rattle.day_checks.specs.DayActions.{EventsAreOfActions};
ghost use Rattle.day_checks.specs.DayChecks.{DayRoom, first_unswept, first_untold};
ghost use Rattle.day_checks.specs.DayPromises.{EachNumbered, IsOfActions, WasAnswered};
ghost use Rattle.day_checks.specs.DayPromises.{WasRelayed, WasShown, WasSwept, WasTold};
ghost use Rattle.day_checks.specs.KeptDays.{KeepsDay, names_of, rooms_of_venue, sent_on};
ghost use Rattle.day_checks.specs.RelayedQuotes.{first_unrelayed};
ghost use Rattle.day_checks.specs.ShownRequests.{first_unshown};
ghost use Rattle.step_replay.specs.Lists.{Every};

use step_replay::dealers_are_sent_their_view;

/// On a day on threads each dealer was sent the dealer view of its due list, read off the events at
/// its desk (`recorded_days/specs/DayDues`; `recorded_days::DayRecord::due`).
///
/// So the headline holds for two such days, and for one such day and a list of steps
/// (`dealers_are_isolated_on_threads`).
pub fn dealers_of_a_day_are_sent_their_view()
    ensures { (config : Configuration) (inboxes : List (List Inbound)) (sweeps : List Sweep)
        (day : RecordedDay) (dealer : ℕ) (row : DealerRow)
        → KeepsDay config inboxes sweeps day → dealer_numbered config dealer ≡ Some row
        → sent_on day dealer
        ≡ option_map (dealer_view config.date row) (day_dues_of config day dealer) }
{}

/// With one date and one row, equal due lists of a dealer give equal messages, byte for byte, on
/// two days on threads (`days`), and on one such day and in a list of steps that is replayed
/// (`replayed`).
///
/// The threads may have run in any way. What came from all other firms may differ, with the numbers
/// of the firms, the bonds and all other rows.
pub fn dealers_are_isolated_on_threads()
    ensures days { (one other : Configuration) (inboxes others : List (List Inbound))
        (sweeps clocked : List Sweep) (day later : RecordedDay) (dealer number : ℕ)
        (row : DealerRow) → KeepsDay one inboxes sweeps day → KeepsDay other others clocked later
        → one.date ≡ other.date
        → dealer_numbered one dealer ≡ Some row → dealer_numbered other number ≡ Some row
        → day_dues_of one day dealer ≡ day_dues_of other later number
        → sent_on day dealer ≡ sent_on later number }
    ensures replayed { (one other : Configuration) (steps : List Step)
        (inboxes : List (List Inbound)) (sweeps : List Sweep) (day : RecordedDay)
        (dealer number : ℕ) (row : DealerRow) → KeepsDay other inboxes sweeps day
        → one.date ≡ other.date
        → dealer_numbered one dealer ≡ Some row → dealer_numbered other number ≡ Some row
        → Some (venue.due_to dealer (venue.audit_trail one steps))
        ≡ day_dues_of other day number
        → Some (venue.sent_to one dealer (venue.audit_trail one steps)) ≡ sent_on day number }
{
    dealers_are_sent_their_view();
}

/// Each check of a day on threads finds no fault exactly where its sentence in `DayPromises` is
/// true, so no day that keeps them is refused.
///
/// For quotes and replies that is the test of one room. The rooms are those of a venue.
pub fn checks_decide_what_is_promised()
    ensures told { (config : Configuration) (rooms : List DayRoom) (dealers : List DealerLists)
        → names_of rooms ≡ rooms_of_venue config
        → (first_untold rooms dealers ≡ None) ↔ EachNumbered (WasTold rooms) 0 dealers }
    ensures swept { (sweeps : List Sweep) (rooms : List DayRoom)
        → (first_unswept sweeps rooms ≡ None) ↔ Every (WasSwept sweeps) rooms }
    ensures shown { (config : Configuration) (rooms : List DayRoom) (dealers : List DealerLists)
        → names_of rooms ≡ rooms_of_venue config
        → (first_unshown rooms dealers ≡ None) ↔ EachNumbered (WasShown rooms) 0 dealers }
    ensures relayed { (config : Configuration) (first : ℕ) (investors : List InvestorLists)
        (rooms : List DayRoom) → (first_unrelayed config first investors rooms ≡ None)
        ↔ Every (WasRelayed config first investors) rooms }
    ensures answered { (first : ℕ) (investors : List InvestorLists) (rooms : List DayRoom)
        → (first_unanswered first investors rooms ≡ None)
        ↔ Every (WasAnswered first investors) rooms }
    ensures of_actions { (day : RecordedDay) → EventsAreOfActions day ↔ IsOfActions day }
{}
