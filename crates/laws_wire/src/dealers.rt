//! A dealer of the venue, on the wire.
ghost use Rattle.std.specs.Prelude.{◌≡◌, ℕ, List, [], Option, Some, true};
ghost use Rattle.fix_fields.specs.Frame.{Field};
ghost use Rattle.dealer_desk.specs.declared.notes.DealerNote.{DealerNote};
ghost use Rattle.fix_sessions.specs.declared.state.Session.{Session};
ghost use Rattle.fix_sessions.specs.declared.texts.Names.{Names};
ghost use Rattle.laws_sessions.specs.Days.{Event, without_resets};
ghost use Rattle.laws_sessions.specs.Given.{given_bodies, of_venue};
ghost use Rattle.laws_sessions.specs.Kept.{all_kept};
ghost use Rattle.step_replay.specs.AuditTrail as venue;
ghost use Rattle.step_replay.specs.DealerView.{dealer_view};
ghost use Rattle.step_replay.specs.NoteViews.{dealer_note_view};
ghost use Rattle.step_replay.specs.declared.dues.Due.{Due};
ghost use Rattle.step_replay.specs.declared.steps.Step.{Step};
ghost use Rattle.venue_rows.specs.Rows.{Configuration, dealer_numbered};
ghost use Rattle.venue_rows.specs.declared.dealer_rows.DealerRow.{DealerRow};
ghost use Rattle.laws_wire.specs.Carried.{AreCarried, AreMade, AreRead, AreSame};

use crate::kept::what_is_kept_reads_back;
use step_replay::dealers_are_isolated;

/// What is kept for a dealer reads back as the dealer view of its due list, as far as the session
/// was given it.
///
/// The premises are those of `what_is_kept_reads_back`. What is told beside the messages is a
/// function of the notes beside them (`words`). The name of a trade (1003) counts the trades before
/// it, so it is no function of its own note alone.
pub fn dealers_are_read_back()
    ensures { (date : List ℕ) (row : DealerRow) (dues : List Due)
        (words : List (Option DealerNote) → List (Option Field))
        (names : Names) (s : Session) (events : List Event) → without_resets events ≡ true
        → AreCarried 1 (dealer_view date row dues) (words (dealer_note_view date row dues))
        (given_bodies names s events)
        → AreRead (dealer_view date row dues) (words (dealer_note_view date row dues))
        (of_venue (all_kept names s [] events)) }
{
    what_is_kept_reads_back();
}

/// Until an operator resets a dealer's session, its n-th message [on the
/// wire](docs/PROOFS.md#on-the-wire) follows from the date, its row, its due list, the words of
/// refusals, and the names of trades.
///
/// What is kept of the message with 1181=n is the same in two venues, byte for byte, except 45 of a
/// Reject, where both have one. Whatever leaves of it is that, with the session's header
/// (`what_leaves_is_the_venues`). The premise is that of `what_is_kept_reads_back`: each session is
/// given its venue's messages in their order. Of these nothing is asked but that each is a frame
/// (`AreMade`). In all else that comes to them the sessions may differ, as the steps of all firms
/// may.
///
/// It ends at: an operator's reset; 45 of a Reject; the session's header; the words of refusals
/// and the names of trades, which the law supposes to be the same in both venues; whether both
/// have an n-th message; that the gateway hands over each message (tested).
pub fn dealers_are_isolated_on_the_wire()
    ensures { (one other : Configuration) (steps others : List Step) (dealer number : ℕ)
        (row : DealerRow) (words : List (Option DealerNote) → List (Option Field))
        (names more_names : Names) (s t : Session) (events more : List Event)
        → one.date ≡ other.date
        → dealer_numbered one dealer ≡ Some row → dealer_numbered other number ≡ Some row
        → venue.due_to dealer (venue.audit_trail one steps)
        ≡ venue.due_to number (venue.audit_trail other others)
        → without_resets events ≡ true → without_resets more ≡ true
        → AreMade 1 (venue.sent_to one dealer (venue.audit_trail one steps))
        (words (dealer_note_view one.date row
        (venue.due_to dealer (venue.audit_trail one steps))))
        (given_bodies names s events)
        → AreMade 1 (venue.sent_to other number (venue.audit_trail other others))
        (words (dealer_note_view other.date row
        (venue.due_to number (venue.audit_trail other others))))
        (given_bodies more_names t more)
        → AreSame (of_venue (all_kept names s [] events))
        (of_venue (all_kept more_names t [] more)) }
{
    what_is_kept_reads_back();
    dealers_are_isolated();
}
