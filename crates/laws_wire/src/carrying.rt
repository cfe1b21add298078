//! What the wire carries of the venue.
ghost use Rattle.std.specs.Prelude.{◌≡◌, ℕ, List, [], Option, Some, true};
ghost use Rattle.std.specs.List.{list_all};
ghost use Rattle.fix_fields.specs.Frame.{Field};
ghost use Rattle.fix_fields.specs.UtcTimestamp.{IsDate};
ghost use Rattle.fix_sessions.specs.declared.state.Session.{Session};
ghost use Rattle.fix_sessions.specs.declared.texts.Names.{Names};
ghost use Rattle.investor_views.specs.InvestorDues.{due_to_investor};
ghost use Rattle.investor_views.specs.InvestorView.{seen_by};
ghost use Rattle.investor_views.specs.NoteView.{note_view};
ghost use Rattle.laws_wire.specs.Carriable.{AreToldBeside, CanAllBeCarried, has_no_bar, is_of_day};
ghost use Rattle.laws_sessions.specs.Days.{Event, without_resets};
ghost use Rattle.laws_sessions.specs.Given.{given_bodies, of_venue};
ghost use Rattle.laws_sessions.specs.Kept.{all_kept};
ghost use Rattle.step_replay.specs.AuditTrail as venue;
ghost use Rattle.step_replay.specs.Lists.{In};
ghost use Rattle.step_replay.specs.NoteViews.{dealer_note_view};
ghost use Rattle.step_replay.specs.declared.steps.Step.{Step};
ghost use Rattle.venue_rows.specs.Rows.{Configuration, KeepsLimits, dealer_numbered};
ghost use Rattle.venue_rows.specs.Rows.{investor_numbered};
ghost use Rattle.venue_rows.specs.declared.dealer_rows.DealerRow.{DealerRow};
ghost use Rattle.venue_rows.specs.declared.investor_rows.InvestorRow.{InvestorRow};
ghost use Rattle.laws_wire.specs.Carried.{AreMade, AreRead};

use crate::kept::what_is_kept_reads_back;
use investor_views::investors_are_sent_their_view;
use step_replay::dealers_are_sent_their_view;

/// The wire carries each message of the venue, with whatever is told beside it: none is refused for
/// its form, number, fields or length (`specs/Carriable`).
///
/// A firm's k-th message is a frame of one of the venue's types with k in 34, and no field of it is
/// one that the wire adds. With these fields, and with 200 bytes at most that are told, it fits the
/// wire's limit, which leaves room for the session's header. Where nothing is noted nothing is told:
/// a room's refusal has a 58 of its own. The premises: the configuration keeps its limits, and the
/// day is a date.
///
/// It ends at: what is told, which the law is given; that the gateway hands over each message
/// (tested).
pub fn each_message_can_be_carried()
    ensures dealers { (config : Configuration) (steps : List Step) (dealer : ℕ) (row : DealerRow)
        (tolds : List (Option Field)) → KeepsLimits config → IsDate config.date
        → dealer_numbered config dealer ≡ Some row
        → AreToldBeside (dealer_note_view config.date row
        (venue.due_to dealer (venue.audit_trail config steps))) tolds
        → CanAllBeCarried 1 (venue.sent_to config dealer (venue.audit_trail config steps)) tolds }
    ensures investors { (config : Configuration) (steps : List Step) (investor : ℕ)
        (row : InvestorRow) (tolds : List (Option Field)) → KeepsLimits config
        → IsDate config.date → investor_numbered config investor ≡ Some row
        → AreToldBeside (note_view (seen_by config row)
        (due_to_investor config investor steps)) tolds
        → CanAllBeCarried 1 (venue.sent_to config investor (venue.audit_trail config steps)) tolds }
{
    dealers_are_sent_their_view();
    investors_are_sent_their_view();
}

/// No message of the venue has a bar (`|`), by which lines of text write SOH.
///
/// The premises: the configuration keeps its limits, the day is a date, and each step's moment is of
/// a day.
///
/// It ends at: what is told beside a message.
pub fn no_message_has_a_bar()
    ensures dealers { (config : Configuration) (steps : List Step) (dealer : ℕ) (row : DealerRow)
        (bytes : List ℕ) → KeepsLimits config → IsDate config.date
        → list_all is_of_day steps ≡ true → dealer_numbered config dealer ≡ Some row
        → In bytes (venue.sent_to config dealer (venue.audit_trail config steps))
        → has_no_bar bytes ≡ true }
    ensures investors { (config : Configuration) (steps : List Step) (investor : ℕ)
        (row : InvestorRow) (bytes : List ℕ) → KeepsLimits config → IsDate config.date
        → list_all is_of_day steps ≡ true → investor_numbered config investor ≡ Some row
        → In bytes (venue.sent_to config investor (venue.audit_trail config steps))
        → has_no_bar bytes ≡ true }
{
    dealers_are_sent_their_view();
    investors_are_sent_their_view();
}

/// Until an operator's reset, what a session keeps of the venue's messages to its firm reads back as
/// these, each in its place, except 45 of a Reject, and 49 and 56.
///
/// That no message has a field that the wire adds is no premise here. The premises: those of
/// `each_message_can_be_carried`, and that the session is given what `to_firm` gives of the
/// messages, in their order.
///
/// It ends at: an operator's reset; what is told beside the messages, which the law is given; that
/// the gateway hands over each message (tested).
pub fn what_is_kept_of_the_venue_reads_back()
    ensures dealers { (config : Configuration) (steps : List Step) (dealer : ℕ) (row : DealerRow)
        (tolds : List (Option Field)) (names : Names) (s : Session) (events : List Event)
        → KeepsLimits config → IsDate config.date → dealer_numbered config dealer ≡ Some row
        → AreToldBeside (dealer_note_view config.date row
        (venue.due_to dealer (venue.audit_trail config steps))) tolds
        → without_resets events ≡ true
        → AreMade 1 (venue.sent_to config dealer (venue.audit_trail config steps)) tolds
        (given_bodies names s events)
        → AreRead (venue.sent_to config dealer (venue.audit_trail config steps)) tolds
        (of_venue (all_kept names s [] events)) }
    ensures investors { (config : Configuration) (steps : List Step) (investor : ℕ)
        (row : InvestorRow) (tolds : List (Option Field)) (names : Names) (s : Session)
        (events : List Event) → KeepsLimits config → IsDate config.date
        → investor_numbered config investor ≡ Some row
        → AreToldBeside (note_view (seen_by config row)
        (due_to_investor config investor steps)) tolds
        → without_resets events ≡ true
        → AreMade 1 (venue.sent_to config investor (venue.audit_trail config steps)) tolds
        (given_bodies names s events)
        → AreRead (venue.sent_to config investor (venue.audit_trail config steps)) tolds
        (of_venue (all_kept names s [] events)) }
{
    each_message_can_be_carried();
    what_is_kept_reads_back();
}
