//! A law: `alone` makes of what `due` prints what `replay` prints.
ghost use Rattle.std.specs.Prelude.{◌≡◌, ℕ, Bool, List, Ok, Some, true, slice_get};
ghost use Rattle.std.specs.List.{list_all};
ghost use Rattle.fix_fields.specs.UtcTimestamp.{IsDate, is_date};
ghost use Rattle.venue_rows.specs.Rows.{dealer_values};
ghost use Rattle.venue_rows.specs.Texts.{is_name};
ghost use Rattle.venue_rows.specs.declared.dealer_rows.DealerRow.{DealerRow};
ghost use Rattle.step_replay.specs.AuditTrail.{audit_trail};
ghost use Rattle.step_replay.specs.FirmDays.{firm_days};
ghost use Rattle.step_replay.specs.declared.steps.Step.{Step};
ghost use Rattle.input_lines.specs.DueText.{due_text_of};
ghost use Rattle.venue_text.specs.AloneText.{IsPrinted};
ghost use Rattle.venue_text.specs.DueCommand.{due_text};
ghost use Rattle.venue_text.specs.ReplayText.{days_text, named_days};
ghost use Rattle.laws_dues.specs.ReadDays as spec;

use crate::sayable::what_is_due_can_be_said;
use fix_fields::Date;
use step_replay::{Due, dealers_are_given_their_view};
use venue_rows::{Traders, VenueConfig, rows_are_their_values};
use venue_text::what_was_due_is_read_back;

/// On a day whose messages have bytes, as all have that lines spell, the text that `due` prints of
/// a dealer is read as the date, the dealer's row and its list (`read`). What `alone` prints for
/// that text is what `replay` prints of the dealer (`printed`).
pub fn alone_prints_what_replay_prints(venue: &VenueConfig, dealer: u16, dues: &[Due])
    ensures read { (row : DealerRow) (steps : List Step)
        → spec.WasDue venue.now dealer row steps dues.now
        → due_text_of (due_text venue.now.date row dues.now)
        ≡ Ok (record { date = venue.now.date; row = dealer_values row; dues = dues.now }) }
    ensures printed { (row : DealerRow) (steps : List Step) (with_frames : Bool) (text : List ℕ)
        → spec.WasDue venue.now dealer row steps dues.now
        → IsPrinted with_frames (due_text venue.now.date row dues.now) text
        → text ≡ days_text with_frames (Some dealer)
        (named_days venue.now (firm_days venue.now (audit_trail venue.now steps).facts)) }
{
    what_is_due_can_be_said();
    dealers_are_given_their_view();
    rows_are_their_values();
    let date = venue.date();
    what_was_due_is_read_back(date, dues);
    date_is_tested(date);
    let _ = venue.dealers();
    let Some(row) = venue.dealer(dealer) else {
        return;
    };
    traders_are_named(&row.traders);
}

/// A date is one by the test of its digits.
fn date_is_tested(date: &Date)
    ensures dated { IsDate date.now }
    ensures tested { is_date date.now ≡ true }
{
    let _ = Date::new(date.digits().as_slice());
}

/// Each trader has a name.
fn traders_are_named(traders: &Traders)
    ensures { list_all is_name traders.now ≡ true }
{
    for place in 0..traders.len() {
        trader_is_named(traders, place);
    }
}

/// The trader at a place has a name.
fn trader_is_named(traders: &Traders, place: usize)
    ensures { (name : List ℕ) → slice_get traders.now place ≡ Some name → is_name name ≡ true }
{
    let Some(text) = traders.get(place) else {
        return;
    };
    let Some(name) = traders.find(text) else {
        return;
    };
    let _ = name.as_bytes();
}
