//! What a dealer's desk notes beside a message.
ghost use Rattle.std.specs.Prelude.{◌≡◌, ◌++◌, OnOk};
ghost use Rattle.note_lines.specs.NoteLines as spec;

use crate::counts::trades_with_investor;
use crate::written::{Pushed, push_trade, push_why};
use dealer_desk::DealerNote;
use fix_fields::Date;
use venue_rows::Name;

/// Puts the line of what is noted beside the message of a dealer with this number behind a text, if
/// anything is noted.
pub fn push_dealer_note(
    text: &mut Vec<u8>,
    date: &Date,
    dealer: &Name,
    notes: &[Option<DealerNote>],
    number: u64,
) -> Pushed
    ensures { OnOk result (text.new.items ≡ text.old.items
        ++ spec.dealer_note_line date.now dealer.now notes.now number) }
{
    let Some(Some(note)) = notes.get(number.saturating_sub(1) as usize) else {
        return Ok(());
    };
    match note {
        DealerNote::Refused(refusal) => push_why(text, dealer, number, refusal.name()),
        DealerNote::Trade { investor } => {
            let k = trades_with_investor(notes, number, investor);
            push_trade(text, dealer, number, date, investor, dealer, k as u64)
        }
    }
}
