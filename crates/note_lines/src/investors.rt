//! What an investor's desk notes beside a message.
ghost use Rattle.std.specs.Prelude.{◌≡◌, ◌++◌, OnOk};
ghost use Rattle.note_lines.specs.NoteLines as spec;

use crate::counts::trades_with_dealer;
use crate::written::{Pushed, push_trade, push_why};
use fix_fields::Date;
use investor_desk::InvestorNote;
use venue_rows::Name;

/// Puts the line of what is noted beside the message of an investor with this number behind a text,
/// if anything is noted.
pub fn push_investor_note(
    text: &mut Vec<u8>,
    date: &Date,
    investor: &Name,
    notes: &[Option<InvestorNote>],
    number: u64,
) -> Pushed
    ensures { OnOk result (text.new.items ≡ text.old.items
        ++ spec.investor_note_line date.now investor.now notes.now number) }
{
    let Some(Some(note)) = notes.get(number.saturating_sub(1) as usize) else {
        return Ok(());
    };
    match note {
        InvestorNote::Refused(refusal) => push_why(text, investor, number, refusal.name()),
        InvestorNote::Trade { dealer } => {
            let k = trades_with_dealer(notes, number, dealer);
            push_trade(text, investor, number, date, investor, dealer, k as u64)
        }
    }
}
