//! Which trade of two firms a note tells of.
ghost use Rattle.std.specs.Prelude.{◌≡◌, take};
ghost use Rattle.note_lines.specs.NoteLines as spec;

use dealer_desk::DealerNote;
use investor_desk::InvestorNote;
use venue_rows::Name;

/// How many of a dealer's notes up to the message with this number tell of a trade with an
/// investor.
pub(crate) fn trades_with_investor(
    notes: &[Option<DealerNote>],
    number: u64,
    investor: &Name,
) -> usize
    ensures { result ≡ spec.count_to (spec.trades_with_investor investor.now) notes.now number }
{
    let noted = dealer_notes_to(notes, number);
    noted
        .iter()
        .filter(|note| is_with_investor(note, investor))
        .count()
}

/// A dealer's notes up to the message with this number.
fn dealer_notes_to(notes: &[Option<DealerNote>], number: u64) -> &[Option<DealerNote>]
    ensures { result.now ≡ take number notes.now }
{
    if number >= notes.len() as u64 {
        return notes;
    }
    &notes[..number as usize]
}

/// Whether a note tells of a trade with an investor.
fn is_with_investor(note: &Option<DealerNote>, investor: &Name) -> bool
    ensures { result ≡ spec.trades_with_investor investor.now note.now }
{
    match note {
        Some(DealerNote::Trade { investor: other }) => other.as_bytes() == investor.as_bytes(),
        Some(DealerNote::Refused(_)) => false,
        None => false,
    }
}

/// How many of an investor's notes up to the message with this number tell of a trade with a dealer.
pub(crate) fn trades_with_dealer(
    notes: &[Option<InvestorNote>],
    number: u64,
    dealer: &Name,
) -> usize
    ensures { result ≡ spec.count_to (spec.trades_with_dealer dealer.now) notes.now number }
{
    let noted = investor_notes_to(notes, number);
    noted
        .iter()
        .filter(|note| is_with_dealer(note, dealer))
        .count()
}

/// An investor's notes up to the message with this number.
fn investor_notes_to(notes: &[Option<InvestorNote>], number: u64) -> &[Option<InvestorNote>]
    ensures { result.now ≡ take number notes.now }
{
    if number >= notes.len() as u64 {
        return notes;
    }
    &notes[..number as usize]
}

/// Whether a note tells of a trade with a dealer.
fn is_with_dealer(note: &Option<InvestorNote>, dealer: &Name) -> bool
    ensures { result ≡ spec.trades_with_dealer dealer.now note.now }
{
    match note {
        Some(InvestorNote::Trade { dealer: other }) => other.as_bytes() == dealer.as_bytes(),
        Some(InvestorNote::Refused(_)) => false,
        None => false,
    }
}
