//! The two kinds of lines.
ghost use Rattle.std.specs.Prelude.{◌≡◌, ◌++◌, ◌∷◌, [], decimal, OnOk};
ghost use Rattle.note_lines.specs.NoteLines as spec;

use fix_fields::{Date, Memory};
use itoa::Buffer;
use venue_rows::Name;

/// What it comes to that a line is put behind a text: memory may be refused.
pub type Pushed = Result<(), Memory>;

/// `why FIRM N NAME`.
pub(crate) fn push_why(text: &mut Vec<u8>, firm: &Name, number: u64, name: &[u8]) -> Pushed
    ensures { OnOk result (text.new.items
        ≡ text.old.items ++ spec.why_line firm.now number name.now) }
{
    push_begin(text, b"why", firm, number)?;
    text.extend_from_slice(name)?;
    text.push(b'\n')?;
    Ok(())
}

/// `trade FIRM N DATE-INVESTOR-DEALER-K`.
pub(crate) fn push_trade(
    text: &mut Vec<u8>,
    firm: &Name,
    number: u64,
    date: &Date,
    investor: &Name,
    dealer: &Name,
    k: u64,
) -> Pushed
    ensures { OnOk result (text.new.items ≡ text.old.items ++ spec.trade_line firm.now number
        (spec.trade_name date.now investor.now dealer.now k)) }
{
    push_begin(text, b"trade", firm, number)?;
    push_trade_name(text, date, investor, dealer, k)?;
    text.push(b'\n')?;
    Ok(())
}

/// The name of a trade: `DATE-INVESTOR-DEALER-K`.
fn push_trade_name(
    text: &mut Vec<u8>,
    date: &Date,
    investor: &Name,
    dealer: &Name,
    k: u64,
) -> Pushed
    ensures { OnOk result (text.new.items
        ≡ text.old.items ++ spec.trade_name date.now investor.now dealer.now k) }
{
    text.extend_from_slice(date.digits())?;
    text.push(b'-')?;
    text.extend_from_slice(investor.as_bytes())?;
    text.push(b'-')?;
    text.extend_from_slice(dealer.as_bytes())?;
    text.push(b'-')?;
    push_number(text, k)
}

/// `WORD FIRM N `, with which each line about a message begins.
fn push_begin(text: &mut Vec<u8>, word: &[u8], firm: &Name, number: u64) -> Pushed
    ensures { OnOk result (text.new.items ≡ text.old.items
        ++ word.now ++ 32 ∷ firm.now ++ 32 ∷ decimal number ++ 32 ∷ []) }
{
    text.extend_from_slice(word)?;
    text.push(b' ')?;
    text.extend_from_slice(firm.as_bytes())?;
    text.push(b' ')?;
    push_number(text, number)?;
    text.push(b' ')?;
    Ok(())
}

/// A number in decimal.
fn push_number(text: &mut Vec<u8>, number: u64) -> Pushed
    ensures { OnOk result (text.new.items ≡ text.old.items ++ decimal number) }
{
    let mut digits = Buffer::new();
    text.extend_from_slice(digits.format(number).as_bytes())?;
    Ok(())
}
