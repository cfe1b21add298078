//! The lines that due text begins with: `date YYYYMMDD` and `dealer NAME QUOTES EXPOSURE TRADER
//! ..`.
ghost use Rattle.std.specs.Prelude.{◌≡◌, ◌≤◌, length, IfSome};
ghost use Rattle.std.specs.Option.{option_map};
ghost use Rattle.venue_rows.specs.Rows.{dealer_values};
ghost use Rattle.input_lines.specs.DueLines as spec;

use crate::lines::Parts;
use crate::parts::{cut_part, same_text};
use fix_fields::Date;
use quote_messages::{read_long_number, read_number};
use venue_rows::{DealerRow, Name, Traders};

/// The date that a date line gives.
pub fn read_date(line: &[u8]) -> Option<Date>
    ensures { result ≡ spec.date_of line.now }
{
    let (keyword, digits) = cut_part(line);
    if !same_text(keyword, b"date") {
        return None;
    }
    Date::new(digits)
}

/// The dealer that a dealer line gives.
pub(crate) fn read_dealer_row(line: &[u8]) -> Option<DealerRow>
    ensures { option_map dealer_values result ≡ spec.row_of line.now }
{
    let (keyword, rest) = cut_part(line);
    if !same_text(keyword, b"dealer") {
        return None;
    }
    let (name, rest) = cut_part(rest);
    let (quotes, rest) = cut_part(rest);
    let (exposure, traders) = cut_part(rest);
    let name = Name::of_firm(name)?;
    let quotes = read_quotes(quotes)?;
    let exposure = read_exposure(exposure)?;
    let traders = read_traders(traders)?;
    Some(DealerRow {
        name,
        traders,
        quotes,
        exposure,
    })
}

/// How many quotes a dealer may have in a day.
fn read_quotes(text: &[u8]) -> Option<u32>
    ensures value { result ≡ spec.quotes_of text.now }
    ensures limits { IfSome result (λ quotes. (1 ≤ quotes) × (quotes ≤ 4096)) }
{
    let quotes = read_number(text)?;
    if quotes < 1 || quotes > DealerRow::MOST_QUOTES as u64 {
        return None;
    }
    Some(quotes as u32)
}

/// The greatest exposure of a dealer.
fn read_exposure(text: &[u8]) -> Option<u64>
    ensures value { result ≡ spec.exposure_of text.now }
    ensures limits { IfSome result (λ exposure. (1 ≤ exposure) × (exposure ≤ 1000000000000000)) }
{
    let exposure = read_long_number(text)?;
    if exposure < 1 || exposure > DealerRow::MOST_EXPOSURE {
        return None;
    }
    Some(exposure)
}

/// The traders of a firm: 1 to 16 names, none twice, divided by one space each.
pub fn read_traders(text: &[u8]) -> Option<Traders>
    ensures value { result ≡ spec.traders_of text.now }
    ensures some { IfSome result (λ traders. 1 ≤ length traders) }
{
    if text.is_empty() || text[text.len() - 1] == b' ' {
        return None;
    }
    let mut traders = Traders::new();
    for name in Parts::new(text, b' ') {
        let trader = Name::new(name)?;
        if traders.contains(name) || !traders.push(&trader) {
            return None;
        }
    }
    Some(traders)
}
