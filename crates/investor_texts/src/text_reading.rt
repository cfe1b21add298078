//! An investor's due text: a date, an investor, the bonds and the dealers that it sees, and what is
//! due to it, line by line.
ghost use Rattle.std.specs.Prelude.{◌≡◌, ◌≢◌, ◌≤◌, length};
ghost use Rattle.std.specs.Prelude.{Ok, Err, IfOk, IfErr};
ghost use Rattle.input_lines.specs.Lines as lines;
ghost use Rattle.investor_texts.specs.AloneCommand.{spelled_by};
ghost use Rattle.investor_texts.specs.InvestorText as spec;
ghost use Rattle.investor_texts.specs.ReadLines.{if_of_form};

use crate::investor_lines::{may_deal, may_join, read_bond, read_row};
use crate::item_lines::read_item;
use fix_fields::{Date, Memory};
use input_lines::{
    MOST_INPUT, NumberedLines, ProgramFault, cut_part, has_divider, one_past, read_date, same_text,
};
use investor_dues::{InvestorDue, InvestorSeen};
use std::alloc::Global;
use std::marker::Model;
use venue_rows::{BondRow, Name};

/// What an investor's due text spells.
#[derive(Drop)]
pub struct InvestorText {
    /// What the investor sees.
    pub seen: InvestorSeen,
    /// What is due to it, in order.
    pub dues: Vec<InvestorDue>,
}

/// Whether due text is an investor's: its second line that is not skipped says so.
pub fn is_investors(input: &[u8]) -> bool
    requires { length input.now ≤ MOST_INPUT }
    ensures { result ≡ spec.is_investors input.now }
{
    let mut lines = NumberedLines::new(input);
    let Some(_) = lines.next() else {
        return false;
    };
    let Some((_, text)) = lines.next() else {
        return false;
    };
    let (keyword, _) = cut_part(text);
    same_text(keyword, b"investor")
}

/// Reads an investor's due text, or gives its first fault ([`ProgramFault::Parts`] or
/// [`ProgramFault::Form`]); memory may be refused at any point.
pub fn read_investor_text(alloc: Global, input: &[u8]) -> Result<InvestorText, ProgramFault>
    requires { length input.now ≤ MOST_INPUT }
    ensures ok { IfOk result (λ text. spec.investor_text_of input.now
        ≡ Ok (spelled_by text.seen text.dues.items)) }
    ensures err { IfErr result (λ fault.
        fault ≢ ProgramFault.Memory → spec.investor_text_of input.now ≡ Err fault) }
    ensures unwritten { IfErr result (λ fault. fault ≢ ProgramFault.Write) }
{
    if has_divider(input) {
        return Err(ProgramFault::Parts);
    }
    let mut lines = NumberedLines::new(input);
    let Some((line, text)) = lines.next() else {
        return Err(missing(input));
    };
    let Some(date) = read_date(text) else {
        return Err(ProgramFault::Form { line });
    };
    let Some((line, text)) = lines.next() else {
        return Err(missing(input));
    };
    let Some(row) = read_row(text) else {
        return Err(ProgramFault::Form { line });
    };
    let reading = read_lines(alloc, &date, &row.name, lines)?;
    let Reading {
        bonds,
        dealers,
        dues,
        ..
    } = reading;
    let seen = InvestorSeen::new(date, row, bonds, dealers);
    Ok(InvestorText { seen, dues })
}

/// The fault of a text that ends before a line that it must have.
fn missing(input: &[u8]) -> ProgramFault
    requires { length input.now ≤ MOST_INPUT }
    ensures { result ≡ ProgramFault.Form (lines.one_past input.now) }
{
    ProgramFault::Form {
        line: one_past(input),
    }
}

/// What the lines behind the investor's have spelled so far.
#[derive(Drop)]
struct Reading {
    bonds: Vec<BondRow>,
    dealers: Vec<Name>,
    dues: Vec<InvestorDue>,
    /// The number (34) of the next message that has none in its BODY.
    number: u64,
}

impl Model for Reading {
    ghost use Rattle.std.specs.Prelude.{◌≤◌, ◌+◌, length, vec_len};
    ghost use Rattle.investor_texts.specs.InvestorText.{Read};
    ghost use Rattle.venue_rows.specs.declared.config.TheConstants.VenueConfig.{MOST_DEALERS};

    ghost Value = { Read };

    ghost view = { λ reading. record {
      bonds = reading.bonds.items;
      dealers = reading.dealers.items;
      dues = reading.dues.items;
      number = reading.number;
    } };

    ghost invariant = { λ reading. (length reading.dealers.items ≤ MOST_DEALERS)
        × (reading.number ≤ vec_len reading.dues + 1) };
}

impl Reading {
    /// Nothing was read.
    fn nothing(alloc: Global) -> Self
        ensures { result ≡ spec.nothing_read }
    {
        Reading {
            bonds: Vec::new(alloc),
            dealers: Vec::new(alloc),
            dues: Vec::new(alloc),
            number: 1,
        }
    }

    /// A line more, and whether it is of its form.
    fn take(&mut self, alloc: Global, date: &Date, firm: &Name, line: &[u8]) -> Result<bool, Memory>
        ensures { IfOk result (λ is_of_form. spec.with_line date.now firm.now self.old line.now
            ≡ if_of_form is_of_form self.new) }
    {
        let (keyword, text) = cut_part(line);
        if same_text(keyword, b"bond") {
            let is_of_form = self.take_bond(text)?;
            return Ok(is_of_form);
        }
        if same_text(keyword, b"dealer") {
            let is_of_form = self.take_dealer(firm, text)?;
            return Ok(is_of_form);
        }
        let is_of_form = self.take_item(alloc, date, firm, line)?;
        Ok(is_of_form)
    }

    /// A bond more.
    fn take_bond(&mut self, text: &[u8]) -> Result<bool, Memory>
        ensures { IfOk result (λ is_of_form. spec.with_bond self.old text.now
            ≡ if_of_form is_of_form self.new) }
    {
        if !self.dealers.is_empty() {
            return Ok(false);
        }
        if !self.dues.is_empty() {
            return Ok(false);
        }
        let Some(bond) = read_bond(text) else {
            return Ok(false);
        };
        if !may_join(self.bonds.as_slice(), &bond) {
            return Ok(false);
        }
        self.bonds.push(bond)?;
        Ok(true)
    }

    /// A dealer more.
    fn take_dealer(&mut self, firm: &Name, text: &[u8]) -> Result<bool, Memory>
        ensures { IfOk result (λ is_of_form. spec.with_dealer firm.now self.old text.now
            ≡ if_of_form is_of_form self.new) }
    {
        if !self.dues.is_empty() {
            return Ok(false);
        }
        let Some(name) = Name::of_firm(text) else {
            return Ok(false);
        };
        if !may_deal(firm, self.dealers.as_slice(), &name) {
            return Ok(false);
        }
        self.dealers.push(name)?;
        Ok(true)
    }

    /// An item more.
    fn take_item(
        &mut self,
        alloc: Global,
        date: &Date,
        firm: &Name,
        line: &[u8],
    ) -> Result<bool, Memory>
        ensures { IfOk result (λ is_of_form. spec.with_item date.now firm.now self.old line.now
            ≡ if_of_form is_of_form self.new) }
    {
        let Some((item, next)) = read_item(alloc, date, firm, self.number, line)? else {
            return Ok(false);
        };
        self.dues.push(item)?;
        self.number = next;
        Ok(true)
    }
}

/// Reads the lines behind the investor's.
fn read_lines(
    alloc: Global,
    date: &Date,
    firm: &Name,
    lines: NumberedLines<'_>,
) -> Result<Reading, ProgramFault>
    ensures ok { IfOk result (λ reading.
        spec.with_lines date.now firm.now spec.nothing_read lines.entry ≡ Ok reading) }
    ensures err { IfErr result (λ fault. fault ≢ ProgramFault.Memory
        → spec.with_lines date.now firm.now spec.nothing_read lines.entry ≡ Err fault) }
    ensures unwritten { IfErr result (λ fault. fault ≢ ProgramFault.Write) }
{
    let mut reading = Reading::nothing(alloc);
    for (line, text) in lines {
        let is_of_form = reading.take(alloc, date, firm, text)?;
        if !is_of_form {
            return Err(ProgramFault::Form { line });
        }
    }
    Ok(reading)
}
