//! Due text: a date, a dealer, and what is due to the dealer, line by line.
ghost use Rattle.std.specs.Prelude.{◌≡◌, ◌≢◌, ◌≤◌, ◌+◌, length, Ok, Err, IfOk, IfErr, IfSome};
ghost use Rattle.std.specs.Prelude.{if◌then◌else◌};
ghost use Rattle.venue_rows.specs.Rows.{dealer_values};
ghost use Rattle.input_lines.specs.DueLines.{due_of, said_due};
ghost use Rattle.input_lines.specs.DueText as spec;
ghost use Rattle.input_lines.specs.Lines as lines;

use crate::dealer_line::{read_date, read_dealer_row};
use crate::due_items::read_by_keyword;
use crate::faults::ProgramFault;
use crate::lines::{MOST_INPUT, NumberedLines, has_divider, one_past};
use crate::parts::{cut_part, same_text};
use crate::say_made::made_for;
use fix_fields::{Date, Memory};
use std::alloc::Global;
use step_replay::Due;
use venue_rows::{DealerRow, Name};

/// What due text spells.
#[derive(Drop)]
pub struct DueText {
    /// The day.
    pub date: Date,
    /// The dealer.
    pub row: DealerRow,
    /// What is due to the dealer, in order.
    pub dues: Vec<Due>,
}

/// Reads due text, or gives its first fault ([`ProgramFault::Parts`] or [`ProgramFault::Form`]);
/// memory may be refused at any point.
pub fn read_due_text(alloc: Global, input: &[u8]) -> Result<DueText, ProgramFault>
    requires { length input.now ≤ MOST_INPUT }
    ensures ok { IfOk result (λ text. spec.due_text_of input.now
        ≡ Ok (record { date = text.date; row = dealer_values text.row; dues = text.dues.items })) }
    ensures err { IfErr result (λ fault.
        fault ≢ ProgramFault.Memory → spec.due_text_of input.now ≡ Err fault) }
    ensures unwritten { IfErr result (λ fault. fault ≢ ProgramFault.Write) }
{
    if has_divider(input) {
        return Err(ProgramFault::Parts);
    }
    let mut lines = NumberedLines::new(input);
    let Some((line, text)) = lines.next() else {
        return Err(missing(input));
    };
    let Some(date) = read_date(text) else {
        return Err(ProgramFault::Form { line });
    };
    let Some((line, text)) = lines.next() else {
        return Err(missing(input));
    };
    let Some(row) = read_dealer_row(text) else {
        return Err(ProgramFault::Form { line });
    };
    let dues = read_dues(alloc, &date, &row.name, lines)?;
    Ok(DueText { date, row, dues })
}

/// The fault of a text that ends before a line that it must have.
fn missing(input: &[u8]) -> ProgramFault
    requires { length input.now ≤ MOST_INPUT }
    ensures { result ≡ ProgramFault.Form (lines.one_past input.now) }
{
    ProgramFault::Form {
        line: one_past(input),
    }
}

/// Reads the lines behind the dealer's.
fn read_dues(
    alloc: Global,
    date: &Date,
    firm: &Name,
    lines: NumberedLines<'_>,
) -> Result<Vec<Due>, ProgramFault>
    ensures ok { IfOk result (λ dues.
        spec.dues_from date.now firm.now 1 lines.entry ≡ Ok dues.items) }
    ensures err { IfErr result (λ fault.
        fault ≢ ProgramFault.Memory → spec.dues_from date.now firm.now 1 lines.entry ≡ Err fault) }
    ensures unwritten { IfErr result (λ fault. fault ≢ ProgramFault.Write) }
{
    let mut dues = Vec::new(alloc);
    let mut number = 1;
    for (line, text) in lines {
        let Some((due, next)) = read_due(alloc, date, firm, number, text)? else {
            return Err(ProgramFault::Form { line });
        };
        dues.push(due)?;
        number = next;
    }
    Ok(dues)
}

/// What a line makes due, and the number (34) of the next message that has none in its BODY.
fn read_due(
    alloc: Global,
    date: &Date,
    firm: &Name,
    number: u64,
    line: &[u8],
) -> Result<Option<(Due, u64)>, Memory>
    requires { number ≤ 9223372036854775808 }
    ensures due { IfOk result (λ due. due ≡ due_of date.now firm.now number line.now) }
    ensures next { IfOk result (λ due. IfSome due (λ due. due.1 ≤ number + 1)) }
{
    let (keyword, text) = cut_part(line);
    if same_text(keyword, b"say") {
        return read_said(alloc, date, firm, number, text);
    }
    let Some(due) = read_by_keyword(alloc, date, keyword, text)? else {
        return Ok(None);
    };
    Ok(Some((due, number)))
}

/// The message that a `say` line makes due, and the number of the next one.
fn read_said(
    alloc: Global,
    date: &Date,
    firm: &Name,
    number: u64,
    text: &[u8],
) -> Result<Option<(Due, u64)>, Memory>
    requires { number ≤ 9223372036854775808 }
    ensures due { IfOk result (λ due. due ≡ said_due date.now firm.now number text.now) }
    ensures next { IfOk result (λ due. IfSome due (λ due. due.1 ≤ number + 1)) }
{
    let Some(made) = made_for(alloc, date, firm.as_bytes(), number, text)? else {
        return Ok(None);
    };
    let next = next_number(number, made.is_numbered);
    Ok(Some((Due::Own(made.moment, made.message), next)))
}

/// The number of the next message that has none in its BODY.
fn next_number(number: u64, is_numbered: bool) -> u64
    requires { number ≤ 9223372036854775808 }
    ensures value { result ≡ (if is_numbered then number else number + 1) }
    ensures most { result ≤ number + 1 }
{
    if is_numbered {
        return number;
    }
    number + 1
}
