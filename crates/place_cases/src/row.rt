//! A row of words in a list.
use crate::replies::settled_name;
use crate::terms::settled;
use case_lines::{Call, CaseFault, Place, push_line, push_truth};
use quote_word::{PlainWords, Settled, Words};
use std::alloc::Global;

/// A row of words in a list, none before the first call.
///
/// | call | answer |
/// |---|---|
/// | `new N` | nothing |
/// | `length` | how many words there are |
/// | `withdraw WORD`, `lift WORD` | what the word is from then on |
/// | `is_withdrawn SETTLED`, `is_lifted SETTLED`, where SETTLED is `withdrawn` or `lifted` | whether a word that is settled so is |
#[derive(Drop)]
pub(crate) struct RowPlace {
    row: PlainWords,
}

impl Place for RowPlace {
    fn call(&mut self, call: &mut Call<'_>) -> Result<(), CaseFault> {
        match call.name {
            "new" => self.open(call),
            "length" => push_length(&mut call.answer, self.row.len()),
            "withdraw" => self.settle(Settled::Withdrawn, call),
            "lift" => self.settle(Settled::Lifted, call),
            "is_withdrawn" => push_truth(
                &mut call.answer,
                settled(&mut call.words)?.is_withdrawn(),
            ),
            "is_lifted" => push_truth(&mut call.answer, settled(&mut call.words)?.is_lifted()),
            _ => Err(CaseFault::Form),
        }
    }
}

impl RowPlace {
    /// Before the first call.
    pub(crate) fn new(alloc: Global) -> Result<Self, CaseFault> {
        let row = PlainWords::new(alloc, 0)?;
        Ok(RowPlace { row })
    }

    fn open(&mut self, call: &mut Call<'_>) -> Result<(), CaseFault> {
        let count = call.words.short_number()?;
        self.row = PlainWords::new(call.alloc, count)?;
        Ok(())
    }

    fn settle(&mut self, wish: Settled, call: &mut Call<'_>) -> Result<(), CaseFault> {
        let word = call.words.short_number()?;
        let settled = exchanged(&mut self.row, word, wish)?;
        push_line(&mut call.answer, settled_name(settled))
    }
}

/// How many words there are.
pub(crate) fn push_length(answer: &mut String, count: u32) -> Result<(), CaseFault> {
    writeln!(answer, "words {count}")?;
    Ok(())
}

/// Withdraws or lifts a word of a row that has it.
fn exchanged(row: &mut PlainWords, word: u32, wish: Settled) -> Result<Settled, CaseFault> {
    if word >= row.len() {
        return Err(CaseFault::Condition);
    }
    match wish {
        Settled::Withdrawn => Ok(row.withdraw(word)),
        Settled::Lifted => Ok(row.lift(word)),
    }
}
