//! What a dealer is sent for a list.
use super::answers::{put_count, put_fault, put_text};
use case_lines::{Call, CaseFault, Place, Words, close_of, push_line};
use input_lines::{DueText, MOST_INPUT, read_due_text};
use std::alloc::Global;
use step_replay::{Due, alone};
use venue_text::{due_lines, messages_text};

/// The dealer view of a list, also of one that no due text spells.
///
/// | call | what it does |
/// |---|---|
/// | `< LINE` | a line more of due text |
/// | `read` | reads it; answers how many items it has, or its fault |
/// | `lifted N`, `closed N CODE TIME`, `drop N TIME` | an item more, with a number of any size |
/// | `items` | answers the list as lines |
/// | `sent` | answers what the dealer is sent for it |
#[derive(Drop)]
pub(crate) struct Views {
    text: String,
    due: Option<DueText>,
}

impl Place for Views {
    fn call(&mut self, call: &mut Call<'_>) -> Result<(), CaseFault> {
        match call.name {
            "<" => push_line(&mut self.text, call.words.rest()),
            "read" => self.read(call.alloc, &mut call.answer),
            "lifted" => self.put_lifted(&mut call.words),
            "closed" => self.put_closed(&mut call.words),
            "drop" => self.put_drop(&mut call.words),
            "items" => self.tell_items(call.alloc, &mut call.answer),
            "sent" => self.tell_sent(call.alloc, &mut call.answer),
            _ => Err(CaseFault::Form),
        }
    }
}

impl Views {
    /// Before the first call.
    pub(crate) fn new(alloc: Global) -> Result<Self, CaseFault> {
        Ok(Views {
            text: String::new(alloc),
            due: None,
        })
    }

    /// Reads the text.
    fn read(&mut self, alloc: Global, answer: &mut String) -> Result<(), CaseFault> {
        let input = self.text.as_str().as_bytes();
        if input.len() > MOST_INPUT {
            return Err(CaseFault::Condition);
        }
        match read_due_text(alloc, input) {
            Ok(text) => {
                put_count(answer, text.dues.len(), "items")?;
                self.due = Some(text);
                Ok(())
            }
            Err(fault) => put_fault(answer, &fault),
        }
    }

    /// Puts an item behind the list.
    fn put(&mut self, item: Due) -> Result<(), CaseFault> {
        let Some(text) = &mut self.due else {
            return Err(CaseFault::NotOpen);
        };
        text.dues.push(item)?;
        Ok(())
    }

    /// `lifted N`.
    fn put_lifted(&mut self, words: &mut Words<'_>) -> Result<(), CaseFault> {
        let quote = words.short_number()?;
        self.put(Due::Lifted(quote))
    }

    /// `closed N CODE TIME`.
    fn put_closed(&mut self, words: &mut Words<'_>) -> Result<(), CaseFault> {
        let request = words.number()?;
        let close = close_of(words)?;
        let moment = words.moment()?;
        self.put(Due::Closed(request, close, moment))
    }

    /// `drop N TIME`.
    fn put_drop(&mut self, words: &mut Words<'_>) -> Result<(), CaseFault> {
        let last = words.short_number()?;
        let moment = words.moment()?;
        self.put(Due::Drop(last, moment))
    }

    /// The list.
    fn tell_items(&self, alloc: Global, answer: &mut String) -> Result<(), CaseFault> {
        let Some(text) = &self.due else {
            return Err(CaseFault::NotOpen);
        };
        let lines = due_lines(alloc, text.dues.as_slice())?;
        put_text(answer, lines.as_slice())
    }

    /// What the dealer is sent.
    fn tell_sent(&self, alloc: Global, answer: &mut String) -> Result<(), CaseFault> {
        let Some(text) = &self.due else {
            return Err(CaseFault::NotOpen);
        };
        let sent = alone(alloc, &text.date, &text.row, text.dues.as_slice())?;
        let lines = messages_text(alloc, false, &text.row.name, sent.as_slice())?;
        put_text(answer, lines.as_slice())
    }
}
