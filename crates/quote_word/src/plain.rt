//! Words in a plain list.
ghost use Rattle.std.specs.Prelude.{◌≡◌, ◌<◌, ◌^◌, List, length, replicate, None, IfOk};
ghost use Rattle.quote_word.specs.PlainWords.{entry_in, Exchanges};
ghost use Rattle.quote_word.specs.PlainWordsLaws as laws;

use crate::{Settled, Words};
use std::alloc::{AllocError, Global};
use std::marker::Model;

/// Words for one thread, in a list. A contract sees the list of their entries, `None` where a word
/// is open.
#[derive(Drop)]
pub struct PlainWords {
    entries: Vec<Option<Settled>>,
}

impl Model for PlainWords {
    ghost use Rattle.std.specs.Prelude.{List, Option, length, ◌<◌, ◌^◌};
    ghost use Rattle.quote_word.specs.declared.settled.Settled.{Settled};

    ghost Value = { List (Option Settled) };

    ghost view = { λ words. words.entries.items };

    ghost invariant = { λ words. length words.entries.items < 2 ^ 32 };
}

impl PlainWords {
    /// A row of n open words; n may be 0. It fails only where memory is refused.
    pub fn new(alloc: Global, n: u32) -> Result<Self, AllocError>
        ensures { IfOk result (λ words. words ≡ replicate n None) }
    {
        let entries = vec![in alloc; None; n as usize]?;
        Ok(PlainWords { entries })
    }

    /// One exchange: the word becomes the wish where it was open, and what it is then is returned.
    fn exchange(&mut self, w: u32, wish: Settled) -> Settled
        requires { w < length self.old }
        ensures { Exchanges self.old w wish result self.new }
    {
        let at = w as usize;
        if let Some(settled) = self.entries[at] {
            return settled;
        }
        self.entries[at] = Some(wish);
        wish
    }
}

impl Words for PlainWords {
    ghost count = { λ words. length words };

    ghost entry = { entry_in };

    ghost settles = { Exchanges };

    ghost count_stays = { laws.exchange_keeps_count };

    ghost answer_is_entry = { laws.exchange_answers_entry };

    ghost entry_stays = { laws.exchange_keeps_entries };

    fn len(&self) -> u32 {
        self.entries.len() as u32
    }

    fn withdraw(&mut self, w: u32) -> Settled {
        self.exchange(w, Settled::Withdrawn)
    }

    fn lift(&mut self, w: u32) -> Settled {
        self.exchange(w, Settled::Lifted)
    }
}
