//! The word that a step asks.
ghost use Rattle.std.specs.Prelude.{◌≡◌, ◌<◌, Option, Some, None, if◌then◌else◌};
ghost use Rattle.std.specs.Option.{option_map};
ghost use Rattle.venue_steps.specs.Words as spec;

use quote_word::{Settled, Words};

/// The word of the quote with this own number, where one is asked, of a dealer whose first word is
/// this one.
pub(crate) fn word_of_asked(first_word: u32, quote: Option<u32>) -> Option<u64>
    ensures { result ≡ option_map (spec.word_of first_word) quote }
{
    let quote = quote?;
    Some(u64::from(first_word) + u64::from(quote.saturating_sub(1)))
}

/// Asks a word, where one is asked, with this wish; none where the row has no such word, and then
/// nothing was asked.
pub(crate) fn ask<W: Words>(
    words: &mut W,
    word: Option<u64>,
    wish: Settled,
) -> Option<Option<Settled>>
    ensures words { spec.AsksAtMost W.settles W.entry words.old
        (spec.word_to_ask (W.count words.old) word) wish words.new }
    ensures settlement { result ≡ (if spec.has_word (W.count words.old) word
        then Some (spec.settlement_in (W.entry words.new) word) else None) }
{
    let Some(word) = word else {
        return Some(None);
    };
    if word >= u64::from(words.len()) {
        return None;
    }
    Some(Some(settle(words, word as u32, wish)))
}

/// One exchange on a word.
fn settle<W: Words>(words: &mut W, word: u32, wish: Settled) -> Settled
    requires { word < W.count words.old }
    ensures { W.settles words.old word wish result words.new }
{
    match wish {
        Settled::Withdrawn => words.withdraw(word),
        Settled::Lifted => words.lift(word),
    }
}
