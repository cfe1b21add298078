//! The words of quotes, by the configuration.
ghost use Rattle.std.specs.Prelude.{◌≡◌, ◌<◌, length, take};
ghost use Rattle.venue_steps.specs.Dealers as dealers;
ghost use Rattle.venue_steps.specs.Placed as spec;
ghost use Rattle.venue_steps.specs.Words as words;

use venue_rows::VenueConfig;

/// How many words a venue has: one for each quote that its dealers may have in a day.
pub fn words_of(config: &VenueConfig) -> u32
    ensures { result ≡ dealers.words_of config.now }
{
    let mut words = 0;
    for row in config.dealers() {
        words += row.quotes;
    }
    words
}

/// The word of the first quote of a dealer.
fn first_word(config: &VenueConfig, dealer: u16) -> u32
    requires { dealer < length config.now.dealers }
    ensures { result ≡ dealers.quotes_of (take dealer config.now.dealers) }
{
    let mut first = 0;
    let mut number = 0u16;
    for row in config.dealers() {
        if number == dealer {
            return first;
        }
        first += row.quotes;
        number += 1;
    }
    first
}

/// The word of a dealer's quote with this own number, where the venue has it.
pub(crate) fn word_of(config: &VenueConfig, dealer: u16, quote: u32) -> Option<u32>
    requires { dealer < length config.now.dealers }
    ensures { result ≡ spec.word_within config.now
        (words.word_of (dealers.quotes_of (take dealer config.now.dealers)) quote) }
{
    let first = first_word(config, dealer);
    let word = u64::from(first) + u64::from(quote.saturating_sub(1));
    if word >= u64::from(words_of(config)) {
        return None;
    }
    Some(word as u32)
}
