//! Words that stand for terms of the market.
use case_lines::{CaseFault, Words, ask_of, name_of, price_of, refusal_of};
use fix_fields::Moment;
use market_terms::{Ask, AskedDealers, Id, IdBuf, Offer, Reply, ResponseRef};
use quote_word::Settled;
use std::alloc::Global;

/// The last word, as a moment, where there is one.
pub(crate) fn last_moment(words: &mut Words) -> Result<Option<Moment>, CaseFault> {
    if words.is_at_end() {
        return Ok(None);
    }
    let moment = words.moment()?;
    Ok(Some(moment))
}

/// The next word, as what a word is settled as: `withdrawn` or `lifted`.
pub(crate) fn settled(words: &mut Words) -> Result<Settled, CaseFault> {
    settled_named(words.word()?)
}

/// What a word is settled as, by its name.
pub(crate) fn settled_named(name: &str) -> Result<Settled, CaseFault> {
    match name {
        "withdrawn" => Ok(Settled::Withdrawn),
        "lifted" => Ok(Settled::Lifted),
        _ => Err(CaseFault::Form),
    }
}

/// The next word, as what a room replies.
pub(crate) fn reply(words: &mut Words<'_>) -> Result<Reply, CaseFault> {
    match words.word()? {
        "Awarded" => Ok(Reply::Awarded),
        "Passed" => Ok(Reply::Passed),
        refusal => Ok(Reply::Refused(refusal_of(refusal)?)),
    }
}

/// The next word, as an identifier.
pub(crate) fn id(words: &mut Words<'_>) -> Result<IdBuf, CaseFault> {
    let word = words.word()?;
    let Some(id) = Id::new(word.as_bytes()) else {
        return Err(CaseFault::Form);
    };
    Ok(IdBuf::of(&id))
}

/// The next two words, as a response: its QuoteRespID (693), and the number of the quote that it
/// hits, or `pass`.
pub(crate) fn response(words: &mut Words<'_>) -> Result<ResponseRef, CaseFault> {
    let id = id(words)?;
    match words.word()? {
        "pass" => Ok(ResponseRef { id, k: None }),
        number => {
            let Ok(quote) = number.parse::<u64>() else {
                return Err(CaseFault::Form);
            };
            Ok(ResponseRef { id, k: Some(quote) })
        }
    }
}

/// The next three words, as a quote: the dealer's name, the word and the price. It is valid as long
/// as its request is open.
pub(crate) fn offer(words: &mut Words<'_>) -> Result<Offer, CaseFault> {
    let dealer = name_of(words)?;
    let word = words.short_number()?;
    let price = price_of(words)?;
    Ok(Offer {
        dealer,
        word,
        price,
        valid_until: None,
    })
}

/// What INV1 asks for, whatever the case: to buy 2,000,000 of BONDA0000001 until 09:05, at any price.
pub(crate) fn request() -> Result<Ask, CaseFault> {
    ask_of(&mut Words::of("INV1 BONDA0000001 buy 2000000 09:05:00"))
}

/// The dealers of a request: all that is left of the line.
pub(crate) fn dealers(alloc: Global, words: &mut Words) -> Result<AskedDealers, CaseFault> {
    let mut numbers = Vec::new(alloc);
    for word in words.rest().split(' ') {
        numbers.push(Words::of(word).firm()?)?;
    }
    AskedDealers::new(numbers.as_slice()).ok_or(CaseFault::Condition)
}
