//! What comes to an investor's desk, as words of a call spell it.
use case_lines::{Call, CaseFault, Words, name_of, price_of, refusal_of};
use investor_desk::InvestorDesk;
use market_terms::{Id, IdBuf, Offer, Reply, ResponseRef};

/// Whether a call with this word is one of these.
pub(crate) fn comes_to_desk(word: &str) -> bool {
    matches!(word, "quote_came" | "quote_gone" | "answered" | "closes")
}

/// It comes to the desk.
pub(crate) fn bring(desk: &mut InvestorDesk, call: &mut Call<'_>) -> Result<(), CaseFault> {
    match call.name {
        "quote_came" => quote_came(desk, &mut call.words),
        "quote_gone" => quote_gone(desk, &mut call.words),
        "answered" => answered(desk, &mut call.words),
        _ => closes(desk, &mut call.words),
    }
}

/// `N DEALER WORD PRICE TIME`.
fn quote_came(desk: &mut InvestorDesk, words: &mut Words<'_>) -> Result<(), CaseFault> {
    let n = words.short_number()?;
    let dealer = name_of(words)?;
    let word = words.short_number()?;
    let price = price_of(words)?;
    let moment = words.moment()?;
    let offer = Offer {
        dealer,
        word,
        price,
        valid_until: None,
    };
    desk.quote_came(n, &offer, moment)?;
    Ok(())
}

/// `N WORD TIME`.
fn quote_gone(desk: &mut InvestorDesk, words: &mut Words<'_>) -> Result<(), CaseFault> {
    let n = words.short_number()?;
    let word = words.short_number()?;
    let moment = words.moment()?;
    desk.quote_gone(n, word, moment)?;
    Ok(())
}

/// `N ID QUOTE REFUSAL TIME`.
fn answered(desk: &mut InvestorDesk, words: &mut Words<'_>) -> Result<(), CaseFault> {
    let n = words.short_number()?;
    let id = id_in(words)?;
    let quote = words.number()?;
    let refusal = refusal_of(words.word()?)?;
    let moment = words.moment()?;
    let hit = ResponseRef { id, k: Some(quote) };
    desk.answered(n, &hit, Reply::Refused(refusal), moment)?;
    Ok(())
}

/// `N TIME`.
fn closes(desk: &mut InvestorDesk, words: &mut Words<'_>) -> Result<(), CaseFault> {
    let n = words.short_number()?;
    let moment = words.moment()?;
    desk.closed(n, moment)?;
    Ok(())
}

/// The next word, as an identifier.
fn id_in(words: &mut Words<'_>) -> Result<IdBuf, CaseFault> {
    let word = words.word()?;
    let Some(id) = Id::new(word.as_bytes()) else {
        return Err(CaseFault::Form);
    };
    Ok(IdBuf::of(&id))
}
