//! Parts of calls that are terms of the market.

use crate::prices::grid_of;
use case_lines::{CaseFault, Words, ask_of};
use market_terms::{Ask, Id};
use quote_messages::{QuoteRejectReason, RequestRejectReason, SessionRejectReason};

/// An identifier.
pub(crate) fn id_of<'a>(words: &mut Words<'a>) -> Result<Id<'a>, CaseFault> {
    let word = words.word()?;
    Id::new(word.as_bytes()).ok_or(CaseFault::Condition)
}

/// What a request asks for: INVESTOR BOND SIDE QUANTITY DEADLINE GRID.
pub(crate) fn ask_with_grid(words: &mut Words) -> Result<Ask, CaseFault> {
    let mut ask = ask_of(words)?;
    ask.grid = grid_of(words)?;
    Ok(ask)
}

/// Why a message is rejected, by its name.
pub(crate) fn session_reason_of(word: &str) -> Result<SessionRejectReason, CaseFault> {
    match word {
        "RequiredTagMissing" => Ok(SessionRejectReason::RequiredTagMissing),
        "TagWithoutValue" => Ok(SessionRejectReason::TagWithoutValue),
        "ValueIncorrect" => Ok(SessionRejectReason::ValueIncorrect),
        "IncorrectDataFormat" => Ok(SessionRejectReason::IncorrectDataFormat),
        "CompIdProblem" => Ok(SessionRejectReason::CompIdProblem),
        "InvalidMsgType" => Ok(SessionRejectReason::InvalidMsgType),
        "TagMoreThanOnce" => Ok(SessionRejectReason::TagMoreThanOnce),
        "IncorrectNumInGroup" => Ok(SessionRejectReason::IncorrectNumInGroup),
        _ => Err(CaseFault::Form),
    }
}

/// Why a quote is refused, by its name.
pub(crate) fn quote_reason_of(word: &str) -> Result<QuoteRejectReason, CaseFault> {
    match word {
        "UnknownSymbol" => Ok(QuoteRejectReason::UnknownSymbol),
        "ExceedsLimit" => Ok(QuoteRejectReason::ExceedsLimit),
        "TooLate" => Ok(QuoteRejectReason::TooLate),
        "DuplicateQuote" => Ok(QuoteRejectReason::DuplicateQuote),
        "InvalidPrice" => Ok(QuoteRejectReason::InvalidPrice),
        "Other" => Ok(QuoteRejectReason::Other),
        _ => Err(CaseFault::Form),
    }
}

/// Why a request is refused, by its name.
pub(crate) fn request_reason_of(word: &str) -> Result<RequestRejectReason, CaseFault> {
    match word {
        "UnknownSymbol" => Ok(RequestRejectReason::UnknownSymbol),
        "ExceedsLimit" => Ok(RequestRejectReason::ExceedsLimit),
        "TooLate" => Ok(RequestRejectReason::TooLate),
        "Other" => Ok(RequestRejectReason::Other),
        _ => Err(CaseFault::Form),
    }
}
