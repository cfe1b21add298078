//! What the desks know, as lines.
use crate::floor::Floor;
use crate::replies::{push_number, push_word};
use case_lines::{CaseFault, push_line};
use dealer_desk::DealerDesk;
use market_terms::{QuoteState, RequestState};

/// The exposure of a dealer and the state of each of its quotes, or the state of each request of INV1.
pub(super) fn push_desk(answer: &mut String, floor: &Floor, firm: &str) -> Result<(), CaseFault> {
    match firm {
        "DLR1" => push_dealer(answer, &floor.first),
        "DLR2" => push_dealer(answer, &floor.second),
        "INV1" => {
            for line in floor.investor.lines() {
                push_request(answer, &line.state)?;
            }
            Ok(())
        }
        _ => Err(CaseFault::Form),
    }
}

/// The exposure of a dealer, and the state of each of its quotes.
fn push_dealer(answer: &mut String, desk: &DealerDesk) -> Result<(), CaseFault> {
    let exposure = desk.exposure();
    writeln!(answer, "exposure {exposure}")?;
    for line in desk.lines() {
        push_line(answer, quote_name(line.state))?;
    }
    Ok(())
}

/// What a state of a quote is called in a line.
fn quote_name(state: QuoteState) -> &'static str {
    match state {
        QuoteState::Live => "live",
        QuoteState::Replaced => "replaced",
        QuoteState::Withdrawn => "withdrawn",
        QuoteState::Lifted => "lifted",
        QuoteState::Ended => "ended",
    }
}

/// What became of a request. Of a hit that was awarded it is `won DEALER PRICE`, the price in 256ths.
fn push_request(answer: &mut String, state: &RequestState) -> Result<(), CaseFault> {
    match state {
        RequestState::Open => push_line(answer, "open"),
        RequestState::Passed => push_line(answer, "passed"),
        RequestState::Expired => push_line(answer, "expired"),
        RequestState::Won { dealer, price } => {
            answer.push_str("won")?;
            push_word(answer, dealer.as_str())?;
            push_number(answer, u64::from(price.get()))?;
            push_line(answer, "")
        }
    }
}
