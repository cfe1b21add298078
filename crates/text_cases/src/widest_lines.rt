//! Lines of blotters with the widest numbers.

use blotter::blotter_text;
use case_lines::{Call, CaseFault, Words, bond_of, name_of, price_of, quantity_of, side_of};
use market_terms::{FirmLines, QuoteLine, QuoteState, RequestLine, RequestState};

/// `blotter dealer`, `blotter investor`: a line with the widest numbers.
pub(crate) fn push_blotter(call: &mut Call<'_>) -> Result<(), CaseFault> {
    let text = match call.words.word()? {
        "dealer" => {
            let quotes = [widest_quote()?];
            blotter_text(call.alloc, &FirmLines::Dealer(&quotes))?
        }
        "investor" => {
            let requests = [widest_request()?];
            blotter_text(call.alloc, &FirmLines::Investor(&requests))?
        }
        _ => return Err(CaseFault::Form),
    };
    call.answer.push_str(text.as_str())?;
    Ok(())
}

/// A quote with the greatest numbers of its own and of its request.
fn widest_quote() -> Result<QuoteLine, CaseFault> {
    let mut words = Words::of("09:00:10 T1 BONDA0000001 1 1 1");
    let moment = words.moment()?;
    let trader = name_of(&mut words)?;
    let bond = bond_of(&mut words)?;
    let side = side_of(&mut words)?;
    let quantity = quantity_of(&mut words)?;
    let price = price_of(&mut words)?;
    Ok(QuoteLine {
        q: u32::MAX,
        moment,
        trader,
        request: u64::MAX,
        bond,
        side,
        quantity,
        price,
        state: QuoteState::Live,
    })
}

/// A request whose number has five digits.
fn widest_request() -> Result<RequestLine, CaseFault> {
    let mut words = Words::of("09:00:00 T8 BONDA0000001 1 2000000");
    let moment = words.moment()?;
    let trader = name_of(&mut words)?;
    let bond = bond_of(&mut words)?;
    let side = side_of(&mut words)?;
    let quantity = quantity_of(&mut words)?;
    Ok(RequestLine {
        n: 10_000,
        moment,
        trader,
        bond,
        side,
        quantity,
        state: RequestState::Passed,
    })
}
