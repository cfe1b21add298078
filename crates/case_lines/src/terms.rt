//! Words of a call that stand for terms of the market.
use crate::faults::CaseFault;
use crate::words::Words;
use bond_prices::{Band, Grid, Ticks};
use market_terms::{Ask, Close, HitRefusal, Quantity, Side};
use venue_rows::{BondId, Name};

/// The next word, as a name.
pub fn name_of(words: &mut Words<'_>) -> Result<Name, CaseFault> {
    let word = words.word()?;
    Name::new(word.as_bytes()).ok_or(CaseFault::Condition)
}

/// The next word, as a bond.
pub fn bond_of(words: &mut Words<'_>) -> Result<BondId, CaseFault> {
    let word = words.word()?;
    BondId::new(word.as_bytes()).ok_or(CaseFault::Condition)
}

/// The next word, as the investor's side: `buy` or `sell`, or the digit of Side (54).
pub fn side_of(words: &mut Words<'_>) -> Result<Side, CaseFault> {
    match words.word()? {
        "buy" | "1" => Ok(Side::Buy),
        "sell" | "2" => Ok(Side::Sell),
        _ => Err(CaseFault::Form),
    }
}

/// The next word, as a quantity.
pub fn quantity_of(words: &mut Words<'_>) -> Result<Quantity, CaseFault> {
    let units = words.number()?;
    Quantity::new(units).ok_or(CaseFault::Condition)
}

/// The next word, as a price in ticks of 1/256 point.
pub fn price_of(words: &mut Words<'_>) -> Result<Ticks, CaseFault> {
    let count = words.short_number()?;
    Ticks::new(count).ok_or(CaseFault::Condition)
}

/// The last two words, as the ends of a band in ticks of 1/256 point, or the band of every price
/// where there are none.
pub fn band_of(words: &mut Words<'_>) -> Result<Band, CaseFault> {
    if words.is_at_end() {
        return Ok(Band::WHOLE);
    }
    let low = price_of(words)?;
    let high = price_of(words)?;
    Ok(Band { low, high })
}

/// The next word, as the end of a request: `hit`, `expired`, `cover`, `away` or `pass`, or the digit
/// of QuoteRespType (694).
pub fn close_of(words: &mut Words<'_>) -> Result<Close, CaseFault> {
    match words.word()? {
        "hit" | "1" => Ok(Close::Hit),
        "expired" | "3" => Ok(Close::Expired),
        "cover" | "4" => Ok(Close::Cover),
        "away" | "5" => Ok(Close::DoneAway),
        "pass" | "6" => Ok(Close::Pass),
        _ => Err(CaseFault::Form),
    }
}

/// Why a hit is refused, by its name.
pub fn refusal_of(word: &str) -> Result<HitRefusal, CaseFault> {
    match word {
        "NotOpen" => Ok(HitRefusal::NotOpen),
        "Deadline" => Ok(HitRefusal::Deadline),
        "Gone" => Ok(HitRefusal::Gone),
        "Expired" => Ok(HitRefusal::Expired),
        "Withdrawn" => Ok(HitRefusal::Withdrawn),
        _ => Err(CaseFault::Form),
    }
}

/// The next five words, as what a request asks for, at any price: INVESTOR BOND SIDE QUANTITY
/// DEADLINE.
pub fn ask_of(words: &mut Words<'_>) -> Result<Ask, CaseFault> {
    let investor = name_of(words)?;
    let bond = bond_of(words)?;
    let side = side_of(words)?;
    let quantity = quantity_of(words)?;
    let deadline = words.moment()?;
    Ok(Ask {
        investor,
        bond,
        side,
        quantity,
        deadline,
        grid: Grid::FINEST,
        band: Band::WHOLE,
    })
}
