//! What a place answers, as text.
use bond_prices::Band;
use case_lines::CaseFault;
use fix_fields::{Moment, time_text};
use market_terms::{Ask, HitRefusal, Reply, Side};
use quote_word::Settled;

/// A number behind a space.
pub(crate) fn push_number(answer: &mut String, number: u64) -> Result<(), CaseFault> {
    write!(answer, " {number}")?;
    Ok(())
}

/// A word behind a space.
pub(crate) fn push_word(answer: &mut String, word: &str) -> Result<(), CaseFault> {
    answer.push(' ')?;
    answer.push_str(word)?;
    Ok(())
}

/// A time behind a space.
pub(crate) fn push_time(answer: &mut String, moment: Moment) -> Result<(), CaseFault> {
    let text = time_text(moment);
    push_word(answer, text.as_str())
}

/// The numbers of firms, each behind a space.
pub(crate) fn push_firms(answer: &mut String, firms: &[u16]) -> Result<(), CaseFault> {
    for firm in firms {
        push_number(answer, u64::from(*firm))?;
    }
    Ok(())
}

/// What is asked for: the investor, the bond, the side, the quantity, the deadline, the grid, and the
/// ends of the band, where not every price is in it.
pub(crate) fn push_ask(answer: &mut String, ask: &Ask) -> Result<(), CaseFault> {
    let (investor, bond) = (ask.investor.as_str(), ask.bond.as_str());
    let (side, quantity) = (side_name(ask.side), ask.quantity.get());
    write!(answer, " {investor} {bond} {side} {quantity}")?;
    push_time(answer, ask.deadline)?;
    push_number(answer, u64::from(ask.grid.get()))?;
    push_band(answer, ask.band)
}

/// The ends of a band, each behind a space, where not every price is in it.
fn push_band(answer: &mut String, band: Band) -> Result<(), CaseFault> {
    let Band { low, high } = band;
    if band.is_whole() {
        return Ok(());
    }
    push_number(answer, u64::from(low.get()))?;
    push_number(answer, u64::from(high.get()))
}

/// What a side is called in a line.
pub(crate) fn side_name(side: Side) -> &'static str {
    match side {
        Side::Buy => "buy",
        Side::Sell => "sell",
    }
}

/// What a settlement is called in a line.
pub(crate) fn settled_name(settled: Settled) -> &'static str {
    match settled {
        Settled::Withdrawn => "withdrawn",
        Settled::Lifted => "lifted",
    }
}

/// What a word is called in a line, open or settled.
pub(crate) fn entry_name(entry: Option<Settled>) -> &'static str {
    match entry {
        None => "open",
        Some(settled) => settled_name(settled),
    }
}

/// The name of a refusal.
pub(crate) fn refusal_name(refusal: HitRefusal) -> &'static str {
    match refusal {
        HitRefusal::NotOpen => "NotOpen",
        HitRefusal::Deadline => "Deadline",
        HitRefusal::Gone => "Gone",
        HitRefusal::Expired => "Expired",
        HitRefusal::Withdrawn => "Withdrawn",
    }
}

/// What a reply is called in a line: `Awarded`, `Passed`, or the name of its refusal.
pub(crate) fn reply_name(reply: Reply) -> &'static str {
    match reply {
        Reply::Awarded => "Awarded",
        Reply::Passed => "Passed",
        Reply::Refused(refusal) => refusal_name(refusal),
    }
}
