//! Values of the market that the tests share.
use bond_prices::{Band, Grid, Ticks};
use fix_fields::Moment;
use market_terms::{Ask, Id, IdBuf, Offer, Quantity, ResponseRef, Side};
use std::process::Abort;
use venue_rows::{BondId, Name};

/// The deadline of all requests, 09:05.
pub(crate) const DEADLINE: u32 = 32_700_000;

/// A moment, in milliseconds of the day.
pub(crate) fn at(rt: &impl Abort, milliseconds: u32) -> Moment {
    Moment::new(milliseconds).expect(rt, "a moment")
}

/// The name that a text spells.
pub(crate) fn name(rt: &impl Abort, text: &str) -> Name {
    Name::new(text.as_bytes()).expect(rt, "a name")
}

/// INV1 asks to buy 2,000,000 of BONDA0000001 until 09:05.
pub(crate) fn ask(rt: &impl Abort) -> Ask {
    Ask {
        investor: name(rt, "INV1"),
        bond: BondId::new(b"BONDA0000001").expect(rt, "a bond"),
        side: Side::Buy,
        quantity: Quantity::new(2_000_000).expect(rt, "a quantity"),
        deadline: at(rt, DEADLINE),
        grid: Grid::FINEST,
        band: Band::WHOLE,
    }
}

/// A quote as an investor is shown it.
pub(crate) fn offer(rt: &impl Abort, dealer: &str, word: u32, price: u32) -> Offer {
    Offer {
        dealer: name(rt, dealer),
        word,
        price: Ticks::new(price).expect(rt, "a price"),
        valid_until: None,
    }
}

/// A response with this QuoteRespID (693), to the quote with this number, or to its request where
/// that is 0.
pub(crate) fn response(rt: &impl Abort, id: &str, quote: u64) -> ResponseRef {
    let id = Id::new(id.as_bytes()).expect(rt, "an identifier");
    let k = if quote > 0 { Some(quote) } else { None };
    ResponseRef {
        id: IdBuf::of(&id),
        k,
    }
}
