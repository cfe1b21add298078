//! Values and frames that the calls share.
use bond_prices::{Band, Grid, Ticks};
use fix_fields::{Date, Moment};
use market_terms::{Ask, Id, IdBuf, Offer, Quantity, ResponseRef, Side};
use std::process::Abort;
use venue_rows::{BondId, Name};

/// DLR1 quotes 99.50390625 for its first request.
pub(crate) const QUOTE: &[u8] = b"8=FIXT.1.1\x019=109\x0135=S\x0149=DLR1\x0156=VENUE\x0134=1\x01\
    52=20250314-09:00:10.000\x0150=T1\x01117=a1\x01131=R1\x0148=BONDA0000001\x0122=4\x01\
    133=99.50390625\x0110=039\x01";

/// DLR1 is told that this quote is accepted.
pub(crate) const ACCEPTED: &[u8] = b"8=FIXT.1.1\x019=73\x0135=AI\x0149=VENUE\x0156=DLR1\x0134=2\x01\
    52=20250314-09:00:10.000\x01131=R1\x01117=a1\x01297=0\x0110=207\x01";

/// INV1 asks DLR1 and DLR2 to sell it 2,000,000 of BONDA0000001, until 09:05.
pub(crate) const REQUEST: &[u8] = b"8=FIXT.1.1\x019=175\x0135=R\x0149=INV1\x0156=VENUE\x0134=1\x01\
    52=20250314-09:00:00\x0150=T8\x01131=A\x01146=1\x0148=BONDA0000001\x0122=4\x01\
    54=1\x0138=2000000\x01126=20250314-09:05:00\x01453=2\x01448=DLR1\x01447=D\x01\
    452=35\x01448=DLR2\x01447=D\x01452=35\x0110=133\x01";

/// The moment that is so many seconds behind 09:00.
pub(crate) fn behind_nine(rt: &impl Abort, seconds: u32) -> Moment {
    let milliseconds = seconds.saturating_mul(1_000).saturating_add(32_400_000);
    Moment::new(milliseconds).expect(rt, "a moment")
}

/// The day.
pub(crate) fn day(rt: &impl Abort) -> Date {
    Date::new(b"20250314").expect(rt, "a date")
}

/// What INV1 asks.
pub(crate) fn ask(rt: &impl Abort) -> Ask {
    Ask {
        investor: Name::new(b"INV1").expect(rt, "a name"),
        bond: BondId::new(b"BONDA0000001").expect(rt, "a bond"),
        side: Side::Buy,
        quantity: Quantity::new(2_000_000).expect(rt, "a quantity"),
        deadline: behind_nine(rt, 300),
        grid: Grid::FINEST,
        band: Band::WHOLE,
    }
}

/// The quote of DLR1 whose word this is, as its investor is shown it.
pub(crate) fn offer(rt: &impl Abort, word: u32) -> Offer {
    Offer {
        dealer: Name::new(b"DLR1").expect(rt, "a name"),
        word,
        price: Ticks::new(25_473).expect(rt, "a price"),
        valid_until: None,
    }
}

/// A hit of Q1, or a pass where there is none.
pub(crate) fn response(rt: &impl Abort, k: Option<u64>) -> ResponseRef {
    let id = Id::new(b"h1").expect(rt, "an identifier");
    ResponseRef {
        id: IdBuf::of(&id),
        k,
    }
}
