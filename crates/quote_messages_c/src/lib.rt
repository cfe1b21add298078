//! The session checks of `quote_messages` for C and C++: a frame is read and checked as a dealer's
//! message.
#![tactic(auto)]

ghost use Rattle.std.specs.Prelude.{◌≡◌, [], ◌∷◌, codes, true, is_some, IfSome};
ghost use Rattle.quote_messages_c.specs.Checked.{read_code, verdict_code, verdict_of};

use fix_fields::{Date, Frame, read_frame};
use quote_messages::read_dealer;
use venue_rows::{DealerRow, Name, Traders};

/// How far a message of the dealer DLR1 with the trader T1 on 14 March 2025 gets: 0 where it is not
/// looked at, 1 where it is a frame and no more is asked, 2 where it meets no session fault, 3
/// where it meets one, and 4 where it is no frame. With 0 `steps` the row is made alone, with 1 the
/// frame is read, with 2 its fields are checked.
#[unsafe(no_mangle)]
#[tactic(auto, using(crate::proofs::CheckedLemmas::is_the_day))]
pub extern "C" fn quote_messages_read(bytes: &[u8], steps: u32) -> u32
    ensures { result ≡ read_code steps bytes.now }
{
    let Some(row) = row() else {
        return 4;
    };
    let Some(date) = Date::new(b"20250314") else {
        return 4;
    };
    if steps < 1 {
        return 0;
    }
    let Ok(frame) = read_frame(bytes) else {
        return 4;
    };
    if steps < 2 {
        return 1;
    }
    checked(&date, &row, &frame)
}

/// What the session checks say.
#[tactic(auto, using(crate::proofs::CheckedLemmas::is_the_verdict))]
fn checked(date: &Date, row: &DealerRow, frame: &Frame) -> u32
    requires date { date.now ≡ codes "20250314" }
    requires name { row.now.name ≡ codes "DLR1" }
    requires traders { row.now.traders ≡ codes "T1" ∷ [] }
    ensures { result ≡ verdict_code (verdict_of frame.now) }
{
    match read_dealer(date, row, frame) {
        Ok(_) => 2,
        Err(_) => 3,
    }
}

/// The row of DLR1 with the trader T1.
fn row() -> Option<DealerRow>
    ensures some { is_some result ≡ true }
    ensures name { IfSome result (λ row. row.name ≡ codes "DLR1") }
    ensures traders { IfSome result (λ row. row.traders ≡ codes "T1" ∷ []) }
{
    let mut traders = Traders::new();
    let trader = Name::new(b"T1")?;
    let _ = traders.push(&trader);
    let name = Name::new(b"DLR1")?;
    if traders.len() < 1 {
        return None;
    }
    Some(DealerRow {
        name,
        traders,
        quotes: 4,
        exposure: 10_000_000,
    })
}
