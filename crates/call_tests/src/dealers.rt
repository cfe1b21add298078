//! A dealer's desk.
use super::values::{ACCEPTED, QUOTE, ask, behind_nine, day};
use case_lines::{CaseFault, VENUE, frame_of, piped_bytes_of};
use dealer_desk::DealerDesk;
use fix_fields::{Memory, Moment};
use market_terms::{Close, Duty, Quantity, QuoteState, RoomRef};
use quote_word::Settled;
use std::alloc::Global;
use std::process::Abort;
use std::test::Fail;
use venue_config::read_config;

/// The room of the first request of INV1.
const ROOM: RoomRef = RoomRef { investor: 2, n: 1 };

/// That of its second one.
const SECOND_ROOM: RoomRef = RoomRef { investor: 2, n: 2 };

/// The limits of the dealers of the venue, and those that leave room for both requests and for no
/// more.
const LIMITS: &str = "quotes = 4, exposure = 10000000";

const FULL_LIMITS: &str = "quotes = 4096, exposure = 2000001";

/// The desk of DLR1 of a venue at the start of the day.
fn desk_of_first(rt: &impl Abort, alloc: Global, venue: &str) -> Result<DealerDesk, Fail> {
    let config = read_config(alloc, venue)?;
    let row = config.dealer(0).ok_or("a dealer")?;
    let desk = DealerDesk::new(alloc, day(rt), row.copy())?;
    Ok(desk)
}

/// The dealer's first quote comes: it replaces none, so it asks no word.
fn takes_first(desk: &mut DealerDesk, moment: Moment, quote: &[u8]) -> Result<Option<Duty>, Fail> {
    let asked: Option<u32> = desk.question(moment, quote);
    let Some(_) = asked else {
        let left: Option<Duty> = desk.take(moment, quote, None)?;
        return Ok(left);
    };
    Err(Fail::from("no quote is replaced"))
}

/// The n-th message of T1 on a day: a quote on this request.
fn quote_on(alloc: Global, n: u32, request: u32) -> Result<Vec<u8>, CaseFault> {
    let head = format!(in alloc; "35=S|49=DLR1|56=VENUE|34={n}|52=20250314-09:00:10.000|50=T1")?;
    let head = head.as_str();
    let text = format!(in alloc; "{head}|117=q{n}|131=R{request}|48=BONDA0000001|22=4|133=99.5|")?;
    let body = piped_bytes_of(alloc, text.as_str())?;
    frame_of(alloc, body.as_slice())
}

/// A quote comes: the own number of the quote whose word it asks, which is withdrawn, or 0, and
/// whether it is to be posted.
fn takes(desk: &mut DealerDesk, moment: Moment, quote: &[u8]) -> Result<(u32, bool), Memory> {
    let Some(asked) = desk.question(moment, quote) else {
        let left = desk.take(moment, quote, None)?;
        return Ok((0, left.is_some()));
    };
    let left = desk.take(moment, quote, Some(Settled::Withdrawn))?;
    Ok((asked, left.is_some()))
}

/// How many quotes are in this state.
fn count_in(desk: &DealerDesk, state: QuoteState) -> usize {
    let mut count: usize = 0;
    for line in desk.lines() {
        if line.state == state {
            count = count.saturating_add(1);
        }
    }
    count
}

#[test]
fn a_dealers_desk_is_called(rt: HostRuntime) -> Result<(), Fail> {
    let mut desk = desk_of_first(&rt, rt.alloc(), VENUE)?;
    assert!(rt; desk.date().digits().as_slice() == b"20250314".as_slice());
    assert!(rt; (desk.row().quotes, desk.row().exposure) == (4, 10_000_000));
    assert!(rt; desk.row().traders.len() == 1);
    let number: u64 = desk.show(ROOM, ask(&rt), behind_nine(&rt, 0))?;
    assert!(rt; number == 1 && desk.was_shown(ROOM));
    let left = takes_first(&mut desk, behind_nine(&rt, 10), QUOTE)?;
    assert!(rt; matches!(left, Some(Duty::Post { quote: 1, .. })));
    assert_eq!(rt; desk.exposure(), 2_000_000);
    let accepted = desk.sent().last().ok_or("a message")?;
    assert!(rt; accepted.as_bytes() == ACCEPTED);
    let told: bool = desk.tell(ROOM, Close::DoneAway, behind_nine(&rt, 60))?;
    assert!(rt; told && desk.exposure() == 0);
    assert!(rt; (desk.events().len(), desk.sent().len(), desk.lines().len()) == (3, 3, 1));
    Ok(())
}

// A room that is shown once more is a request more, and goes on to mean its first one.
#[test]
fn a_room_may_be_shown_twice(rt: HostRuntime) -> Result<(), Fail> {
    let mut desk = desk_of_first(&rt, rt.alloc(), VENUE)?;
    let moment = behind_nine(&rt, 0);
    let of_another = RoomRef { investor: 3, n: 1 };
    assert!(rt; !desk.was_shown(ROOM) && desk.exposure() == 0);
    let first: u64 = desk.show(ROOM, ask(&rt), moment)?;
    let second: u64 = desk.show(ROOM, ask(&rt), moment)?;
    assert!(rt; (first, second) == (1, 2) && desk.was_shown(ROOM));
    assert!(rt; !desk.was_shown(SECOND_ROOM) && !desk.was_shown(of_another));
    let of_none: bool = desk.tell(of_another, Close::Pass, moment)?;
    let told: bool = desk.tell(ROOM, Close::Pass, moment)?;
    let again: bool = desk.tell(ROOM, Close::Pass, moment)?;
    let later: bool = desk.tell_request(2, Close::Pass, moment)?;
    assert!(rt; (of_none, told, again, later) == (false, true, false, true));
    assert!(rt; (desk.events().len(), desk.sent().len()) == (4, 4));
    Ok(())
}

// The quotes are on two requests in turn, for 2,000,000 and for 1. Each asks the word of the one
// before it on its request, and the exposure stays the sum of both; the last one is one too many.
#[test]
fn a_dealer_gives_all_quotes_of_a_day(rt: HostRuntime) -> Result<(), Fail> {
    let venue = VENUE.replace(rt.alloc(), LIMITS, FULL_LIMITS)?;
    let mut desk = desk_of_first(&rt, rt.alloc(), venue.as_str())?;
    let moment = behind_nine(&rt, 10);
    let mut small = ask(&rt);
    small.quantity = Quantity::new(1).ok_or("a quantity")?;
    desk.show(ROOM, ask(&rt), moment)?;
    desk.show(SECOND_ROOM, small, moment)?;
    for n in 1..=4_097_u32 {
        let quote = quote_on(rt.alloc(), n, 2 - n % 2)?;
        let came = takes(&mut desk, moment, quote.as_slice())?;
        let asked = if n > 4_096 { 0 } else { n.saturating_sub(2) };
        let exposure = if n == 1 { 2_000_000 } else { 2_000_001 };
        assert!(rt; came == (asked, n <= 4_096) && desk.exposure() == exposure);
    }
    assert!(rt; (desk.events().len(), desk.sent().len()) == (4_099, 4_099));
    assert!(rt; count_in(&desk, QuoteState::Replaced) == 4_094);
    assert!(rt; count_in(&desk, QuoteState::Live) == 2 && desk.lines().len() == 4_096);
    let Some(dropped) = desk.question_drop(4_096) else {
        return Err(Fail::from("a quote is left"));
    };
    let (unpost, further) = desk.drop_one(4_096, moment, Some(Settled::Withdrawn))?;
    assert!(rt; dropped == 4_095 && unpost.is_some() && further.is_some());
    assert!(rt; desk.exposure() == 1);
    Ok(())
}

// A dealer is shown as many requests as come.
#[test]
fn a_dealer_is_shown_five_thousand_requests(rt: HostRuntime) -> Result<(), Fail> {
    let mut desk = desk_of_first(&rt, rt.alloc(), VENUE)?;
    let moment = behind_nine(&rt, 0);
    for n in 1..=5_000_u32 {
        let number = desk.show(RoomRef { investor: 2, n }, ask(&rt), moment)?;
        assert!(rt; number == u64::from(n));
    }
    let last = RoomRef {
        investor: 2,
        n: 5_000,
    };
    let behind = RoomRef {
        investor: 2,
        n: 5_001,
    };
    assert!(rt; desk.was_shown(last) && !desk.was_shown(behind));
    let message = quote_on(rt.alloc(), 1, 5_000)?;
    let left = takes_first(&mut desk, behind_nine(&rt, 10), message.as_slice())?;
    let Some(Duty::Post { room, quote, .. }) = left else {
        return Err(Fail::from("the quote is posted"));
    };
    assert!(rt; room == last && quote == 1);
    Ok(())
}
