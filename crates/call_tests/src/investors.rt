//! An investor's desk.
use super::values::{REQUEST, behind_nine, offer, response};
use case_lines::VENUE;
use investor_desk::{InvestorDesk, InvestorEvent};
use market_terms::{Close, Duty, HitRefusal, Reply};
use std::alloc::Global;
use std::test::Fail;
use venue_config::read_config;
use venue_rows::Name;

/// The desk of INV1 at the start of the day.
fn desk_of_investor(alloc: Global) -> Result<InvestorDesk, Fail> {
    let config = read_config(alloc, VENUE)?;
    if config.investor(2).is_none() {
        return Err(Fail::from("an investor"));
    }
    let desk = InvestorDesk::new(alloc, &config, 2)?;
    Ok(desk)
}

#[test]
fn an_investors_desk_is_called(rt: HostRuntime) -> Result<(), Fail> {
    let mut desk = desk_of_investor(rt.alloc())?;
    let moment = behind_nine(&rt, 0);
    let left: Option<Duty> = desk.take(moment, REQUEST)?;
    assert!(rt; matches!(left, Some(Duty::Open { .. })));
    assert!(rt; desk.knows(1, None) && !desk.knows(1, Some(1)));
    desk.quote_came(1, &offer(&rt, 0), moment)?;
    assert!(rt; desk.knows(1, Some(1)));
    desk.quote_gone(1, 0, moment)?;
    desk.dealer_declined(1, Name::new(b"DLR2").ok_or("a name")?, moment)?;
    let refused = Reply::Refused(HitRefusal::Gone);
    desk.answered(1, &response(&rt, Some(1)), refused, moment)?;
    desk.closed(1, moment)?;
    assert!(rt; (desk.events().len(), desk.sent().len(), desk.lines().len()) == (6, 6, 1));
    Ok(())
}

#[test]
fn an_investors_desk_is_taken_apart(rt: HostRuntime) -> Result<(), Fail> {
    let mut desk = desk_of_investor(rt.alloc())?;
    assert!(rt; desk.date().digits().as_slice() == b"20250314".as_slice() && desk.firm() == 2);
    let row = desk.row();
    assert!(rt; (row.requests, row.open_limit, row.quantity) == (3, 2, 5_000_000));
    desk.take(behind_nine(&rt, 7), b"x")?;
    desk.closed(1, behind_nine(&rt, 8))?;
    let (events, sent, lines) = desk.into_parts();
    assert!(rt; (events.len(), sent.len(), lines.len()) == (2, 0, 0));
    let Some(InvestorEvent::Received { moment, message }) = events.first() else {
        return Err(Fail::from("bytes came"));
    };
    assert!(rt; *moment == behind_nine(&rt, 7) && message.as_bytes() == b"x".as_slice());
    let Some(InvestorEvent::Closed { request, moment }) = events.last() else {
        return Err(Fail::from("a request was closed"));
    };
    assert!(rt; *moment == behind_nine(&rt, 8) && *request == 1);
    Ok(())
}

// QuoteRespType (694) of a closing notice.
#[test]
fn closes_have_these_cases(rt: HostRuntime) {
    let closes = [
        (Close::Hit, 1),
        (Close::Expired, 3),
        (Close::Cover, 4),
        (Close::DoneAway, 5),
        (Close::Pass, 6),
    ];
    for (close, code) in closes {
        assert_eq!(&rt; close.code(), code);
    }
}

#[test]
fn refusals_have_these_cases(rt: HostRuntime) {
    let refusals = [
        (HitRefusal::NotOpen, "NotOpen"),
        (HitRefusal::Deadline, "Deadline"),
        (HitRefusal::Gone, "Gone"),
        (HitRefusal::Expired, "Expired"),
        (HitRefusal::Withdrawn, "Withdrawn"),
    ];
    for (refusal, name) in refusals {
        assert!(&rt; refusal.name() == name.as_bytes());
    }
}
