//! The steps of a day, each over the one place that it is lent.
//!
//! "What a step leaves is a list of duties, with room for nine": each gives `Duties`.
use super::values::{QUOTE, REQUEST, ask, behind_nine, offer, response};
use case_lines::VENUE;
use dealer_desk::DealerDesk;
use investor_desk::InvestorDesk;
use market_terms::{AskedDealers, Close, HitRefusal, Reply, RoomRef};
use quote_word::PlainWords;
use request_room::Room;
use std::process::Abort;
use std::test::Fail;
use venue_config::read_config;
use venue_rows::Name;
use venue_steps::{
    Duties, do_answer, do_close, do_decline, do_declined, do_drop, do_expire, do_gone, do_hit,
    do_open, do_pass, do_post, do_ready, do_relay, do_show, do_tell, do_unpost, own_dealer,
    own_investor,
};

/// The room of the first request of INV1.
const ROOM: RoomRef = RoomRef { investor: 2, n: 1 };

#[test]
fn steps_at_a_dealers_desk_are_called(rt: HostRuntime) -> Result<(), Fail> {
    let config = read_config(rt.alloc(), VENUE)?;
    let row = config.dealer(0).ok_or("a dealer")?;
    let mut desk = DealerDesk::new(rt.alloc(), *config.date(), row.copy())?;
    let mut words = PlainWords::new(rt.alloc(), 8)?;
    let shown: Duties = do_show(&mut desk, ROOM, ask(&rt), behind_nine(&rt, 0))?;
    assert_eq!(rt; shown.len(), 0);
    let own: Duties = own_dealer(&mut desk, &mut words, 0, behind_nine(&rt, 10), QUOTE)?;
    assert_eq!(rt; own.len(), 1);
    // The quote is dropped: it has to be unposted.
    let dropped: Duties = do_drop(&mut desk, &mut words, 0, 1, behind_nine(&rt, 20))?;
    assert_eq!(rt; dropped.len(), 1);
    let told: Duties = do_tell(&mut desk, ROOM, Close::Pass, behind_nine(&rt, 60))?;
    assert_eq!(rt; told.len(), 0);
    assert_eq!(rt; desk.sent().len(), 4);
    Ok(())
}

#[test]
fn steps_at_an_investors_desk_are_called(rt: HostRuntime) -> Result<(), Fail> {
    let config = read_config(rt.alloc(), VENUE)?;
    if config.investor(2).is_none() {
        return Err(Fail::from("an investor"));
    }
    let mut desk = InvestorDesk::new(rt.alloc(), &config, 2)?;
    let moment = behind_nine(&rt, 0);
    let own: Duties = own_investor(&mut desk, moment, REQUEST)?;
    assert_eq!(rt; own.len(), 1);
    do_relay(&mut desk, 1, &offer(&rt, 0), moment)?;
    do_gone(&mut desk, 1, 0, moment)?;
    do_declined(&mut desk, 1, Name::new(b"DLR2").ok_or("a name")?, moment)?;
    let refused = Reply::Refused(HitRefusal::NotOpen);
    do_answer(&mut desk, 1, &response(&rt, None), refused, moment)?;
    let closed: Duties = do_close(&mut desk, 1, moment)?;
    assert_eq!(rt; closed.len(), 0);
    assert_eq!(rt; desk.sent().len(), 6);
    Ok(())
}

/// Opens the room of a request of two dealers.
fn opens(rt: &impl Abort, room: &mut Room) -> Result<(), Fail> {
    let dealers = AskedDealers::new(&[0, 1]).ok_or("two dealers")?;
    let opened: Duties = do_open(room, ROOM, ask(rt), dealers, behind_nine(rt, 0))?;
    // Each is shown the request, and then the room is ready.
    assert_eq!(rt; opened.len(), 3);
    do_ready(room)?;
    Ok(())
}

#[test]
fn steps_in_a_room_are_called(rt: HostRuntime) -> Result<(), Fail> {
    let mut room = Room::vacant(rt.alloc());
    opens(&rt, &mut room)?;
    let moment = behind_nine(&rt, 10);
    let posted: Duties = do_post(&mut room, ROOM, 0, offer(&rt, 0), moment)?;
    assert_eq!(rt; posted.len(), 1);
    let declined: Duties = do_decline(&mut room, ROOM, 1, moment)?;
    assert_eq!(rt; declined.len(), 1);
    let unposted: Duties = do_unpost(&mut room, ROOM, 0, 0, moment)?;
    assert_eq!(rt; unposted.len(), 1);
    let expired: Duties = do_expire(&mut room, ROOM, moment)?;
    assert_eq!(rt; expired.len(), 0);
    // The answer, and a notice to each dealer.
    let passed: Duties = do_pass(&mut room, ROOM, response(&rt, None), moment)?;
    assert_eq!(rt; passed.len(), 3);
    Ok(())
}

#[test]
fn a_hit_is_called(rt: HostRuntime) -> Result<(), Fail> {
    let mut room = Room::vacant(rt.alloc());
    opens(&rt, &mut room)?;
    let mut words = PlainWords::new(rt.alloc(), 8)?;
    let moment = behind_nine(&rt, 60);
    do_post(&mut room, ROOM, 0, offer(&rt, 0), moment)?;
    let response = response(&rt, Some(1));
    let hit: Duties = do_hit(&mut room, &mut words, ROOM, response, 0, moment)?;
    // The answer, and a notice to each dealer.
    assert_eq!(rt; hit.len(), 3);
    Ok(())
}
