//! A list of steps that is replayed, a due list, and a dealer's day alone.
use super::values::{ACCEPTED, QUOTE, REQUEST, ask, behind_nine};
use case_lines::VENUE;
use laws_days::price_law;
use market_terms::{Close, FirmLines, RoomRef};
use quote_messages::{FirmMessage, Message, SentMessage};
use std::alloc::Global;
use std::process::Abort;
use std::test::Fail;
use step_replay::{Actor, Due, ReplayFault, Step, World, alone, due, run};
use venue_config::read_config;

/// INV1 asks, and its four duties are done; DLR1 quotes, and its two are; then the room is swept
/// before its deadline.
///
/// "A room goes by one name, `RoomRef`", in steps and sweeps too; the bytes of a message are a
/// `Message`.
fn steps_of_a_day(rt: &impl Abort, alloc: Global) -> Result<Vec<Step>, Fail> {
    let mut steps = Vec::new(alloc);
    let request = Message::copy_of(alloc, REQUEST)?;
    steps.push(Step::In(2, behind_nine(rt, 0), request))?;
    for _ in 0..4 {
        steps.push(Step::Turn(Actor::Firm(2)))?;
    }
    let quote = Message::copy_of(alloc, QUOTE)?;
    steps.push(Step::In(0, behind_nine(rt, 10), quote))?;
    for _ in 0..2 {
        steps.push(Step::Turn(Actor::Firm(0)))?;
    }
    let room = RoomRef { investor: 2, n: 1 };
    steps.push(Step::Expire(room, behind_nine(rt, 60)))?;
    steps.push(Step::Turn(Actor::Clock))?;
    Ok(steps)
}

/// Which fault it is, and of which step.
fn replay_check(fault: ReplayFault) -> (u32, usize) {
    match fault {
        ReplayFault::UnknownFirm(step) => (1, step),
        ReplayFault::UnknownRoom(step) => (2, step),
        ReplayFault::Memory => (3, 0),
    }
}

#[test]
fn a_replay_is_called(rt: HostRuntime) -> Result<(), Fail> {
    let config = read_config(rt.alloc(), VENUE)?;
    let steps = steps_of_a_day(&rt, rt.alloc())?;
    let world: World = run(rt.alloc(), &config, steps.as_slice())?;
    let sent: &[SentMessage] = world.sent(0).ok_or("what DLR1 was sent")?;
    let last = sent.last().ok_or("a message")?;
    assert!(rt; sent.len() == 2 && last.as_bytes() == ACCEPTED);
    assert!(rt; world.sent(3).is_none() && world.lines(3).is_none());
    match world.lines(2) {
        Some(FirmLines::Investor(lines)) => assert_eq!(rt; lines.len(), 1),
        _ => return Err(Fail::from("the requests of INV1")),
    }
    Ok(())
}

/// Which number an item of a due list has, and of which quote or request it is.
fn due_number(item: &Due) -> (u32, u64) {
    match item {
        Due::Own(_, _) => (1, 0),
        Due::Shown(_, _) => (2, 0),
        Due::Lifted(quote) => (3, u64::from(*quote)),
        Due::Closed(request, _, _) => (4, *request),
        Due::Drop(last, _) => (5, u64::from(*last)),
    }
}

#[test]
fn a_due_list_is_called(rt: HostRuntime) -> Result<(), Fail> {
    let config = read_config(rt.alloc(), VENUE)?;
    let steps = steps_of_a_day(&rt, rt.alloc())?;
    let dues: Vec<Due> = due(rt.alloc(), &config, steps.as_slice(), 0)?;
    assert_eq!(rt; dues.len(), 2);
    for (item, number) in dues.iter().zip([(2, 0), (1, 0)]) {
        assert!(rt; due_number(item) == number);
    }
    // A number that is no dealer's comes before all else.
    let fault = match due(rt.alloc(), &config, steps.as_slice(), 2) {
        Ok(_) => (0, 0),
        Err(fault) => replay_check(fault),
    };
    assert!(rt; fault == (1, 0));
    Ok(())
}

// "A condition that a type can keep is the type's": a dealer's own message is a `FirmMessage`, and
// what it is sent a `SentMessage`.
#[test]
fn a_dealers_day_alone_is_called(rt: HostRuntime) -> Result<(), Fail> {
    let config = read_config(rt.alloc(), VENUE)?;
    let row = config.dealer(0).ok_or("a dealer")?;
    let mut dues = Vec::new(rt.alloc());
    dues.push(Due::Shown(ask(&rt), behind_nine(&rt, 0)))?;
    let quote = FirmMessage::new(Message::copy_of(rt.alloc(), QUOTE)?);
    dues.push(Due::Own(behind_nine(&rt, 10), quote))?;
    dues.push(Due::Lifted(1))?;
    dues.push(Due::Closed(1, Close::Hit, behind_nine(&rt, 60)))?;
    let sent: Vec<SentMessage> = alone(rt.alloc(), config.date(), row, dues.as_slice())?;
    assert_eq!(rt; sent.len(), 3);
    price_law();
    Ok(())
}
