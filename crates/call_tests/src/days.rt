//! A day on threads, its record, and its weaving.
ghost use Rattle.std.specs.Prelude.{◌≡◌};
ghost use Rattle.step_replay.specs.Actions as actions;

use super::values::{QUOTE, REQUEST, behind_nine};
use case_lines::VENUE;
use day_checks::{DayFault, inbox_of};
use day_weaving::{WeaveFault, weave};
use fix_fields::Memory;
use market_terms::RoomRef;
use quote_messages::Message;
use quote_word::{Board, BoardSeen};
use recorded_days::{DayRecord, Inbound, Sweep};
use session_worker::{Gate, Naming, Point, SharedVenue, clock, run_day, session};
use std::alloc::Global;
use std::marker::Brand;
use std::process::Abort;
use std::sync::Wait;
use std::test::Fail;
use step_replay::{Actor, Step};
use venue_config::{VenueConfig, read_config};
use venue_steps::words_of;

/// A gate that looks at what stands before it, and holds nobody.
struct Looks;

impl Gate for Looks {
    fn at(&self, point: Point) {
        match point {
            Point::Before(_, _) => (),
            Point::Asked(_) => (),
            Point::After(_, _) => (),
        }
    }
}

/// What a firm says at one moment.
fn says(rt: &impl Abort, alloc: Global, seconds: u32, bytes: &[u8]) -> Result<Inbound, Memory> {
    let bytes = Message::copy_of(alloc, bytes)?;
    let moment = behind_nine(rt, seconds);
    Ok(Inbound { moment, bytes })
}

/// DLR1 says nothing, DLR2 says nothing, and INV1 asks both.
fn inboxes(rt: &impl Abort, alloc: Global) -> Result<Vec<Vec<Inbound>>, Memory> {
    let mut asks = Vec::new(alloc);
    asks.push(says(rt, alloc, 0, REQUEST)?)?;
    let mut all = Vec::new(alloc);
    all.push(Vec::new(alloc))?;
    all.push(Vec::new(alloc))?;
    all.push(asks)?;
    Ok(all)
}

/// The room is swept before its deadline.
///
/// "A room goes by one name, `RoomRef`", in sweeps too.
fn sweeps(rt: &impl Abort, alloc: Global) -> Result<Vec<Sweep>, Memory> {
    let room = RoomRef { investor: 2, n: 1 };
    let moment = behind_nine(rt, 60);
    let mut all = Vec::new(alloc);
    all.push(Sweep { room, moment })?;
    Ok(all)
}

/// Which fault it is: the first four stand in the order in which they are looked for.
///
/// "A day on threads has four faults more than its own four."
fn day_check(fault: DayFault) -> u32 {
    match fault {
        DayFault::Memory => 1,
        DayFault::Inbox(_) => 2,
        DayFault::Told(_) => 3,
        DayFault::Sweep(_) => 4,
        DayFault::Shown(_) => 5,
        DayFault::Relayed(_) => 6,
        DayFault::Answered(_) => 7,
        DayFault::Acted(_) => 8,
    }
}

/// Which fault of weaving it is.
fn weave_check(fault: WeaveFault) -> u32 {
    match fault {
        WeaveFault::Malformed => 1,
        WeaveFault::Cycle(_) => 2,
        WeaveFault::Differs(_) => 3,
        WeaveFault::Memory => 4,
    }
}

/// Looks at each list of a record of that day.
fn is_whole(rt: &impl Abort, record: &DayRecord) -> Result<(), Fail> {
    assert!(rt; record.sent(0).is_some_and(|sent| sent.len() == 1));
    assert!(rt; record.lines(2).is_some() && record.lines(3).is_none());
    assert!(rt;
        record
            .dealer_events(0)
            .is_some_and(|events| events.len() == 1)
    );
    assert!(rt;
        record
            .investor_events(2)
            .is_some_and(|events| events.len() == 1)
    );
    let room = RoomRef { investor: 2, n: 1 };
    assert!(rt;
        record
            .room_events(room)
            .is_some_and(|events| events.len() == 3)
    );
    assert!(rt;
        record
            .room_order(room)
            .is_some_and(|order| order.len() == 3)
    );
    assert!(rt; record.desk_order(2).is_some_and(|order| order.len() == 1));
    assert!(rt; record.inbox(2).is_some_and(|inbox| inbox.len() == 1));
    let done = record.actions(Actor::Firm(2)).ok_or("what INV1 did")?;
    assert_eq!(rt; done.len(), 5);
    let swept = record.actions(Actor::Clock).ok_or("what the clock did")?;
    assert_eq!(rt; swept.len(), 1);
    Ok(())
}

#[test]
fn a_day_is_called(rt: HostRuntime) -> Result<(), Fail> {
    let alloc = rt.alloc();
    let config = read_config(alloc, VENUE)?;
    let copy: VenueConfig = config.copy(alloc)?;
    let (come, swept) = (inboxes(&rt, alloc)?, sweeps(&rt, alloc)?);
    let day: Result<DayRecord, DayFault> = run_day(&rt, alloc, copy, come, swept, &Looks);
    let record = match day {
        Ok(record) => record,
        Err(fault) => {
            assert_eq!(rt; day_check(fault), 0, "a day");
            return Ok(());
        }
    };
    is_whole(&rt, &record)?;
    let dues = record.due(alloc, &config, 0)?.ok_or("a due list")?;
    assert_eq!(rt; dues.len(), 1);
    let woven: Result<Vec<Step>, WeaveFault> = weave(alloc, &config, &record);
    let steps = match woven {
        Ok(steps) => steps.len(),
        Err(fault) => {
            assert_eq!(rt; weave_check(fault), 0, "a day that is woven");
            0
        }
    };
    // Five of INV1, and the sweep.
    assert_eq!(rt; steps, 6);
    Ok(())
}

/// Calls a session of each firm, and then the clock.
///
/// "The board and the configuration are named by a type parameter": this is `J`.
fn each_is_called<J: Naming, T: Wait + Abort + AllocGlobal>(
    rt: &T,
    config: VenueConfig,
    board: Board,
    seen: BoardSeen,
    come: Vec<Vec<Inbound>>,
    swept: Vec<Sweep>,
) -> Result<(), Memory>
    requires board { board ≡ J.board }
    requires words { board.words ≡ actions.words_of config }
    requires seen { seen.board ≡ J.board }
    requires config { config ≡ J.config }
{
    let venue = SharedVenue::<J>::new(rt.alloc(), config, board, seen)?;
    let mut firm = 0u16;
    for inbox in come {
        session(rt, &venue, firm, inbox, &Looks)?;
        firm = firm.wrapping_add(1);
    }
    clock(rt, &venue, swept, &Looks)?;
    Ok(())
}

/// The same on a board that it opens for them.
fn all_are_called<T: Wait + Abort + AllocGlobal>(
    rt: &T,
    config: VenueConfig,
    come: Vec<Vec<Inbound>>,
    swept: Vec<Sweep>,
) -> Result<(), Memory> {
    let (board, seen) = Board::open(rt.alloc(), words_of(&config))?;
    each_is_called::<Brand, T>(rt, config, board, seen, come, swept)?;
    Ok(())
}

#[test]
fn sessions_and_the_clock_are_called(rt: HostRuntime) -> Result<(), Fail> {
    let alloc = rt.alloc();
    let config = read_config(alloc, VENUE)?;
    let (come, swept) = (inboxes(&rt, alloc)?, sweeps(&rt, alloc)?);
    let ended = all_are_called(&rt, config, come, swept);
    assert!(rt; ended.is_ok(), "no memory is refused");
    Ok(())
}

#[test]
fn a_record_is_made_of_its_lists(rt: HostRuntime) {
    let alloc = rt.alloc();
    let record = DayRecord::new(Vec::new(alloc), Vec::new(alloc), Vec::new(alloc));
    assert!(&rt; record.sent(0).is_none() && record.actions(Actor::Firm(0)).is_none());
    assert!(&rt;
        record
            .actions(Actor::Clock)
            .is_some_and(|done| done.is_empty())
    );
}

#[test]
fn an_inbox_is_cut_from_a_stream(rt: HostRuntime) -> Result<(), Fail> {
    let mut pieces = Vec::new(rt.alloc());
    pieces.push(says(&rt, rt.alloc(), 10, QUOTE)?)?;
    let (inbox, fault) = inbox_of(rt.alloc(), pieces.as_slice())?;
    assert!(rt; inbox.len() == 1 && fault.is_none());
    Ok(())
}
