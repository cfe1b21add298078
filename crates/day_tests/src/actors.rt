//! The sessions of firms and the clock, called one behind the other on a venue that they share.
ghost use Rattle.std.specs.Prelude.{◌≡◌};
ghost use Rattle.step_replay.specs.Actions as actions;

use super::fixtures::{Arrivals, VENUE, arrivals_of, read_day};
use super::scripts::Script;
use quote_word::{Board, BoardSeen};
use recorded_days::{Inbound, Sweep};
use session_worker::{Naming, SharedVenue, clock, session};
use std::alloc::Global;
use std::marker::Brand;
use std::process::Abort;
use std::sync::Wait;
use std::test::Fail;
use venue_rows::VenueConfig;
use venue_steps::words_of;

// INV1 asks DLR2, which quotes and cancels; then the clock sweeps the room before its deadline, and at
// it.
const LINES: &str =
    "say INV1 T8 09:00:00 R 131=A|146=1|48=BONDA0000001|22=4|54=1|38=2000000|126=20250314-09:05:00|453=1|448=DLR2|447=D|452=35
say DLR2 T2 09:00:10 S 117=a1|131=R1|48=BONDA0000001|22=4|133=99.5
say DLR2 T2 09:00:20 Z 298=5|117=a1
expire INV1 1 09:04:59
expire INV1 1 09:05:00
";

// Where each of them stands, one behind the other: duties are done behind the message or the sweep
// that they follow from, before the next one.
const STANDS: &[&str] = &[
    "before INV1 In",
    "after INV1 In",
    "before INV1 Open",
    "after INV1 Open",
    "before INV1 Show",
    "after INV1 Show",
    "before INV1 Ready",
    "after INV1 Ready",
    "before DLR2 In",
    "after DLR2 In",
    "before DLR2 Post",
    "after DLR2 Post",
    "before DLR2 Relay",
    "after DLR2 Relay",
    "before DLR2 In",
    "asks DLR2",
    "goes_on DLR2",
    "after DLR2 In",
    "before DLR2 Unpost",
    "after DLR2 Unpost",
    "before DLR2 Gone",
    "after DLR2 Gone",
    "before CLOCK Expire",
    "after CLOCK Expire",
    "before CLOCK Expire",
    "after CLOCK Expire",
    "before CLOCK Close",
    "after CLOCK Close",
    "before CLOCK Tell",
    "after CLOCK Tell",
];

/// Calls the sessions of a venue on a board that was opened for it, the last firm's first, and then
/// the clock; behind one that is refused memory it calls no other. It answers whether none was. The
/// error is that memory was refused before the first session.
fn each_works<J: Naming, T: Wait + Abort + AllocGlobal>(
    rt: &T,
    config: VenueConfig,
    board: Board,
    seen: BoardSeen,
    mut inboxes: Vec<Vec<Inbound>>,
    sweeps: Vec<Sweep>,
    gate: &Script,
) -> Result<bool, &'static str>
    requires board { board ≡ J.board }
    requires words { board.words ≡ actions.words_of config }
    requires seen { seen.board ≡ J.board }
    requires config { config ≡ J.config }
{
    let Ok(venue) = SharedVenue::<J>::new(rt.alloc(), config, board, seen) else {
        return Err("memory");
    };
    for _ in 0..inboxes.len() {
        let inbox = inboxes.pop().ok_or("an inbox")?;
        let Ok(firm) = u16::try_from(inboxes.len()) else {
            return Err("a number of a firm");
        };
        if session(rt, &venue, firm, inbox, gate).is_err() {
            return Ok(false);
        }
    }
    let swept = clock(rt, &venue, sweeps, gate);
    Ok(swept.is_ok())
}

/// The same on a board that it opens.
fn all_work<T: Wait + Abort + AllocGlobal>(
    rt: &T,
    arrivals: Arrivals,
    gate: &Script,
) -> Result<bool, &'static str> {
    let Arrivals {
        config,
        inboxes,
        sweeps,
    } = arrivals;
    let Ok((board, seen)) = Board::open(rt.alloc(), words_of(&config)) else {
        return Err("memory");
    };
    let whole = each_works::<Brand, T>(rt, config, board, seen, inboxes, sweeps, gate)?;
    Ok(whole)
}

/// The text of the day; where memory was refused, made once more.
fn input_at_last(alloc: Global) -> Result<String, Fail> {
    if let Ok(input) = format!(in alloc; "{VENUE}{LINES}") {
        return Ok(input);
    }
    let input = format!(in alloc; "{VENUE}{LINES}")?;
    Ok(input)
}

/// What comes in a day of this text; where memory was refused, read once more.
fn read_at_last(alloc: Global, input: &str) -> Result<Arrivals, &'static str> {
    if let Ok(arrivals) = arrivals_of(alloc, input) {
        return Ok(arrivals);
    }
    arrivals_of(alloc, input)
}

#[test]
fn sessions_and_the_clock_do_all_duties(rt: HostRuntime) -> Result<(), Fail> {
    let gate = Script::new(STANDS);
    let input = format!(in rt.alloc(); "{VENUE}{LINES}")?;
    let arrivals = read_day(&rt, input.as_str())?;
    let whole = all_work(&rt, arrivals, &gate)?;
    assert!(rt; whole, "no memory is refused");
    assert!(rt; gate.is_done(), "each stands where it has to");
    Ok(())
}

// Whichever allocation is refused, the session or the clock to which it is refused says so: where
// each says that it ended, all that they have to do is done.
#[test]
fn whoever_is_refused_memory_says_so(rt: HostRuntime) -> Result<(), Fail> {
    let gate = Script::new(STANDS);
    let input = input_at_last(rt.alloc())?;
    let arrivals = read_at_last(rt.alloc(), input.as_str())?;
    let whole = match all_work(&rt, arrivals, &gate) {
        Ok(whole) => whole,
        Err(why) => {
            assert_eq!(rt; why, "memory");
            return Ok(());
        }
    };
    if !whole {
        return Ok(());
    }
    assert!(rt; gate.is_done(), "what was left undone is told");
    Ok(())
}
