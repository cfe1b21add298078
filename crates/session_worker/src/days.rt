//! A day on threads, from the configuration to the record.
ghost use Rattle.std.specs.Prelude.{◌≡◌, ◌≢◌, ◌+◌, length, map, min, find, Err, IfErr, IfOk};
ghost use Rattle.std.specs.Prelude.{IfSome};
ghost use Rattle.std.specs.Option.{option_copied};
ghost use Rattle.quote_word.specs.SettleLog.{IsLegal};
ghost use Rattle.day_checks.specs.DayFaults as spec;
ghost use Rattle.day_checks.specs.DayFaults.{IsFaultOf};
ghost use Rattle.day_checks.specs.KeptDays.{KeepsDay};
ghost use Rattle.day_checks.specs.declared.faults.DayFault.TheVariants as fault;
ghost use Rattle.step_replay.specs.Actions as actions;

use crate::gates::Gate;
use crate::joined::{Session, dealer_days, investor_days};
use crate::naming::Naming;
use crate::threads::work;
use crate::venue::SharedVenue;
use day_checks::{DayFault, agreed};
use fix_fields::Memory;
use market_terms::RoomRef;
use quote_word::{Board, BoardSeen};
use recorded_days::{Action, DayRecord, Inbound, Sweep};
use std::alloc::Global;
use std::marker::Brand;
use std::sync::Wait;
use std::thread::Threads;
use venue_rows::VenueConfig;
use venue_steps::words_of;

/// Runs a day of the venue on threads: one session for each firm, which takes its inbox, and the
/// clock, which makes the sweeps. It waits for all of them, then looks whether what lies under the
/// locks agrees, and returns the record of the day. With more or fewer inboxes than firms there is
/// none: the fault is a [`DayFault::Inbox`] of the first firm that has no inbox, or, where there
/// are too many, of the number behind the last firm's. Nor is there one with a sweep of a room that
/// the venue does not have: the fault is a [`DayFault::Sweep`] of the first such room.
pub fn run_day<R: Threads + Wait + Sync, G: Gate>(
    rt: &R,
    alloc: Global,
    config: VenueConfig,
    inboxes: Vec<Vec<Inbound>>,
    sweeps: Vec<Sweep>,
    gate: &G,
) -> Result<DayRecord, DayFault>
    ensures day { IfOk result (λ day.
        KeepsDay config (map (λ inbox. inbox.items) inboxes.items) sweeps.items day) }

    // With more or fewer inboxes than firms there is no day.
    ensures no_day { length inboxes.items ≢ length config.dealers + length config.investors
        → result ≡ Err (fault.Inbox
        (min (length inboxes.items) (length config.dealers + length config.investors))) }

    // With a sweep of a room that the venue does not have there is none either.
    ensures no_room { length inboxes.items ≡ length config.dealers + length config.investors
        → IfSome (spec.first_foreign config sweeps.items) (λ room.
        result ≡ Err (fault.Sweep room)) }

    // Else a dealer's notices, a room's sweeps, the requests that a dealer was shown, the quotes or
    // replies that came from a room, or the actions of a firm, are the first fault of a joined day
    // of the venue with these inboxes, and a firm whose inbox is named is one of the venue.
    ensures true_of { length inboxes.items ≡ length config.dealers + length config.investors
        → IfErr result
        (IsFaultOf config (map (λ inbox. inbox.items) inboxes.items) sweeps.items) }
{
    let firms = config.dealers().len() + config.investors().len();
    if inboxes.len() != firms {
        return Err(DayFault::Inbox(inboxes.len().min(firms) as u16));
    }
    if let Some(foreign) = foreign_room(&config, sweeps.as_slice()) {
        return Err(DayFault::Sweep(foreign));
    }
    let (board, seen) = Board::open(alloc, words_of(&config))?;
    let record = run_named::<Brand, R, G>(rt, alloc, config, board, seen, inboxes, sweeps, gate)?;
    Ok(record)
}

/// The room of the first of these sweeps that is of a room which the venue does not have.
fn foreign_room(config: &VenueConfig, sweeps: &[Sweep]) -> Option<RoomRef>
    ensures { result ≡ spec.first_foreign config.now sweeps.now }
{
    let sweep = foreign_sweep(config, sweeps)?;
    Some(sweep.room)
}

/// The first of these sweeps that is of a room which the venue does not have.
fn foreign_sweep<'a>(config: &VenueConfig, sweeps: &'a [Sweep]) -> Option<&'a Sweep>
    ensures { option_copied result ≡ find (spec.is_foreign config.now) sweeps.entry.now }
{
    sweeps.iter().find(|sweep| is_foreign(config, sweep))
}

/// Whether a sweep is of a room which the venue does not have.
fn is_foreign(config: &VenueConfig, sweep: &Sweep) -> bool
    ensures { result ≡ spec.is_foreign config.now sweep.now }
{
    !config.has_room(sweep.room.investor, sweep.room.n)
}

/// The same of a board that was opened for the day.
fn run_named<J: Naming + Send + Sync, R: Threads + Wait + Sync, G: Gate>(
    rt: &R,
    alloc: Global,
    config: VenueConfig,
    board: Board,
    seen: BoardSeen,
    inboxes: Vec<Vec<Inbound>>,
    sweeps: Vec<Sweep>,
    gate: &G,
) -> Result<DayRecord, DayFault>
    requires board { board ≡ J.board }
    requires seen { seen.board ≡ J.board }
    requires config { config ≡ J.config }
    requires words { board.words ≡ actions.words_of J.config }
    requires inboxes { length inboxes.items
        ≡ length J.config.dealers + length J.config.investors }
    ensures keeps { IfOk result (λ day.
        KeepsDay J.config (map (λ inbox. inbox.items) inboxes.items) sweeps.items day) }
    ensures true_of { IfErr result
        (IsFaultOf J.config (map (λ inbox. inbox.items) inboxes.items) sweeps.items) }
{
    let venue = SharedVenue::<J>::new(alloc, config, board, seen.again())?;
    let done = work(
        rt,
        alloc,
        &venue,
        inboxes.as_slice(),
        sweeps.as_slice(),
        gate,
    )?;
    let sessions = sessions_left(alloc, inboxes, done.firms)?;
    let record = recorded(venue, seen, sessions, done.clock, sweeps.as_slice())?;
    Ok(record)
}

/// Puts beside each inbox what its firm did.
fn sessions_left(
    alloc: Global,
    inboxes: Vec<Vec<Inbound>>,
    works: Vec<Vec<Action>>,
) -> Result<Vec<Session>, Memory>
    requires { length works.items ≡ length inboxes.items }
    ensures { IfOk result (λ sessions. map (λ session. session.inbox.items) sessions.items
        ≡ map (λ inbox. inbox.items) inboxes.items) }
{
    let mut sessions = Vec::with_capacity(alloc, inboxes.len())?;
    for (inbox, actions) in inboxes.into_iter().zip(works) {
        sessions.push(Session { inbox, actions })?;
    }
    Ok(sessions)
}

/// The record of what lies under the locks, where it agrees with what came. Else the fault is that
/// a place is another's or has not its inbox, or the first of what was joined.
fn recorded<J: Naming>(
    venue: SharedVenue<J>,
    seen: BoardSeen,
    mut sessions: Vec<Session>,
    clock: Vec<Action>,
    sweeps: &[Sweep],
) -> Result<DayRecord, DayFault>
    requires seen { seen.board ≡ J.board }
    requires legal { IsLegal seen.log }
    requires sessions { length sessions.items
        ≡ length J.config.dealers + length J.config.investors }
    ensures keeps { IfOk result (λ day. KeepsDay J.config
        (map (λ session. session.inbox.items) sessions.items) sweeps.now day) }
    ensures true_of { IfErr result (IsFaultOf J.config
        (map (λ session. session.inbox.items) sessions.items) sweeps.now) }
{
    let SharedVenue {
        alloc,
        config,
        board,
        dealers,
        investors,
        ..
    } = venue;
    let first = config.dealer_count();
    let behind = sessions.split_off(usize::from(first))?;
    let (dealers, seen) = dealer_days(alloc, &board, seen, dealers, sessions)?;
    let mut rooms = Vec::new(alloc);
    let (investors, seen) = investor_days(
        alloc, &board, seen, first, investors, behind, &mut rooms,
    )?;
    let day = agreed(alloc, &config, dealers, investors, rooms, clock, sweeps)?;
    Ok(day)
}
