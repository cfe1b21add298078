//! A thread for each firm and one for the clock.
ghost use Rattle.std.specs.Prelude.{◌≡◌, length, IfOk};

use crate::actors::{clock_actions, session_actions};
use crate::gates::Gate;
use crate::naming::Naming;
use crate::venue::SharedVenue;
use fix_fields::Memory;
use recorded_days::{Action, Inbound, Sweep};
use std::alloc::Global;
use std::sync::Wait;
use std::thread;
use std::thread::{JoinHandle, Scope, Threads};

/// What an actor did, or that memory was refused to it.
type Work = Result<Vec<Action>, Memory>;

/// An actor at work.
#[derive(Drop)]
enum Worker {
    /// In a thread of its own.
    Running(JoinHandle<Work>),
    /// No thread could be made, so it worked in this one.
    Done(Work),
}

impl Worker {
    /// What it did, once it has ended.
    fn join<R: Threads>(self, rt: &R) -> Work {
        match self {
            Worker::Running(handle) => handle.join(rt),
            Worker::Done(work) => work,
        }
    }
}

/// What the actors of a day did.
#[derive(Drop)]
pub(crate) struct DayWork {
    /// The firms, in the order of their numbers.
    pub(crate) firms: Vec<Vec<Action>>,
    /// The clock.
    pub(crate) clock: Vec<Action>,
}

/// Runs the sessions of all firms and the clock, each in a thread of its own, and waits for them.
pub(crate) fn work<J: Naming + Send + Sync, R: Threads + Wait + Sync, G: Gate>(
    rt: &R,
    alloc: Global,
    venue: &SharedVenue<J>,
    inboxes: &[Vec<Inbound>],
    sweeps: &[Sweep],
    gate: &G,
) -> Result<DayWork, Memory>
    ensures { IfOk result (λ work. length work.firms.items ≡ length inboxes.now) }
{
    thread::scope(thread::scope_env(), rt, |scope| {
        worked(scope, rt, alloc, venue, inboxes, sweeps, gate)
    })
}

/// The same in a scope of threads.
fn worked<'s, E, J: Naming + Send + Sync, R: Threads + Wait + Sync, G: Gate>(
    scope: &'s Scope<'s, E>,
    rt: &'s R,
    alloc: Global,
    venue: &'s SharedVenue<J>,
    inboxes: &'s [Vec<Inbound>],
    sweeps: &'s [Sweep],
    gate: &'s G,
) -> Result<DayWork, Memory>
    ensures { IfOk result (λ work. length work.firms.items ≡ length inboxes.now) }
{
    let mut workers = Vec::with_capacity(alloc, inboxes.len())?;
    let mut firm = 0u16;
    for inbox in inboxes {
        let inbox = inbox.as_slice();
        let started = scope.spawn(move || session_actions(rt, venue, firm, inbox, gate));
        let worker = match started {
            Ok(handle) => Worker::Running(handle),
            Err(refused) => Worker::Done((refused.value)()),
        };
        workers.push(worker)?;
        firm = firm.wrapping_add(1);
    }
    let started = scope.spawn(move || clock_actions(rt, venue, sweeps, gate));
    let clock = match started {
        Ok(handle) => Worker::Running(handle),
        Err(refused) => Worker::Done((refused.value)()),
    };
    let firms = joined(rt, alloc, workers)?;
    let clock = clock.join(rt)?;
    Ok(DayWork { firms, clock })
}

/// What the workers did, in their order, once all have ended.
fn joined<R: Threads>(
    rt: &R,
    alloc: Global,
    workers: Vec<Worker>,
) -> Result<Vec<Vec<Action>>, Memory>
    ensures { IfOk result (λ works. length works.items ≡ length workers.items) }
{
    let mut works = Vec::with_capacity(alloc, workers.len())?;
    for worker in workers {
        works.push(worker.join(rt)?)?;
    }
    Ok(works)
}
