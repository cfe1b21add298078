//! Cycles of actions.
use case_lines::{CaseFault, push_line};
use std::alloc::Global;
use step_replay::Actor;

/// Puts the actions of a cycle: the firms' in the order of their numbers, and those of the clock.
pub(crate) fn put_cycle(
    alloc: Global,
    answer: &mut String,
    actions: &[(Actor, u64)],
) -> Result<(), CaseFault> {
    push_line(answer, "cycle")?;
    let mut keys = Vec::new(alloc);
    for (by, number) in actions {
        keys.push((rank_of(*by), *number))?;
    }
    keys.sort()?;
    for (rank, number) in keys.as_slice() {
        put_action(answer, *rank, *number)?;
    }
    Ok(())
}

/// The number of a firm, or the number behind all of them for the clock.
fn rank_of(by: Actor) -> u32 {
    match by {
        Actor::Firm(firm) => u32::from(firm),
        Actor::Clock => CLOCK,
    }
}

/// The rank of the clock.
const CLOCK: u32 = 65_536;

/// Puts an action.
fn put_action(answer: &mut String, rank: u32, number: u64) -> Result<(), CaseFault> {
    if rank == CLOCK {
        writeln!(answer, "CLOCK {number}")?;
        return Ok(());
    }
    writeln!(answer, "{rank} {number}")?;
    Ok(())
}
