//! Counts by numbers: of the actions of each actor, and of each word.
ghost use Rattle.std.specs.Prelude.{◌≡◌, nat_le, OnOk};
ghost use Rattle.day_weaving.specs.OrderCounts as kept;

use fix_fields::Memory;
use std::collections::HashMap;
use step_replay::Actor;

/// A number for each actor.
pub(crate) fn key_of(actor: Actor) -> u64
    ensures { result ≡ kept.key_of actor }
{
    match actor {
        Actor::Firm(firm) => u64::from(firm) + 1,
        Actor::Clock => 0,
    }
}

/// How many there are of a number.
pub(crate) fn count_of(counts: &HashMap<u64, u64>, key: u64) -> u64
    ensures { result ≡ kept.count_in counts.now key }
{
    counts.get(&key).copied().unwrap_or(0)
}

/// Sets how many there are of a number.
pub(crate) fn put_count(counts: &mut HashMap<u64, u64>, key: u64, count: u64) -> Result<(), Memory>
    ensures { OnOk result (kept.SetsCount counts.old counts.new key count) }
{
    counts.insert(key, count)?;
    Ok(())
}

/// Whether so many actions of its actor came that this one has.
pub(crate) fn has_come(done: &HashMap<u64, u64>, action: (Actor, u64)) -> bool
    ensures { result ≡ nat_le action.1 (kept.count_in done.now (kept.key_of action.0)) }
{
    action.1 <= count_of(done, key_of(action.0))
}
