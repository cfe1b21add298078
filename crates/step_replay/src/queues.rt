//! The queues of duties of a replay.
ghost use Rattle.std.specs.Prelude.{◌≡◌, ◌++◌, OnOk};

use fix_fields::Memory;
use market_terms::Duty;
use std::collections::VecDeque;
use venue_steps::Duties;

/// Puts duties at the end of a queue, in their order.
pub(crate) fn leave(queue: &mut VecDeque<Duty>, duties: Duties) -> Result<(), Memory>
    ensures { OnOk result (queue.new.items ≡ queue.old.items ++ duties.items) }
{
    for duty in duties {
        queue.push_back(duty)?;
    }
    Ok(())
}
