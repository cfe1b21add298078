//! What was due to a dealer, from the events of its desk and the liftings of its quotes.
ghost use Rattle.std.specs.Prelude.{◌≡◌, ◌++◌, ◌-◌, map, take, drop, IfOk, OnOk};
ghost use Rattle.step_replay.specs.Liftings as kept;

use crate::Due;
use crate::floor::DealerPlace;
use dealer_desk::DealerEvent;
use fix_fields::Memory;
use quote_messages::FirmMessage;
use std::alloc::Global;

/// What was due to the dealer at a place, in its order, each message copied in memory of its own.
pub(crate) fn dues_at(alloc: Global, place: &DealerPlace) -> Result<Vec<Due>, Memory>
    ensures { IfOk result (λ dues.
        dues.items ≡ kept.dues_behind 0 place.now.desk.events place.now.liftings.items) }
{
    let events = place.desk.events();
    let mut dues = Vec::new(alloc);
    let mut come: usize = 0;
    for lifting in &place.liftings {
        push_run(alloc, &mut dues, events, come, lifting.after)?;
        dues.push(Due::Lifted(lifting.quote))?;
        come = lifting.after;
    }
    push_run(alloc, &mut dues, events, come, events.len())?;
    Ok(dues)
}

/// Puts what was due by a run of events behind some dues: from this event on, up to that one.
fn push_run(
    alloc: Global,
    dues: &mut Vec<Due>,
    events: &[DealerEvent],
    from: usize,
    to: usize,
) -> Result<(), Memory>
    ensures { OnOk result (dues.new.items
        ≡ dues.old.items ++ map kept.due_by_event (take (to - from) (drop from events.now))) }
{
    for index in from..to {
        let Some(event) = events.get(index) else {
            return Ok(());
        };
        dues.push(due_by(alloc, event)?)?;
    }
    Ok(())
}

/// What was due by an event.
fn due_by(alloc: Global, event: &DealerEvent) -> Result<Due, Memory>
    ensures { IfOk result (λ due. due ≡ kept.due_by_event event.now) }
{
    match event {
        DealerEvent::Received {
            moment,
            message,
            ..
        } => {
            let message = FirmMessage::copy_of(alloc, message.as_bytes())?;
            Ok(Due::Own(*moment, message))
        }
        DealerEvent::Shown { ask, moment, .. } => Ok(Due::Shown(ask.copy(), *moment)),
        DealerEvent::Told {
            request,
            close,
            moment,
        } => Ok(Due::Closed(*request, *close, *moment)),
        DealerEvent::Drop { last, moment, .. } => Ok(Due::Drop(*last, *moment)),
    }
}
