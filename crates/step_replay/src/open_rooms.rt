//! The rooms that are opening or open, by their deadlines.
ghost use Rattle.std.specs.Prelude.{◌≡◌, IfOk, OnOk};
ghost use Rattle.step_replay.specs.OpenRooms as spec;

use fix_fields::{Memory, Moment};
use market_terms::RoomRef;
use std::alloc::Global;
use std::collections::BTreeSet;

/// The rooms of a venue that are opening or open, each with the deadline of its request, the
/// earliest deadline first.
#[derive(Drop)]
pub(crate) struct OpenRooms {
    pub(crate) by_deadline: BTreeSet<(Moment, RoomRef)>,
}

impl OpenRooms {
    /// No room.
    pub(crate) fn none(alloc: Global) -> Self
        ensures { spec.IsEmpty result }
    {
        OpenRooms {
            by_deadline: BTreeSet::new(alloc),
        }
    }

    /// The earliest deadline, where there is a room.
    pub(crate) fn earliest(&self) -> Option<Moment>
        ensures { spec.IsEarliest self.now result }
    {
        let Some((deadline, _)) = self.by_deadline.first() else {
            return None;
        };
        Some(*deadline)
    }

    /// The rooms whose deadline has come at a moment, in the order of their investors and of their
    /// requests.
    pub(crate) fn due(&self, alloc: Global, moment: Moment) -> Result<BTreeSet<RoomRef>, Memory>
        ensures { IfOk result (spec.AreDue self.now moment) }
    {
        let mut rooms = BTreeSet::new(alloc);
        for (deadline, room) in &self.by_deadline {
            if deadline.get() > moment.get() {
                return Ok(rooms);
            }
            rooms.insert(*room)?;
        }
        Ok(rooms)
    }

    /// What was a room's deadline may be another now, or none: it was opened, or it ended.
    pub(crate) fn note(
        &mut self,
        room: RoomRef,
        before: Option<Moment>,
        now: Option<Moment>,
    ) -> Result<(), Memory>
        ensures { OnOk result (spec.Notes room before now self.old self.new) }
    {
        if before == now {
            return Ok(());
        }
        self.take_out(room, before);
        self.put(room, now)?;
        Ok(())
    }

    /// A room with this deadline is none of them any more.
    fn take_out(&mut self, room: RoomRef, deadline: Option<Moment>)
        ensures { spec.TakesOut room deadline self.old self.new }
    {
        let Some(deadline) = deadline else {
            return;
        };
        self.by_deadline.remove(&(deadline, room));
    }

    /// A room with this deadline is one of them.
    fn put(&mut self, room: RoomRef, deadline: Option<Moment>) -> Result<(), Memory>
        ensures { OnOk result (spec.Puts room deadline self.old self.new) }
    {
        let Some(deadline) = deadline else {
            return Ok(());
        };
        self.by_deadline.insert((deadline, room))?;
        Ok(())
    }
}
