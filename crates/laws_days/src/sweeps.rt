//! What a sweep leaves.
ghost use Rattle.std.specs.Prelude.{◌≡◌, ℕ, List, [], ◌∷◌, ◌++◌, true, false};
ghost use Rattle.market_terms.specs.declared.rooms.RoomRef.{RoomRef};
ghost use Rattle.venue_rows.specs.Rows.{Configuration, has_room};
ghost use Rattle.step_replay.specs.AuditTrail as venue;
ghost use Rattle.step_replay.specs.VenueRooms.{rooms_of, sweeps_at};
ghost use Rattle.step_replay.specs.declared.steps.Step.{Step};
ghost use Rattle.step_replay.specs.declared.steps.Step.TheVariants as step;
ghost use Rattle.laws_days.specs.Overdue.{is_overdue};

/// After a sweep of a room of the venue, that room is not open with a deadline at or before the
/// sweep's moment (`room`). After sweeps of all rooms, one behind the other, no room is (`clock`;
/// `specs/Overdue`).
///
/// It ends at: a room still opening, which no sweep ends; a `clock` line of `live`, which does work
/// between its sweeps.
pub fn a_sweep_leaves_nothing_overdue()
    ensures room { (config : Configuration) (steps : List Step) (room : RoomRef) (moment : ℕ)
        → has_room config room.investor room.n ≡ true
        → is_overdue moment
        (venue.audit_trail config (steps ++ step.Expire room moment ∷ [])) room ≡ false }
    ensures clock { (config : Configuration) (steps : List Step) (room : RoomRef) (moment : ℕ)
        → has_room config room.investor room.n ≡ true
        → is_overdue moment
        (venue.audit_trail config (steps ++ sweeps_at moment (rooms_of config))) room ≡ false }
{}
