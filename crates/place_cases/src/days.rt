//! Days in parts: what makes the calls of cases about recorded days, inboxes, lists of what is due, and
//! the faults of a replay and of the program. The calls of each place stand at its type. A call that
//! answers nothing has done what it says.

mod answers;
mod cycles;
mod desk_events;
mod empty_days;
mod events;
mod faults;
mod inboxes;
mod places;
mod records;
mod replays;
mod steps;
mod told;
mod values;
mod venues;
mod views;

pub(crate) use places::run_place;
