//! What the lines of an input spell, exactly.
//!
//! An input is lines, a line is *parts* that one space divides each, and the first part says what
//! the line is. *Due text* is what is due to one dealer on one day, line by line:
//!
//! ```ignore
//! let due = read_due_text(alloc, b"date 20250314\ndealer DLR1 4 10000000 T1\n..")?;
//! ```
//!
//! A day of the whole venue is two *parts*, divided by a line `%%`: a configuration, and the lines
//! of steps. A command reads them one by one, so that it may look at its own argument between them:
//!
//! ```ignore
//! let day = day_parts(input)?;
//! let config = read_venue(alloc, day.config)?;
//! let dealer = asked_dealer(&config, b"DLR1")?;
//! let steps = read_steps(alloc, &config, day.steps)?;
//! ```
//!
//! # What is promised
//!
//! - [`read_due_text`] is `due_text_of`: the date, the dealer's row and the list, or the first
//!   fault.
//! - [`read_steps`] is `steps_of`: exactly the steps that the lines spell, each of which names what
//!   the venue has, or their first fault.
//! - [`day_parts`], [`two_days_parts`] and [`read_venue`] give the parts of an input and the
//!   configuration that one spells, [`asked_firm`] and [`asked_dealer`] whom an argument names.
//! - [`read_line`] reads one line of steps, behind what was [`Heard`] of the lines before it;
//!   [`count_line`] and [`push_steps`], both of them [`push_spelled`], put what it spells behind
//!   those.
//! - [`SayLine`], [`read_received`] and [`read_hexed`] read what a firm sends as lines of steps and
//!   of due text share it, [`NumberedLines`], [`Parts`], [`read_date`], [`read_traders`],
//!   [`read_band`], [`read_time`] and [`read_side`] what is in a line; [`push_barred`] writes a
//!   message with a bar for each SOH, as such a line has it.
//! - [`fault_line`] is the whole line of every fault.
//!
//! No call has a condition but those that say so; each returns, and only memory can be refused.
#![tactic(auto)]

mod bars;
mod dealer_line;
mod due_items;
mod due_text;
mod faults;
mod fields;
mod firm_streams;
mod frame_lines;
mod input_parts;
mod line_steps;
mod lines;
mod parts;
mod say_frames;
mod say_lines;
mod say_made;
mod step_lines;
mod step_text;
mod venue_parts;

pub use bars::push_barred;
pub use dealer_line::{read_date, read_traders};
pub use due_items::read_band;
pub use due_text::{DueText, read_due_text};
pub use faults::{ProgramFault, UnkeptDay, UnwovenDay, fault_line};
pub use fields::{Field, read_fields};
pub use firm_streams::Heard;
pub use frame_lines::{read_hexed, read_received};
pub use line_steps::{Spelled, count_line, push_spelled, push_steps};
pub use lines::{MOST_INPUT, NumberedLines, Parts, has_divider, is_skipped, one_past};
pub use parts::{cut_part, has_part_behind, read_side, read_time, same_text};
pub use say_frames::LONGEST_BODY;
pub use say_lines::SayLine;
pub use step_lines::{MOST_TURNS, read_line};
pub use step_text::read_steps;
pub use venue_parts::{
    DayParts, asked_dealer, asked_firm, day_parts, firm_of, read_venue, two_days_parts,
};
