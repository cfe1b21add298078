//! The arguments of the program's commands: what they ask for, or what is wrong with them.
//!
//! ```text
//! let command = read_command(alloc, &["replay", "DLR1", "--frames"])?;
//! ```
//!
//! The commands are a table, of which `clap` is told, and which the help prints.
//!
//! # What is promised
//!
//! - [`read_command`]: arguments that are those of a command give it (`command_of` of
//!   `specs/Arguments`), all others one of the errors that they have (`arguments_fault`).
//! - [`response_to`] says whether an error asks for help or is a mistake, and gives a text that is
//!   not empty; that this is the text of that help, or says what the mistake is, is not proved.
//! - [`these_arguments_are_commands`] and [`arguments_have_these_faults`] say which arguments are
//!   those of a command, and what is wrong with some others.
#![tactic(auto)]

mod command;
mod help;
mod inputs;
mod laws;
mod table;

pub use command::{Response, VenueCommand, argument_bytes, read_command, response_to};
pub use laws::{arguments_have_these_faults, these_arguments_are_commands};
