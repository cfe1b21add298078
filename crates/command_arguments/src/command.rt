//! The arguments of a command.
ghost use Rattle.std.specs.Prelude.{◌≡◌, ◌<◌, [], Some, IfOk, IfErr, length, map, option_map, false};
ghost use Rattle.clap.specs.Words.{App, HasKind, kind_of, rule_of};
ghost use Rattle.command_arguments.specs.Arguments as spec;

use crate::help::{ABOUT, READS, VERSION};
use crate::table::{ArgumentLine, COMMANDS, CommandLine, FlagLine};
use clap::error::ErrorKind;
use clap::{Arg, ArgAction, Command, Error};
use fix_fields::Memory;
use investor_texts::{Sought, Whom};
use std::alloc::Global;
use std::convert::AsStr;
use venue_text::{LiveForm, Wanted};

/// What a command asks for.
#[derive(Clone, Copy)]
pub enum VenueCommand<'a> {
    /// The messages of the firm whose due text is read, a dealer or an investor.
    Alone {
        /// Each message is printed as its whole frame.
        frames: bool,
        /// Behind each message stands what its desk notes beside it.
        notes: bool,
    },
    /// All firms' messages of a day.
    Replay {
        /// Those of the firm with this name alone.
        firm: Option<&'a str>,
        /// Each message is printed as its whole frame.
        frames: bool,
    },
    /// The messages, the due text or the blotter of a day that comes line by line, as `live` takes
    /// it.
    Kept(Sought<'a>),
    /// All firms' messages of a day on threads.
    Day {
        /// Each message is printed as its whole frame.
        frames: bool,
        /// Behind them stands into how many steps the day is woven.
        woven: bool,
    },
    /// A day that goes on: the messages of each line as it comes.
    Live {
        /// How it is printed.
        form: LiveForm,
    },
    /// The due text of each dealer.
    Due {
        /// That of the dealer with this name alone.
        dealer: Option<&'a str>,
    },
    /// The due text of an investor.
    InvestorDue {
        /// Its name.
        investor: &'a str,
    },
    /// What differs for a dealer between two days.
    Compare {
        /// Its name.
        dealer: &'a str,
    },
    /// The same for an investor.
    InvestorCompare {
        /// Its name.
        investor: &'a str,
    },
    /// What differs for a firm between two days that come line by line, as `live` takes them.
    Compared(Whom<'a>),
    /// The blotter of a firm.
    Blotter {
        /// Its name.
        firm: &'a str,
    },
}

/// What the program prints for arguments that are not those of a command.
#[derive(Drop)]
pub enum Response {
    /// They ask for this help, or for the version.
    Help(String),
    /// They are wrong, and this says why.
    Wrong(String),
    /// Memory was refused.
    Memory,
}

/// Which of the program's flags are given.
#[derive(Clone, Copy)]
pub(crate) struct Flags {
    /// `--frames`: each message is printed as its whole frame.
    pub(crate) frames: bool,
    /// `--woven`: behind the messages of a day stands into how many steps it is woven.
    pub(crate) woven: bool,
    /// `--marks`: behind the messages of a line stands its mark.
    pub(crate) marks: bool,
    /// `--notes`: behind each message stands what its desk notes beside it.
    pub(crate) notes: bool,
    /// `--live`: the day is taken as `live` takes it.
    pub(crate) live: bool,
    /// `--investor`: the argument names an investor.
    pub(crate) investor: bool,
}

/// The command that arguments ask for, or what is wrong with arguments that are not those of one.
pub fn read_command<'a, S: AsStr>(
    alloc: Global,
    arguments: &'a [S],
) -> Result<VenueCommand<'a>, Error>
    requires { 0 < length arguments.now }
    ensures ok { IfOk result (λ command.
        spec.command_of (map S.text arguments.entry.now) ≡ Some (spec.meant command)) }
    ensures none { IfOk result (λ _. spec.arguments_fault (map S.text arguments.entry.now) ≡ []) }
    ensures err { IfErr result (HasKind (spec.arguments_fault (map S.text arguments.entry.now))) }
{
    let matches = venue_command(alloc)?.try_get_matches_from(arguments)?;
    let Some((name, words)) = matches.subcommand() else {
        return Ok(VenueCommand::Alone {
            frames: false,
            notes: false,
        });
    };
    let frames = words.get_flag("frames");
    let woven = words.get_flag("woven");
    let marks = words.get_flag("marks");
    let notes = words.get_flag("notes");
    let live = words.get_flag("live");
    let investor = words.get_flag("investor");
    let flags = Flags {
        frames,
        woven,
        marks,
        notes,
        live,
        investor,
    };
    let command = command_named(name, words.get_str("firm"), flags);
    Ok(command)
}

/// The command with this name, by the argument that was found for it and the flags that were.
fn command_named<'a>(name: &str, firm: Option<&'a str>, flags: Flags) -> VenueCommand<'a>
    ensures { spec.meant result
        ≡ spec.named_command name.now (option_map (λ argument. argument.now) firm.entry) flags }
{
    if name == "alone" {
        return VenueCommand::Alone {
            frames: flags.frames,
            notes: flags.notes,
        };
    }
    if name == "replay" {
        return replay_by(firm, flags);
    }
    if name == "day" {
        return VenueCommand::Day {
            frames: flags.frames,
            woven: flags.woven,
        };
    }
    if name == "live" {
        return VenueCommand::Live {
            form: form_by(flags),
        };
    }
    let argument = firm.unwrap_or("");
    if name == "due" {
        return due_of_one(argument, flags);
    }
    if name == "dues" {
        return due_by(None, flags);
    }
    if name == "compare" {
        return compare_by(argument, flags);
    }
    blotter_by(argument, flags)
}

/// The due text of the firm with this name, a dealer or an investor, by the flags that are given.
fn due_of_one<'a>(firm: &'a str, flags: Flags) -> VenueCommand<'a>
    ensures { spec.meant result ≡ spec.due_of_one firm.now flags }
{
    if !flags.investor {
        return due_by(Some(firm), flags);
    }
    if flags.live {
        return VenueCommand::Kept(Sought::Investor(firm.as_bytes()));
    }
    VenueCommand::InvestorDue { investor: firm }
}

/// A due text, by the flags that are given.
fn due_by<'a>(dealer: Option<&'a str>, flags: Flags) -> VenueCommand<'a>
    ensures { spec.meant result ≡ spec.due_by
        (option_map (λ argument. argument.now) dealer.entry) flags }
{
    if flags.live {
        return VenueCommand::Kept(Sought::Firms(Wanted::Due(argument_bytes(dealer))));
    }
    VenueCommand::Due { dealer }
}

/// A comparison, by the flags that are given.
fn compare_by<'a>(firm: &'a str, flags: Flags) -> VenueCommand<'a>
    ensures { spec.meant result ≡ spec.compare_by firm.now flags }
{
    if flags.investor {
        return investor_compare_by(firm, flags);
    }
    if flags.live {
        return VenueCommand::Compared(Whom::Dealer(firm.as_bytes()));
    }
    VenueCommand::Compare { dealer: firm }
}

/// The same for an investor.
fn investor_compare_by<'a>(investor: &'a str, flags: Flags) -> VenueCommand<'a>
    ensures { spec.meant result ≡ spec.investor_compare_by investor.now flags }
{
    if flags.live {
        return VenueCommand::Compared(Whom::Investor(investor.as_bytes()));
    }
    VenueCommand::InvestorCompare { investor }
}

/// A blotter, by the flags that are given.
fn blotter_by<'a>(firm: &'a str, flags: Flags) -> VenueCommand<'a>
    ensures { spec.meant result ≡ spec.blotter_by firm.now flags }
{
    if flags.live {
        return VenueCommand::Kept(Sought::Firms(Wanted::Blotter(firm.as_bytes())));
    }
    VenueCommand::Blotter { firm }
}

/// A replay, by the flags that are given.
fn replay_by<'a>(firm: Option<&'a str>, flags: Flags) -> VenueCommand<'a>
    ensures { spec.meant result ≡ spec.replay_by
        (option_map (λ argument. argument.now) firm.entry) flags }
{
    if flags.notes {
        let wanted = Wanted::Noted(argument_bytes(firm), flags.frames);
        return VenueCommand::Kept(Sought::Firms(wanted));
    }
    if flags.live {
        let wanted = Wanted::Messages(argument_bytes(firm), flags.frames);
        return VenueCommand::Kept(Sought::Firms(wanted));
    }
    VenueCommand::Replay {
        firm,
        frames: flags.frames,
    }
}

/// The form in which `live` prints, by the flags that are given.
fn form_by(flags: Flags) -> LiveForm
    ensures { result ≡ spec.form_by flags }
{
    LiveForm {
        frames: flags.frames,
        marks: flags.marks,
        notes: flags.notes,
    }
}

/// The bytes of an argument, where there is one.
pub fn argument_bytes(argument: Option<&str>) -> Option<&[u8]>
    ensures { option_map (λ bytes. bytes.now) result
        ≡ option_map (λ text. text.now) argument.entry }
{
    let Some(argument) = argument else {
        return None;
    };
    Some(argument.as_bytes())
}

/// A command of the table.
fn line_command<'a>(alloc: Global, line: &CommandLine) -> Result<Command<'a>, Memory>
    ensures { IfOk result (spec.IsAppOf (spec.told_app line.now)) }
{
    let mut command = Command::new(alloc, line.name)
        .about(line.about)
        .after_help(line.input);
    for flag in line.flags {
        command = command.arg(flag_arg(alloc, flag))?;
    }
    let Some(argument) = &line.argument else {
        return Ok(command);
    };
    command.arg(clap_argument(alloc, argument))
}

/// A flag.
fn flag_arg<'a>(alloc: Global, flag: &FlagLine) -> Arg<'a>
    ensures rule { rule_of result ≡ spec.flag_rule flag.now.name.now }
    ensures own { result.global ≡ false }
{
    Arg::new(alloc, flag.name)
        .long(flag.name)
        .action(ArgAction::SetTrue)
        .help(flag.help)
}

/// The argument that names a firm.
fn clap_argument<'a>(alloc: Global, argument: &ArgumentLine) -> Arg<'a>
    ensures rule { rule_of result ≡ spec.argument_rule argument.now.required }
    ensures own { result.global ≡ false }
{
    Arg::new(alloc, "firm")
        .value_name(argument.shown)
        .required(argument.required)
        .help(argument.help)
}

/// The program without its commands.
fn program_command<'a>(alloc: Global) -> Result<Command<'a>, Memory>
    ensures { IfOk result (spec.IsAppOf spec.program_app) }
{
    let named = Command::new(alloc, "rfq_venue").bin_name("rfq_venue")?;
    let program = named
        .version(VERSION)
        .about(ABOUT)
        .after_help(READS)
        .no_binary_name(true)
        .subcommand_required(true);
    Ok(program)
}

/// The program and its commands.
fn venue_command<'a>(alloc: Global) -> Result<Command<'a>, Memory>
    ensures { IfOk result (spec.IsAppOf spec.venue_app) }
{
    let program = program_command(alloc)?;
    with_commands(alloc, program, &COMMANDS)
}

/// A program with commands more.
fn with_commands<'a>(
    alloc: Global,
    mut program: Command<'a>,
    lines: &[CommandLine],
) -> Result<Command<'a>, Memory>
    ensures { (app : App) → spec.IsAppOf app program.entry
        → IfOk result (spec.IsAppOf (spec.with_told app lines.now)) }
{
    for line in lines {
        program = program.subcommand(line_command(alloc, line)?)?;
    }
    Ok(program)
}

/// What the program prints for an error in its arguments.
pub fn response_to(alloc: Global, error: &Error) -> Response
    ensures { spec.IsResponseTo (kind_of error.now) result }
{
    let Ok(text) = error.to_string(alloc) else {
        return Response::Memory;
    };
    // Clap promises nothing of a text that was made while memory was refused.
    if text.is_empty() {
        return Response::Memory;
    }
    match error.kind() {
        ErrorKind::OutOfMemory => Response::Memory,
        ErrorKind::DisplayHelp | ErrorKind::DisplayVersion => Response::Help(text),
        _ => Response::Wrong(text),
    }
}
