//! Faults by their names.
use case_lines::{CaseFault, Words};
use input_lines::{ProgramFault, UnkeptDay, UnwovenDay};
use venue_config::ConfigFault;

/// The fault that the words of a call name: its name, and the number of its line or its kind.
pub(crate) fn told_fault(words: &mut Words<'_>) -> Result<ProgramFault, CaseFault> {
    match words.word()? {
        "Config" => config_fault(words),
        "Day" => Ok(ProgramFault::Day(unkept_day(words.word()?)?)),
        "Weave" => Ok(ProgramFault::Weave(unwoven_day(words.word()?)?)),
        name => other_fault(name, words),
    }
}

/// A fault that is its name alone, or one of a line.
fn other_fault(name: &str, words: &mut Words<'_>) -> Result<ProgramFault, CaseFault> {
    match name {
        "Read" => Ok(ProgramFault::Read),
        "Input" => Ok(ProgramFault::Input),
        "Parts" => Ok(ProgramFault::Parts),
        "Firm" => Ok(ProgramFault::Firm),
        "Memory" => Ok(ProgramFault::Memory),
        "Write" => Ok(ProgramFault::Write),
        _ => line_fault(name, words),
    }
}

/// A fault of a line.
fn line_fault(name: &str, words: &mut Words<'_>) -> Result<ProgramFault, CaseFault> {
    let line = words.number()? as usize;
    match name {
        "Form" => Ok(ProgramFault::Form { line }),
        "UnknownFirm" => Ok(ProgramFault::UnknownFirm { line }),
        "UnknownRoom" => Ok(ProgramFault::UnknownRoom { line }),
        "Stream" => Ok(ProgramFault::Stream { line }),
        _ => Err(CaseFault::Form),
    }
}

/// A fault of a configuration.
fn config_fault(words: &mut Words<'_>) -> Result<ProgramFault, CaseFault> {
    let fault = match words.word()? {
        "Toml" => ConfigFault::Toml,
        "Missing" => ConfigFault::Missing,
        "Name" => ConfigFault::Name,
        "Twice" => ConfigFault::Twice,
        "Limit" => ConfigFault::Limit,
        _ => return Err(CaseFault::Form),
    };
    Ok(ProgramFault::Config(fault))
}

/// What does not agree after a day on threads.
fn unkept_day(name: &str) -> Result<UnkeptDay, CaseFault> {
    match name {
        "Inbox" => Ok(UnkeptDay::Inbox),
        "Told" => Ok(UnkeptDay::Told),
        "Sweep" => Ok(UnkeptDay::Sweep),
        "Shown" => Ok(UnkeptDay::Shown),
        "Relayed" => Ok(UnkeptDay::Relayed),
        "Answered" => Ok(UnkeptDay::Answered),
        _ => Err(CaseFault::Form),
    }
}

/// Why a day is not woven.
fn unwoven_day(name: &str) -> Result<UnwovenDay, CaseFault> {
    match name {
        "Malformed" => Ok(UnwovenDay::Malformed),
        "Cycle" => Ok(UnwovenDay::Cycle),
        "Differs" => Ok(UnwovenDay::Differs),
        _ => Err(CaseFault::Form),
    }
}
