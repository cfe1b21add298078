//! Steps that lines spell.
use case_lines::CaseFault;
use input_lines::{MOST_INPUT, NumberedLines, ProgramFault, read_steps};
use std::alloc::Global;
use step_replay::Step;
use venue_rows::VenueConfig;

/// Puts the steps that the lines of a day spell behind others, or tells the first fault.
pub(crate) fn put_spelled(
    alloc: Global,
    config: &VenueConfig,
    lines: &[u8],
    steps: &mut Vec<Step>,
) -> Result<Option<ProgramFault>, CaseFault> {
    if lines.len() > MOST_INPUT {
        return Err(CaseFault::Condition);
    }
    match read_steps(alloc, config, NumberedLines::new(lines)) {
        Ok(more) => {
            put_all(steps, more)?;
            Ok(None)
        }
        Err(fault) => Ok(Some(fault)),
    }
}

/// Puts steps behind others.
fn put_all(steps: &mut Vec<Step>, more: Vec<Step>) -> Result<(), CaseFault> {
    for step in more {
        steps.push(step)?;
    }
    Ok(())
}
