//! The steps of a day, line by line.
ghost use Rattle.std.specs.Prelude.{◌≡◌, ◌≢◌, None, Ok, Err, IfOk, IfErr};
ghost use Rattle.step_replay.specs.StepFaults.{first_fault};
ghost use Rattle.venue_rows.specs.Rows.{values_of};
ghost use Rattle.input_lines.specs.StepLines as spec;

use crate::faults::ProgramFault;
use crate::firm_streams::Heard;
use crate::line_steps::push_spelled;
use crate::lines::NumberedLines;
use crate::step_lines::read_line;
use std::alloc::Global;
use step_replay::Step;
use venue_rows::VenueConfig;

/// Reads the lines of steps, or gives their first fault ([`ProgramFault::Form`],
/// [`ProgramFault::UnknownFirm`], [`ProgramFault::UnknownRoom`] or [`ProgramFault::Stream`]);
/// memory may be refused at any point.
pub fn read_steps(
    alloc: Global,
    config: &VenueConfig,
    lines: NumberedLines<'_>,
) -> Result<Vec<Step>, ProgramFault>
    ensures ok { IfOk result (λ steps.
        spec.steps_of (values_of config.now) lines.entry ≡ Ok steps.items) }
    ensures err { IfErr result (λ fault. fault ≢ ProgramFault.Memory
        → spec.steps_of (values_of config.now) lines.entry ≡ Err fault) }
    ensures unwritten { IfErr result (λ fault. fault ≢ ProgramFault.Write) }

    // Each step names what the venue has.
    ensures known { IfOk result (λ steps. first_fault config.now steps.items ≡ None) }
{
    let firms = config.dealers().len() + config.investors().len();
    let mut heard = Heard::nothing(alloc, firms)?;
    let mut steps = Vec::new(alloc);
    for (line, text) in lines {
        let spelled = read_line(alloc, config, &mut heard, line, text)?;
        push_spelled(config, &mut steps, &mut heard, spelled)?;
    }
    Ok(steps)
}
