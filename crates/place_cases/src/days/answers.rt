//! Lines of an answer.
use case_lines::{CaseFault, day, push_bytes_line, push_line, push_text};
use fix_fields::{Moment, moment_text};
use input_lines::{Parts, ProgramFault, fault_line};
use market_terms::RoomRef;
use step_replay::{Actor, ReplayFault, Step};

/// Puts a text of lines, with what is no printed character escaped, and so a space at a line's end.
pub(crate) fn put_text(answer: &mut String, text: &[u8]) -> Result<(), CaseFault> {
    for line in Parts::new(text, b'\n') {
        put_escaped(answer, line)?;
    }
    Ok(())
}

/// Puts a line of a text.
fn put_escaped(answer: &mut String, line: &[u8]) -> Result<(), CaseFault> {
    match line {
        [front @ .., b' '] => {
            push_text(answer, front)?;
            push_line(answer, "\\x20")
        }
        _ => {
            push_text(answer, line)?;
            push_line(answer, "")
        }
    }
}

/// Puts the time of a moment, and a space.
pub(crate) fn put_time(answer: &mut String, moment: Moment) -> Result<(), CaseFault> {
    let Some(date) = day() else {
        return Err(CaseFault::Condition);
    };
    let stamp = moment_text(&date, moment);
    answer.push_str(&stamp.as_str()[9..])?;
    answer.push(' ')?;
    Ok(())
}

/// Puts the line that tells a fault of an input.
pub(crate) fn put_fault(answer: &mut String, fault: &ProgramFault) -> Result<(), CaseFault> {
    let line = fault_line(fault);
    put_text(answer, line.as_str().as_bytes())
}

/// Puts the line that tells a fault of a list of steps.
pub(crate) fn put_replay_fault(answer: &mut String, fault: ReplayFault) -> Result<(), CaseFault> {
    match fault {
        ReplayFault::UnknownFirm(k) => writeln!(answer, "unknown firm at {k}")?,
        ReplayFault::UnknownRoom(k) => writeln!(answer, "unknown room at {k}")?,
        ReplayFault::Memory => return Err(CaseFault::Memory),
    }
    Ok(())
}

/// Puts a count and what is counted.
pub(crate) fn put_count(answer: &mut String, count: usize, what: &str) -> Result<(), CaseFault> {
    writeln!(answer, "{count} {what}")?;
    Ok(())
}

/// Puts steps, a line each: `in FIRM TIME BYTES`, `turn FIRM`, `turn CLOCK` or `expire FIRM N
/// TIME`, with firms by their numbers.
pub(crate) fn put_steps(answer: &mut String, steps: &[Step]) -> Result<(), CaseFault> {
    for step in steps {
        put_step(answer, step)?;
    }
    Ok(())
}

/// Puts a step.
fn put_step(answer: &mut String, step: &Step) -> Result<(), CaseFault> {
    match step {
        Step::In(firm, moment, message) => {
            write!(answer, "in {firm} ")?;
            put_time(answer, *moment)?;
            push_bytes_line(answer, message.as_bytes())
        }
        Step::Turn(by) => put_turn(answer, *by),
        Step::Expire(room, moment) => put_sweep(answer, *room, *moment),
    }
}

/// Puts a turn.
fn put_turn(answer: &mut String, by: Actor) -> Result<(), CaseFault> {
    match by {
        Actor::Firm(firm) => writeln!(answer, "turn {firm}")?,
        Actor::Clock => writeln!(answer, "turn CLOCK")?,
    }
    Ok(())
}

/// Puts a sweep.
fn put_sweep(answer: &mut String, room: RoomRef, moment: Moment) -> Result<(), CaseFault> {
    write!(answer, "expire {} {} ", room.investor, room.n)?;
    let Some(date) = day() else {
        return Err(CaseFault::Condition);
    };
    let stamp = moment_text(&date, moment);
    push_line(answer, &stamp.as_str()[9..])
}
