//! What a turn does, as lines.
use case_lines::{CaseFault, push_line, push_text};
use fix_fields::read_frame;
use fix_sessions::{Ending, Found, Notice, Want, What};
use std::alloc::Global;

/// The fields of a frame but those of its header that each message has, behind a front.
pub fn push_fields(
    alloc: Global,
    answer: &mut String,
    front: &str,
    bytes: &[u8],
) -> Result<(), CaseFault> {
    answer.push_str(front)?;
    let Ok(frame) = read_frame(bytes) else {
        return push_line(answer, " no frame");
    };
    let mut is_first = true;
    for (tag, value) in frame.fields() {
        if tag == 49 || tag == 56 || tag == 34 || tag == 52 {
            continue;
        }
        answer.push_str(if is_first { " " } else { "|" })?;
        let name = format!(in alloc; "{tag}=")?;
        answer.push_str(name.as_str())?;
        push_text(answer, value)?;
        is_first = false;
    }
    push_line(answer, "")
}

/// What becomes of a connection.
pub fn push_ending(
    alloc: Global,
    answer: &mut String,
    connection: u64,
    ending: Ending,
) -> Result<(), CaseFault> {
    let word = match ending {
        Ending::Stands => return Ok(()),
        Ending::Ends => "ends",
        Ending::Parts => "parts",
    };
    let line = format!(in alloc; "{word} {connection}")?;
    push_line(answer, line.as_str())
}

/// What an operator is told.
pub fn push_notice(answer: &mut String, notice: Notice) -> Result<(), CaseFault> {
    let word = match notice {
        Notice::Credentials => "tells credentials",
        Notice::Refused { .. } | Notice::Denied => "tells refused",
        Notice::LostStore => "tells lost store",
        Notice::Rejected => "tells rejected",
        Notice::Dead => "tells dead",
    };
    push_line(answer, word)
}

/// What a session asks for.
pub fn push_want(alloc: Global, answer: &mut String, want: Want) -> Result<(), CaseFault> {
    let line = match want {
        Want::Nothing => format!(in alloc; "nothing")?,
        Want::Tick => format!(in alloc; "tick")?,
        Want::Again { number } => format!(in alloc; "again {number}")?,
        Want::Fresh { number } => format!(in alloc; "fresh {number}")?,
        Want::Logon { connection } => format!(in alloc; "logon {connection}")?,
    };
    push_line(answer, line.as_str())
}

/// What is found in a stream.
pub fn push_found(alloc: Global, answer: &mut String, found: Found) -> Result<(), CaseFault> {
    let skip = found.skip;
    let line = match found.what {
        What::Nothing => format!(in alloc; "skips {skip}, waits")?,
        What::Message { len } => format!(in alloc; "skips {skip}, message of {len}")?,
        What::TooLong => format!(in alloc; "skips {skip}, too long")?,
    };
    push_line(answer, line.as_str())
}
