//! Runs files of cases of a firm's session: of the session itself, of the messages between the wire
//! and the venue, and of what is recovered. It prints what failed and how many have passed. Its
//! arguments name the files; each is run by the driver of the place that it names.
#![tactic(auto)]

mod crossing;
mod desk;
mod fold;
mod kept;
mod notes;
mod printing;
mod store;

use case_lines::{CaseFault, CaseFile, Report};
use crossing::Crossing;
use desk::Desk;
use fold::Fold;
use std::alloc::Global;
use std::process::ExitCode;
use std::rt::{Env, Files};
use std::{env, fs, io};

fn main(rt: HostRuntime) -> ExitCode {
    let mut report = Report::new(rt.alloc());
    let ran = run_files(&rt, &mut report);
    let (passed, failed) = (report.passed(), report.failed());
    let told = print!(rt; "{}{passed} passed, {failed} failed\n", report.text());
    if ran.is_err() || told.is_err() || failed > 0 {
        return ExitCode::FAILURE;
    }
    ExitCode::SUCCESS
}

/// Runs each file that the arguments name.
fn run_files<H: Files + Env + AllocGlobal>(rt: &H, report: &mut Report) -> io::Result<()> {
    for name in env::args(rt)?.skip(1) {
        report.begin_file(name.as_str())?;
        let Ok(text) = fs::read_to_string(rt, name.as_str()) else {
            report.refuse("", "can't be read")?;
            continue;
        };
        if let Err(fault) = run_text(rt.alloc(), text.as_str(), report) {
            report.refuse("", fault.word())?;
        }
    }
    Ok(())
}

/// Runs the cases of a file with the driver of its place.
fn run_text(alloc: Global, text: &str, report: &mut Report) -> Result<(), CaseFault> {
    let Some(file) = CaseFile::of(alloc, text) else {
        report.refuse("", "names no place")?;
        return Ok(());
    };
    let is_known = match file.place() {
        "session" => file.run(Desk::new, report)?,
        "wire" => file.run(Crossing::new, report)?,
        "fold" => file.run(Fold::new, report)?,
        _ => false,
    };
    if !is_known {
        report.refuse(file.place(), "no such place")?;
    }
    Ok(())
}
