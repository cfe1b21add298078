//! Runs files of cases, and prints what failed and how many have passed. Its arguments name the
//! files; each is run by the driver of the place that it names.
#![tactic(auto)]

mod commands;
mod in_row;
mod in_step;
mod inputs;
mod laws;
mod places;
mod process;
mod runs;
mod streams;

use case_lines::{CaseFault, CaseFile, Report};
use commands::Commands;
use places::run_place;
use std::marker::Sync;
use std::process::ExitCode;
use std::rt::{Env, Files};
use std::sync::Wait;
use std::thread::Threads;
use std::{env, fs, io};

fn main(rt: HostRuntime) -> ExitCode {
    let mut report = Report::new(rt.alloc());
    let ran = run_files(&rt, &mut report);
    let (passed, failed) = (report.passed(), report.failed());
    let told = print!(rt; "{}{passed} passed, {failed} failed\n", report.text());
    if ran.is_err() || told.is_err() || failed > 0 {
        return ExitCode::FAILURE;
    }
    ExitCode::SUCCESS
}

/// Runs each file that the arguments name.
fn run_files<H: Files + Env + Threads + Wait + Sync + AllocGlobal + Drop>(
    rt: &H,
    report: &mut Report,
) -> io::Result<()> {
    for name in env::args(rt)?.skip(1) {
        report.begin_file(name.as_str())?;
        let Ok(text) = fs::read_to_string(rt, name.as_str()) else {
            report.refuse("", "can't be read")?;
            continue;
        };
        if let Err(fault) = run_text(rt, text.as_str(), report) {
            report.refuse("", fault.word())?;
        }
    }
    Ok(())
}

/// Runs the cases of a file with the driver of its place.
fn run_text<H: Threads + Wait + Sync + AllocGlobal + Drop>(
    rt: &H,
    text: &str,
    report: &mut Report,
) -> Result<(), CaseFault> {
    let alloc = rt.alloc();
    let Some(file) = CaseFile::of(alloc, text) else {
        report.refuse("", "names no place")?;
        return Ok(());
    };
    if file.place() != "commands" {
        return run_place(&file, report);
    }
    let Some(lines) = file.lines(report)? else {
        return Ok(());
    };
    let mut commands = Commands::new(rt, alloc);
    commands.run_lines(alloc, lines.as_str(), report)?;
    Ok(())
}
