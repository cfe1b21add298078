//! The program of a blind multi-dealer RFQ venue for bonds: a run of `venue_commands` over the
//! arguments and the streams of the process.
#![tactic(auto)]

use std::process::ExitCode;
use venue_commands::{process_arguments, run_process};

fn main(rt: HostRuntime) -> ExitCode {
    let mut input = rt.reader();
    let mut out = rt.stdout();
    let mut err = rt.stderr();
    let arguments = process_arguments(&rt);
    run_process(&rt, rt.alloc(), &arguments, &mut input, &mut out, &mut err)
}
