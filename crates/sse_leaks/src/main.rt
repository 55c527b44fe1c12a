//! Prints what a server would learn of a script: first the lines of refused commands, then one line for each command
//! of its history. It depends on `script_history` for the history, on `leakage_model` for what it leaks and on
//! `leakage_texts` for the lines; nothing is encrypted or sent. It takes no words, and ends with `stopped: words` and 2 if
//! it is given any, with `stopped: memory` and 7 without memory to read them. `main` only reads the command line and
//! names the devices.
//! Proved: `leaks_run`, over any source and sink: a reading of the script, then the lines of what its history leaks,
//! or why it stopped, and the status.
//! Tested: tests/scripts and 200 histories, against a plain model.
//! Side: client.
#![tactic(auto)]

mod leak_report;
mod program;

use program::{CommandLine, run_program};
use sse_outside::{StdSink, StdSource};
use std::process::ExitCode;
use std::{env, io};

/// Reads the script of standard input, and ends with the status of `run_program`.
fn main(rt: HostRuntime) -> ExitCode {
    let mut source = StdSource::new(rt.stdin());
    let mut sink = StdSink::new(rt.stdout());
    let given = command_line(&rt);
    ExitCode::from(run_program(rt.alloc(), given, &mut source, &mut sink))
}

/// Reads the command line.
fn command_line(rt: &HostRuntime) -> CommandLine {
    match env::args(rt) {
        Ok(words) => match words.collect(rt.alloc()) {
            Ok(words) => CommandLine::Words(words),
            Err(_) => CommandLine::NoMemory,
        },
        Err(error) if error.kind() == io::ErrorKind::OutOfMemory => CommandLine::NoMemory,
        Err(_) => CommandLine::NoText,
    }
}
