//! A program for tests that prints what histories have, leak, draw and look up, and the values of their names, to
//! compare with other models. Scripts come from standard input, separated by lines of four hyphens. Of a script it
//! prints for each epoch its setup's documents and its commands, then of each command its leakage and its draws, and
//! each simulated frame (`>`) and reply (`<`). Then come, for each command, what is drawn, the names of these values and
//! the names looked up, and each name with its value; a name begins with the number of its epoch. Of two scripts with a
//! line `twin` between them it prints the counts of the first history, and those of the second with its moved values,
//! or the first command that leaks something else. Commands are numbered through all epochs, the setups included. A script
//! without an accepted setup, or with a bad line, has no lines. It depends on `script_history`, `leakage_model`,
//! `leakage_draws` and `leakage_frames`.
//! Tested: against plain models, by `.ci/leakage` and `.ci/twin`. Only that it is safe and returns is proved.
//! Side: client.
#![tactic(auto)]

mod digits;
mod documents;
mod history_lines;
mod names;
mod pair_lines;
mod printed_lines;
mod read_stop;
mod uses;
mod values;

use printed_lines::tell_all;
use read_stop::read_stop;
use script_run_texts::{StopCause, finish};
use sse_outside::StdSink;
use std::io::Read;
use std::process::ExitCode;

/// Tells the scripts of standard input. It ends with 0, or as a run does where its input, its output or memory fails.
fn main(rt: HostRuntime) -> ExitCode {
    let mut sink = StdSink::new(rt.stdout());
    let ended = read_all(&rt).and_then(|scripts| tell_all(rt.alloc(), &scripts, &mut sink));
    match ended {
        Ok(()) => ExitCode::SUCCESS,
        Err(stop) => ExitCode::from(finish(&mut sink, stop)),
    }
}

/// All of standard input.
fn read_all(rt: &HostRuntime) -> Result<Vec<u8>, StopCause> {
    let mut bytes = Vec::new(rt.alloc());
    match rt.stdin().read_to_end(&mut bytes) {
        Ok(_) => Ok(bytes),
        Err(error) => Err(read_stop(&error)),
    }
}
