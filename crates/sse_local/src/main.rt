//! Client and server in one program: a script comes from standard input, and what its lines come to goes to standard
//! output. It depends on `sse_client` for `run` and `more`, which run over a store and a client's file in memory; on
//! `script_history`, `leakage_draws` and `leakage_sheets` for `twin`, which compares two scripts by what a server would
//! learn and carries out neither; on `script_made_lines` for `gen SEED N`, which runs a made script and prints a
//! summary; and on `program_words` for the words. `main` only reads the command line and names the devices.
//! Proved: what `run_program` does with its words, over any source and sink: the lines, or why it stopped, both files,
//! and the status with the device that it names.
//! Tested: tests/scripts, tests/twins and the scripts of examples, answered by an independent model.
//! Side: client.
#![tactic(auto)]

mod comparison;
mod made;
mod program;
mod twin;

use outside_words::command_line;
use program::run_program;
use sse_outside::{StdSink, StdSource};
use std::process::ExitCode;

/// Runs the script of standard input, and ends with the status of the run.
fn main(rt: HostRuntime) -> ExitCode {
    let mut source = StdSource::new(rt.stdin());
    let mut sink = StdSink::new(rt.stdout());
    let given = command_line(&rt);
    ExitCode::from(run_program(rt.alloc(), &given, &mut source, &mut sink))
}
