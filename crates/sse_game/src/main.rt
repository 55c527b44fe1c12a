//! Plays the duel of `duel SEED N`: a chooser gives each of two histories its next command after it has seen all that passed
//! for the left one, and the two leak the same. The line counts commands and bytes. A program for checks. It depends on
//! `def_duel` for what a duel is, on `leakage_model`, `word_keys` and, for setups, `leakage_draws` for what passes, and on
//! `script_game` for the words, the rule and the lines. `main` only reads the command line and names the output.
//! Proved: at each turn the chooser of `play_duel` was shown exactly what passes for the left history, which tells nothing
//! but its leakage; and `run_program` prints the counts of the duel of the rule, or why it stopped.
//! Tested: tests/duels.txt and made duels, against a plain model; and a chooser whose additions leak something else, which
//! no row reaches.
//! Side: client.
#![tactic(auto)]

mod acceptance;
mod begin;
mod choice;
mod chooser;
mod drawn;
mod duel;
mod fault;
mod game;
mod marks;
mod played;
mod run;
mod shown;
mod side;
#[cfg(test)]
mod unlike_sides;

use outside_words::command_line;
use run::run_program;
use sse_outside::StdSink;
use std::process::ExitCode;

/// Plays the duel that the words ask for, and ends with the status of `run_program`.
fn main(rt: HostRuntime) -> ExitCode {
    let mut sink = StdSink::new(rt.stdout());
    let given = command_line(&rt);
    ExitCode::from(run_program(rt.alloc(), &given, &mut sink))
}
