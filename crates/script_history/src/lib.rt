//! Reads a script to its history, with no link and no disk, and prints only the refusals. It depends on
//! `def_script_meaning` for what a line comes to, on `leakage_history` for the history as a value, and on `script_run_texts` for
//! numbered lines. It is no run, so it has definitions of its own (`Reads`), joined to the meaning by one law. A
//! `NumberedHistory` refuses a command or a renewal of the key with which commands, update frames or words couldn't be
//! numbered in 32 bits; words count as often as commands name them, since counting different ones needs a table. `take_line`
//! carries out one line after the key line. In the second of two scripts a new key isn't compared with those before.
//! Proved: `read_history` is a reading (specs/Reads.antt) over any source and sink; a reading without device faults
//! and with enough memory does what the script means (`reads-meaning`).
//! Side: client.
#![tactic(auto)]

mod lines;
mod numbered_history;
mod script_reader;
mod stage;
mod taken_line;
mod used_keys;

pub use numbered_history::NumberedHistory;
pub use script_reader::{FirstScript, ReadScript, read_first, read_history, read_second};
pub use stage::{Stage, Standing};
pub use taken_line::take_line;
pub use used_keys::UsedKeys;
