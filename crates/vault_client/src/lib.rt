//! What a program of a vault's client does with its words: with `run`, `vault_run` begins a vault's history on a disk without
//! records; with `more` it resumes: the records make the shelf again, without the last command; the server says which update
//! it expects, and gets that command's frame again if it is missing it; then come the script's lines. It depends on
//! `client_journal` for the journal, on `doc_vault` for questions, frames and lines, on `client_recorder` to keep each record
//! before its frame is sent, and on `vault_script` for the last line and the status. The disk is given back.
//! Proved: over any link, what is read, sent, kept and printed, which status comes and why, and what a crash leaves at any
//! moment. Over an honest link to a vault as this client left it, or without its last update, no reply stops the run, it does
//! what its script means, and what passes is what the simulator makes of the whole history.
//! Not here: the link, the file and the words of a real process.
//! Side: client.
#![tactic(auto)]

mod begun_run;
mod catching_up;
mod on_disk;
mod recovery;
mod restart;
mod resumed_run;
mod resuming;

pub use on_disk::vault_run;
pub use recovery::recover;
pub use restart::{Restart, restore};
pub use resuming::resume;
