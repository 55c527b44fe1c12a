//! The client's program of a vault: a script comes from standard input, its texts go to a vault encrypted, and what its lines come to
//! goes to standard output. It depends on `vault_client` for `run` and `more`, over a journal's file and a server's
//! address or over a vault in this process; on `vault_restore` for `restore`, which needs the key and an address only; on
//! `program_words` for the words, and on `client_places` for where disk and link come from. All words are read first, so that
//! a misspelt word leaves no file behind; then the file is opened, then the address is called.
//! Proved: which file and address are opened, in which order, that the run or the restore of the words goes over them under
//! the real keyed function, or why not, over any places, disk, link, source and sink.
//! Not covered: what a real file and socket do (tested by `.ci/vault`).
//! Side: client.
#![tactic(auto)]

mod asked;
mod in_memory;
mod over_tcp;
mod program;

use client_places::SystemPlaces;
use outside_words::command_line;
use over_tcp::VaultOverTcp;
use program::vault_main;
use sse_outside::{StdSink, StdSource};
use std::process::ExitCode;

/// Runs the script of standard input with a vault, or restores its texts, and ends with the status of that.
fn main(rt: HostRuntime) -> ExitCode {
    let mut source = StdSource::new(rt.stdin());
    let mut sink = StdSink::new(rt.stdout());
    let mut places = SystemPlaces::new(&rt, VaultOverTcp);
    let given = command_line(&rt);
    let status = vault_main(rt.alloc(), &mut places, &given, &mut source, &mut sink);
    ExitCode::from(status)
}
