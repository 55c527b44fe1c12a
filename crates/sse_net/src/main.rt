//! The client's program over TCP: a script comes from standard input, its frames go to a server, and what its lines
//! come to goes to standard output. It depends on `sse_client` for the run, on `program_words` for the words, and on
//! `client_places` for where disk and link come from: `net_main` is the whole program over any places. All words are
//! read first, so that a misspelt word leaves no file behind; then the file is opened, then the address is called, so
//! that a run which can't keep records never calls a server. A name is looked up by the C library; an IP address isn't.
//! Proved: which file and address are opened, in which order, that the run of the words goes over both under the real
//! keyed function, or why not, and status and lines, over any places, disk, link, source and sink.
//! Tested: over a disk and a link in memory, called by their own names and by others.
//! Not covered: what a real file and socket do (tested by `.ci/tcp`).
//! Side: client.
#![tactic(auto)]

mod asked;
mod over_tcp;
mod owner_link;
mod program;
#[cfg(test)]
mod runs_in_memory;

use client_places::SystemPlaces;
use outside_words::command_line;
use over_tcp::ServerOverTcp;
use program::net_main;
use sse_outside::{StdSink, StdSource};
use std::process::ExitCode;

/// Runs the script of standard input over a server, and ends with the status of the run.
fn main(rt: HostRuntime) -> ExitCode {
    let mut source = StdSource::new(rt.stdin());
    let mut sink = StdSink::new(rt.stdout());
    let mut places = SystemPlaces::new(&rt, ServerOverTcp);
    let given = command_line(&rt);
    let status = net_main(rt.alloc(), &mut places, &given, &mut source, &mut sink);
    ExitCode::from(status)
}
