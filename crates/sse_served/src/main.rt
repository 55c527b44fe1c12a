//! The server's program: serves connections to an address, one after the other, from a store whose journal is a file.
//! It depends on `server_connections` for frames over connections, on `sse_server` for the store, and on `service_places`
//! for words, file and address; it knows no word and no master key. `served_main` is the whole program over any places that
//! a file and connections come from. All words are read first, then the file is opened, then the address; `serving` is
//! printed once the server listens, and then the journal is read.
//! Proved: which file and address are opened, in which order, that as many connections as the words say are served under
//! the real keyed function, or why not, and status and lines, over any places, disk, connections and sink.
//! Not covered: what a real file and socket do, and the lines on standard error (tested by `.ci/served` and `.ci/tcp`).
//! Side: server.
#![tactic(auto)]

mod asked;
mod owner_service;
mod program;
mod service;
mod stop;

use outside_words::command_line;
use program::served_main;
use service_places::SystemPlaces;
use sse_outside::StdSink;
use std::hash::RandomState;
use std::process::ExitCode;

/// Serves, as the words of the command line ask for, and ends with the status.
fn main(rt: HostRuntime) -> ExitCode {
    let mut sink = StdSink::new(rt.stdout());
    let mut places = SystemPlaces::new(&rt);
    let given = command_line(&rt);
    // The keys of the servers' tables, so that nobody who chooses labels knows where they stand.
    let keys = RandomState::new(&rt).ok();
    let status = served_main(rt.alloc(), &mut places, keys, &given, &mut sink);
    if status == 2 {
        let _ = eprintln!(rt;
            "usage: sse_served ADDRESS FILE [COUNT], or ADDRESS FILE owners NUMBER [NUMBER ..]"
        );
    }
    ExitCode::from(status)
}
