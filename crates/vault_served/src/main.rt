//! The vault's program: serves connections to an address, one after the other, from a vault whose journal is a file. It
//! depends on `vault_server` for the vault, on `tcp_service` for the connections, and on `service_places` for words, file and
//! address; it knows no key and no text. A connection is frames, each a length and a body, and one reply to each. All words
//! are read first, then the file is opened, then the address; `serving` is printed once the program listens, and then the
//! journal is read. `served_main` is the whole program over any places that a file and connections come from.
//! Proved: over any source, sink and disk, what was read is whole frames, answered in turn, and the bytes left after them
//! (`IsConnection`); over any places, which file and address are opened, that as many connections as the words say are
//! served, or why not, and status and lines.
//! Not covered: what a real file and socket do, and the lines on standard error (tested by `.ci/vault`).
//! Side: server.
#![tactic(auto)]

mod connection;
mod front;
mod program;
mod reply_room;
mod service;
mod serving;
mod stop;

use outside_words::command_line;
use program::served_main;
use service_places::SystemPlaces;
use sse_outside::StdSink;
use std::process::ExitCode;

/// Serves, as the words of the command line ask for, and ends with the status.
fn main(rt: HostRuntime) -> ExitCode {
    let mut sink = StdSink::new(rt.stdout());
    let mut places = SystemPlaces::new(&rt);
    let given = command_line(&rt);
    let status = served_main(rt.alloc(), &mut places, &given, &mut sink);
    if status == 2 {
        let _ = eprintln!(rt; "usage: vault_served ADDRESS FILE [COUNT]");
    }
    ExitCode::from(status)
}
