//! A program for tests that prints what a server sees of scripts, and what runs on a disk leave. Parts come from
//! standard input, separated by lines of four hyphens. A part is a script, run over a loopback to a server of its
//! own. Or it is a turn (the form of its line is at `TURN` in src/recorded.rt), a script on disks and a link whose
//! calls fail as chosen. It prints each frame (`>`) and reply (`<`) in hexadecimal digits and the status, and after a
//! turn also the printed lines and both disks. Runs on failing disks are tried by this program and not by tests,
//! since a test's assertions are proved too, while a program is proved once. It depends on `sse_client`, `sse_link`
//! and `outside_memory_disk`.
//! Tested: 200 histories against a model's simulator, and 300 made rows of turns against a plain model. Only that it
//! is safe and returns is proved.
//! Side: client.
#![tactic(auto)]

mod devices;
mod read_stop;
mod recorded;
mod turns;

use keyed_fn::{Real, Toy};
use read_stop::read_stop;
use recorded::record_all;
use script_run_texts::{StopCause, finish};
use sse_outside::StdSink;
use std::io::Read;
use std::process::ExitCode;

/// Records the parts of standard input. It ends with 0, or as a run does where its input, its output or memory fails, or as one whose
/// words are wrong where a turn's line is.
fn main(rt: HostRuntime) -> ExitCode {
    let mut sink = StdSink::new(rt.stdout());
    let ended = read_all(&rt).and_then(|input| match input.strip_prefix(b"toy\n") {
        Some(parts) => record_all(rt.alloc(), Toy, parts, &mut sink),
        None => record_all(rt.alloc(), Real, &input, &mut sink),
    });
    match ended {
        Ok(()) => ExitCode::SUCCESS,
        Err(stop) => ExitCode::from(finish(&mut sink, stop)),
    }
}

/// All of standard input.
fn read_all(rt: &HostRuntime) -> Result<Vec<u8>, StopCause> {
    let mut bytes = Vec::new(rt.alloc());
    match rt.stdin().read_to_end(&mut bytes) {
        Ok(_) => Ok(bytes),
        Err(error) => Err(read_stop(&error)),
    }
}
