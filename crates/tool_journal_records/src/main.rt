//! A program that prints the records of a journal's file, one per line in hexadecimal digits, or says why the file is
//! no journal. It opens the journal as any user does, and so repairs it: a file of less than nine bytes becomes an
//! empty journal, and bytes after the last record are cut (docs/FORMATS.md). With `count` it prints the number of
//! records; with `append COUNT SIZE` it appends that many records of that many bytes, for the benchmark.
//! Tested: on real files, through `FileDisk`, against an independent reader of the format. Only that it is safe and
//! returns is proved.
//! Side: both.
#![tactic(auto)]

mod request;
mod stop;

use request::Request;
use sse_outside::{FileDisk, StdSink, print_all};
use std::fs::File;
use std::process::ExitCode;
use std::{env, io};
use stop::Stop;

/// Does the request that the words of the command line name. It ends with 0, or prints why not and ends with another
/// status: 2 for the words, 4 where standard output fails, 6 where the file does, 7 for memory, 10 for no journal.
fn main(rt: HostRuntime) -> ExitCode {
    let mut sink = StdSink::new(rt.stdout());
    match run(&rt, &mut sink) {
        Ok(()) => ExitCode::SUCCESS,
        Err(stop) => {
            let _ = stop.print(rt.alloc(), &mut sink);
            ExitCode::from(stop.status())
        }
    }
}

fn run<W: io::Write>(rt: &HostRuntime, sink: &mut StdSink<W>) -> Result<(), Stop> {
    let words: Vec<String> = env::args(rt)
        .map_err(|_| Stop::Words)?
        .skip(1)
        .collect(rt.alloc())?;
    let Some((path, rest)) = words.split_first() else {
        return Err(Stop::Words);
    };
    let request = Request::of(rest).ok_or(Stop::Words)?;
    let file = File::options()
        .read(true)
        .write(true)
        .open(rt, path.as_str())
        .map_err(|_| Stop::NotOpened)?;
    request.run(rt.alloc(), &mut FileDisk::new(file), sink)
}
