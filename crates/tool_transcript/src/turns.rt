ghost use Rattle.std.specs.Prelude.{◌≤◌};

use crate::devices::{Devices, another, bytes_in, call, cut, number, server_on};
use keyed_fn::Keyed;
use outside_memory_disk::MemDisk;
use script_run_texts::StopCause;
use server_tables::BucketTables;
use sse_client::run_on_disk;
use sse_link::{Fail, Link, Loopback, Passed, ScriptedLink};
use sse_outside::{Disk, MemSink, MemSource, Sink, Source, print_all};
use std::alloc::{AllocError, Global};
use std::mem;

/// What is run: a script with a word, and which call of its source and of its sink fails, from 0.
#[derive(Clone, Copy)]
pub(crate) struct Run<'a> {
    pub word: &'a str,
    pub script: &'a [u8],
    pub source: Option<u64>,
    pub sink: Option<u64>,
}

/// The status of a run, and what it printed.
#[derive(Drop)]
pub(crate) struct Ended {
    pub status: u8,
    pub printed: MemSink,
}

/// The fields of a turn's line: the word, the disk and the call of the client, and those behind them, which may be empty.
fn fields_of(line: &str) -> Option<(&str, &str, &str, &str)> {
    let (_, rest) = line.split_once(' ')?;
    let (word, rest) = rest.split_once(' ')?;
    let (disk, rest) = rest.split_once(' ')?;
    let (fails, rest) = first_of(rest);
    Some((word, disk, fails, rest))
}

/// The first field and those behind it, which may be empty.
fn first_of(fields: &str) -> (&str, &str) {
    match fields.split_once(' ') {
        Some(both) => both,
        None => (fields, ""),
    }
}

/// The number behind this name, where the fields begin with the name, and the fields behind both.
fn named<'a>(fields: &'a str, name: &str) -> Result<(Option<u64>, &'a str), StopCause> {
    let (first, rest) = first_of(fields);
    if first != name {
        return Ok((None, fields));
    }
    let (digits, rest) = first_of(rest);
    Ok((Some(number(digits)?), rest))
}

/// Carries out the turn of a line, and prints what comes of it.
pub(crate) fn take_turn<K: Keyed + Copy + Drop, W: Sink>(
    alloc: Global,
    keyed: K,
    devices: &mut Devices<K>,
    line: &str,
    script: &[u8],
    sink: &mut W,
) -> Result<(), StopCause> {
    let Some((word, disk, fails, rest)) = fields_of(line) else {
        return Err(StopCause::Words);
    };
    set_client(alloc, &mut devices.client, disk, call(fails)?)?;
    let (reads, rest) = named(rest, "source")?;
    let (writes, rest) = named(rest, "sink")?;
    let run = Run {
        word,
        script,
        source: reads,
        sink: writes,
    };
    let ended = match rest.strip_prefix("replies ") {
        Some(field) => {
            let replies = bytes_in(alloc, field)?;
            run_over_replies(alloc, &keyed, &mut devices.client, replies, &run, sink)?
        }
        None => {
            set_link(alloc, keyed, &mut devices.link, rest)?;
            run_over_server(alloc, &keyed, devices, &run, sink)?
        }
    };
    let left = left_by(alloc, ended.status, devices)?;
    print_all(sink, ended.printed.bytes())?;
    print_all(sink, left.as_bytes())?;
    Ok(())
}

/// Runs over the link to the server, and prints what passed.
pub(crate) fn run_over_server<K: Keyed + Drop, W: Sink>(
    alloc: Global,
    keyed: &K,
    devices: &mut Devices<K>,
    run: &Run<'_>,
    sink: &mut W,
) -> Result<Ended, StopCause> {
    let before = devices.link.transcript().len();
    let ended = run_over(alloc, keyed, &mut devices.link, &mut devices.client, run)?;
    print_passed(alloc, devices.link.transcript(), before, sink)?;
    Ok(ended)
}

/// Runs over a link that plays back these bytes, and prints what passed.
fn run_over_replies<K: Keyed, W: Sink>(
    alloc: Global,
    keyed: &K,
    client: &mut MemDisk,
    replies: Vec<u8>,
    run: &Run<'_>,
    sink: &mut W,
) -> Result<Ended, StopCause> {
    let mut link = ScriptedLink::new(alloc, replies);
    let ended = run_over(alloc, keyed, &mut link, client, run);
    let told = print_passed(alloc, link.transcript(), 0, sink);
    drop(link);
    told?;
    Ok(ended?)
}

/// Runs on the disk and over any link.
fn run_over<K: Keyed, L: Link>(
    alloc: Global,
    keyed: &K,
    link: &mut L,
    client: &mut MemDisk,
    run: &Run<'_>,
) -> Result<Ended, AllocError> {
    let reads = calls_of(alloc, run.source)?;
    let writes = calls_of(alloc, run.sink)?;
    let words = vec![in alloc; String::from_str(alloc, run.word)?]?;
    let script = Vec::from_slice(alloc, run.script)?;
    let mut source = MemSource::new(script, reads);
    let mut printed = MemSink::new(alloc, writes);
    let disk = mem::replace(client, MemDisk::new(alloc, Vec::new(alloc)));
    let (status, disk) = run_on_any(alloc, &words, keyed, link, disk, &mut source, &mut printed);
    drop(mem::replace(client, disk));
    Ok(Ended { status, printed })
}

/// The same on any devices: so nothing of those in memory is asked of its proof.
fn run_on_any<K: Keyed, L: Link, D: Disk, S: Source, W: Sink>(
    alloc: Global,
    words: &[String],
    keyed: &K,
    link: &mut L,
    client: D,
    source: &mut S,
    printed: &mut W,
) -> (u8, D) {
    run_on_disk(alloc, words, keyed, link, client, source, printed)
}

/// The calls of a device that fail: one or none.
fn calls_of(alloc: Global, call: Option<u64>) -> Result<Vec<u64>, AllocError> {
    match call {
        Some(call) => Ok(vec![in alloc; call]?),
        None => Ok(Vec::new(alloc)),
    }
}

/// Puts the client's disk of a turn, of which a call fails, in the place of the one before.
fn set_client(alloc: Global, client: &mut MemDisk, disk: &str, call: u64) -> Result<(), StopCause>
    requires { 1 ≤ call }
{
    if disk != "same" {
        let other = another(alloc, disk, client)?;
        drop(mem::replace(client, other));
    }
    client.fail_after(call);
    Ok(())
}

/// Puts the link to another server, where there are fields of one, in the place of the one before.
fn set_link<K: Keyed + Drop>(
    alloc: Global,
    keyed: K,
    link: &mut Loopback<K, BucketTables, MemDisk>,
    fields: &str,
) -> Result<(), StopCause> {
    if fields.is_empty() {
        return Ok(());
    }
    let Some((disk, rest)) = fields.split_once(' ') else {
        return Err(StopCause::Words);
    };
    let (fails, rest) = first_of(rest);
    let call = call(fails)?;
    let cuts = cuts_of(alloc, rest)?;
    let disk = another(alloc, disk, link.disk())?;
    let other = server_on(alloc, keyed, disk, call, cuts)?;
    drop(mem::replace(link, other));
    Ok(())
}

/// The cuts that fields name.
fn cuts_of(alloc: Global, fields: &str) -> Result<Vec<Fail>, StopCause> {
    let mut cuts = Vec::new(alloc);
    if !fields.is_empty() {
        for field in fields.split(' ') {
            cuts.push(cut(field)?)?;
        }
    }
    Ok(cuts)
}

/// Prints what passed behind so many frames and replies, a line for each.
fn print_passed<W: Sink>(
    alloc: Global,
    passed: &[Passed],
    before: usize,
    sink: &mut W,
) -> Result<(), StopCause> {
    for passed in passed.iter().skip(before) {
        let line = line_of(alloc, passed)?;
        print_all(sink, line.as_bytes())?;
    }
    Ok(())
}

/// What passed, as a line: which way, and the bytes in hexadecimal digits.
fn line_of(alloc: Global, passed: &Passed) -> Result<String, AllocError> {
    let (way, bytes) = match passed {
        Passed::Sent { bytes, .. } => (">", bytes),
        Passed::Received(bytes) => ("<", bytes),
    };
    let hexadecimal = hex::encode(alloc, bytes.as_slice())?;
    format!(in alloc; "{way} {hexadecimal}\n")
}

/// The lines of a status and of both disks.
fn left_by<K: Keyed>(
    alloc: Global,
    status: u8,
    devices: &Devices<K>,
) -> Result<String, AllocError> {
    let client = hex::encode(alloc, devices.client.bytes())?;
    let server = hex::encode(alloc, devices.link.disk().bytes())?;
    format!(in alloc; "status {status}\nclient {client}\nserver {server}\n")
}
