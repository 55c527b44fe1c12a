use crate::devices::Devices;
use crate::read_stop::read_stop;
use crate::turns::{Run, run_over_server, take_turn};
use keyed_fn::Keyed;
use script_run_texts::StopCause;
use sse_outside::{Sink, print_all};
use std::alloc::Global;
use std::io::BufRead;
use std::str;

/// The line between two parts, which no script has.
const PARTING: &[u8] = b"----";
/// What the line of a turn begins with, and no line of a script:
/// `turn WORD DISK CALL [source CALL] [sink CALL] [DISK CALL CUT.. | replies BYTES]`.
/// WORD is `run` or `more`. DISK and CALL are the client's. `same` is its disk as the turn before left it; at first it is empty, and
/// the server has taken nothing. `kept` is another disk with the bytes that it reads as, a number is its crash image of that number,
/// and `x` with hexadecimal digits is a disk with these bytes. CALL is the number of the disk's call that fails in this turn, from 1;
/// 0 is none. The calls of source and sink are counted from 0. With a second DISK another server is started, on a disk named in the
/// same way after the server's disk (not `same`), whose calls count from after its start. A CUT is a call of its link that fails,
/// sends and receives counted together from 0: `8-` before its work, `8+` after it. With `replies` the link plays back these bytes,
/// `x` with hexadecimal digits. If the input begins with a line `toy`, its parts use the toy keyed function.
const TURN: &[u8] = b"turn ";

/// Records each of the parts, in their order; after the last there may be a parting line or none.
pub(crate) fn record_all<K: Keyed + Copy + Drop, W: Sink>(
    alloc: Global,
    keyed: K,
    parts: &[u8],
    sink: &mut W,
) -> Result<(), StopCause> {
    let mut devices = Devices::new(alloc, keyed)?;
    let recorded = record_parts(alloc, keyed, &mut devices, parts, sink);
    drop(devices);
    recorded
}

/// The same over these devices.
fn record_parts<K: Keyed + Copy + Drop, W: Sink>(
    alloc: Global,
    keyed: K,
    devices: &mut Devices<K>,
    parts: &[u8],
    sink: &mut W,
) -> Result<(), StopCause> {
    let mut turn = Vec::new(alloc);
    let mut script = Vec::new(alloc);
    for line in BufRead::split(parts, alloc, b'\n') {
        let line = line.map_err(|error| read_stop(&error))?;
        if line.as_slice() == PARTING {
            record(alloc, keyed, devices, &turn, &script, sink)?;
            turn.clear();
            script.clear();
        } else if line.starts_with(TURN) && turn.is_empty() && script.is_empty() {
            turn = line;
        } else {
            script.extend_from_slice(&line)?;
            script.push(b'\n')?;
        }
    }
    if !turn.is_empty() || !script.is_empty() {
        record(alloc, keyed, devices, &turn, &script, sink)?;
    }
    Ok(())
}

/// Records a part: a turn where it has the line of one, else a script.
fn record<K: Keyed + Copy + Drop, W: Sink>(
    alloc: Global,
    keyed: K,
    devices: &mut Devices<K>,
    turn: &[u8],
    script: &[u8],
    sink: &mut W,
) -> Result<(), StopCause> {
    if turn.is_empty() {
        return record_script(alloc, keyed, script, sink);
    }
    match str::from_utf8(turn) {
        Ok(line) => take_turn(alloc, keyed, devices, line, script, sink),
        Err(_) => Err(StopCause::Words),
    }
}

/// Runs a script on an empty disk and over a link to a server that has taken nothing, and prints what passed and the status.
fn record_script<K: Keyed + Copy + Drop, W: Sink>(
    alloc: Global,
    keyed: K,
    script: &[u8],
    sink: &mut W,
) -> Result<(), StopCause> {
    let mut devices = Devices::new(alloc, keyed)?;
    let run = Run {
        word: "run",
        script,
        source: None,
        sink: None,
    };
    let ended = run_over_server(alloc, &keyed, &mut devices, &run, sink);
    drop(devices);
    let line = format!(in alloc; "status {}\n", ended?.status)?;
    print_all(sink, line.as_bytes())?;
    Ok(())
}
