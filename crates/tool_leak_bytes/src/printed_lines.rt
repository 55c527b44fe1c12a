ghost use Rattle.std.specs.Prelude.{◌≡◌, ◌≤◌, ◌+◌, ◌^◌, IfSome, Some, true};
ghost use Rattle.leakage_history.specs.HashedEpochs.{epochs_in};
ghost use Rattle.script_history.specs.Reads.{IsCountable};
ghost use Rattle.sse_script.specs.TextLines.{bytes_to_come};

use crate::history_lines::push_history;
use crate::pair_lines::push_pair;
use crate::read_stop::read_stop;
use keyed_fn::{Keyed, Real};
use script_history::{FirstScript, ReadScript, read_first, read_second};
use script_run_texts::{Input, InputStop, StopCause};
use sse_outside::{Sink, Source, SteadySink, SteadySource, print_all};
use std::alloc::Global;
use std::io::BufRead;

/// The line between two scripts, which no script has.
const PARTING: &[u8] = b"----";

/// Tells each of the scripts, in their order; after the last there may be a parting line or none.
pub(crate) fn tell_all<W: Sink>(
    alloc: Global,
    scripts: &[u8],
    sink: &mut W,
) -> Result<(), StopCause> {
    let mut script = Vec::new(alloc);
    for line in BufRead::split(scripts, alloc, b'\n') {
        let line = line.map_err(|error| read_stop(&error))?;
        if line.as_slice() == PARTING {
            tell(alloc, script, sink)?;
            script = Vec::new(alloc);
        } else {
            script.extend_from_slice(&line)?;
            script.push(b'\n')?;
        }
    }
    if script.is_empty() {
        return Ok(());
    }
    tell(alloc, script, sink)
}

/// Prints what is told of a script, and the parting line.
fn tell<W: Sink>(alloc: Global, script: Vec<u8>, sink: &mut W) -> Result<(), StopCause> {
    let text = script_text(alloc, script)?;
    print_all(sink, text.as_bytes())?;
    print_all(sink, b"----\n")?;
    Ok(())
}

/// What is told of a script, or of two with a line `twin` between them; their refusals are dropped.
fn script_text(alloc: Global, script: Vec<u8>) -> Result<String, StopCause> {
    let mut source = SteadySource::new(script);
    let mut refusals = SteadySink::new(alloc);
    let ended = read_text(alloc, &Real, &mut source, &mut refusals);
    drop(refusals);
    drop(source);
    match ended {
        Err(StopCause::Input(InputStop::Line(_))) => Ok(String::new(alloc)),
        ended => ended,
    }
}

/// The same of what a source has, with the stop at a bad line.
fn read_text<K: Keyed, S: Source, W: Sink>(
    alloc: Global,
    keyed: &K,
    source: &mut S,
    refusals: &mut W,
) -> Result<String, StopCause> {
    let mut input = Input::new(alloc)?;
    match read_first(alloc, keyed, source, refusals, &mut input) {
        Ok(first) => text_behind(alloc, keyed, source, refusals, &mut input, first),
        Err(stop) => Err(stop),
    }
}

/// What is told where the first script was read.
fn text_behind<K: Keyed, S: Source, W: Sink>(
    alloc: Global,
    keyed: &K,
    source: &mut S,
    refusals: &mut W,
    input: &mut Input,
    first: FirstScript,
) -> Result<String, StopCause>
    requires few { first.at_twin ≡ true → input.old.number + bytes_to_come input.old.pending (S.handed_out source.old) ≤ 2 ^ 63 }
    requires counted { IfSome first.script.history (λ h. IsCountable (Some (epochs_in h))) }
{
    let ended = if first.at_twin {
        text_of_two(alloc, keyed, source, refusals, input, &first.script)
    } else {
        text_of_one(alloc, keyed, &first.script)
    };
    drop(first);
    ended
}

/// What is told of a script that was read.
fn text_of_one<K: Keyed>(alloc: Global, keyed: &K, read: &ReadScript) -> Result<String, StopCause>
    requires { IfSome read.now.history (λ h. IsCountable (Some (epochs_in h))) }
{
    let mut text = String::new(alloc);
    if let Some(history) = &read.history {
        push_history(&mut text, alloc, keyed, &read.key, history)?;
    }
    Ok(text)
}

/// What is told of two scripts of which the first was read.
fn text_of_two<K: Keyed, S: Source, W: Sink>(
    alloc: Global,
    keyed: &K,
    source: &mut S,
    refusals: &mut W,
    input: &mut Input,
    first: &ReadScript,
) -> Result<String, StopCause>
    requires few { input.old.number + bytes_to_come input.old.pending (S.handed_out source.old) ≤ 2 ^ 63 }
    requires counted { IfSome first.now.history (λ h. IsCountable (Some (epochs_in h))) }
{
    match read_second(alloc, keyed, source, refusals, input) {
        Ok(second) => {
            let ended = text_of_both(alloc, keyed, first, &second);
            drop(second);
            ended
        }
        Err(stop) => Err(stop),
    }
}

/// What is told of two scripts that were read, under the first one's key; nothing where one of them has no setup.
fn text_of_both<K: Keyed>(
    alloc: Global,
    keyed: &K,
    first: &ReadScript,
    second: &ReadScript,
) -> Result<String, StopCause>
    requires counted { IfSome first.now.history (λ h. IsCountable (Some (epochs_in h))) }
    requires counted_too { IfSome second.now.history (λ h. IsCountable (Some (epochs_in h))) }
{
    let mut text = String::new(alloc);
    if let Some(one) = &first.history {
        if let Some(other) = &second.history {
            push_pair(&mut text, alloc, keyed, &first.key, one, other)?;
        }
    }
    Ok(text)
}
