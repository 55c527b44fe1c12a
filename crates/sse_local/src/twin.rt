ghost use Rattle.std.specs.Prelude.{◌≡◌, ◌≢◌, ◌≤◌, ◌⊎◌, ◌+◌, ◌^◌, ℕ, List, None, Ok, Option, Some, IfErr, IfOk, IfSome, OnErr, OnOk, ◌||◌, true};
ghost use Rattle.std.specs.Io.KnownBytes.{IsAtEnd};
ghost use Rattle.leakage_history.specs.HashedEpochs.{epochs_in};
ghost use Rattle.script_history.specs.Endings.{ending, seen_of};
ghost use Rattle.script_history.specs.Reads.{IsCountable};
ghost use Rattle.script_history.specs.Turns.{IsElsewhere, first_end, reading_end};
ghost use Rattle.keyed_fn.specs.KeyedFn.{keyed_fn};
ghost use Rattle.script_run_texts.specs.Causes.{KeepsSink, KeepsSource, SourceCause};
ghost use Rattle.def_script_meaning.specs.Stops.{At};
ghost use Rattle.client_journal.specs.Shows.{gives, prints};
ghost use Rattle.sse_local.specs.Compared.{AreBehind, AreComparedSo, GoesOnBehind, GoesOnFirst, HasCompared, IsCompared, ReadsBehind};
ghost use Rattle.sse_local.specs.Program.{TellsStreams};
ghost use Rattle.sse_script.specs.Shown.{NoMemory};
ghost use Rattle.sse_script.specs.TextLines.{bytes_to_come, lines_left, lines_of};

use crate::comparison::compare;
use keyed_fn::Keyed;
use leakage_history::Epochs;
use script_history::{FirstScript, ReadScript, read_first, read_second};
use script_run_texts::{Input, InputStop, StopCause, finish};
use sse_outside::{Sink, Source, print_all};
use std::alloc::Global;
use word_keys::MasterKey;

/// The first of two scripts, where it has a setup and another script follows.
#[derive(Drop)]
struct Parted {
    key: MasterKey,
    epochs: Epochs,
    refused: bool,
}

// Promise P29 (user): With `twin` the program compares two scripts by their leakage: the counts of the second, or the first command that leaks otherwise.
//   clauses: compares, streams, known; fields: TellsStreams.at_end, TellsStreams.source_failed, TellsStreams.source_steady, TellsStreams.sink_failed, TellsStreams.sink_steady; assumes: observable devices, no device fault, enough memory; checks: .ci/twin; not: That histories
//     with different leakage can be told apart. Standard input and output, which aren't observable.
/// Compares two scripts with a line `twin` between them: prints their refusals as a run prints them, then whether the two histories
/// look the same to a server, and answers the status: 0 where they do, or 1 where they don't or a command was refused. The first
/// script's keys give the values; the second one's only hash, and none of them is refused for being used before.
///
/// A stop prints its last line: `stopped: line N` and 2 at the first bad line, and behind the last line of a script
/// that lacks an accepted setup, or of the first where no line `twin` follows; `stopped: source` and 3, nothing and 4 where the sink failed,
/// `stopped: memory` and 7.
pub(crate) fn twin_run<K: Keyed, S: Source, W: Sink>(
    alloc: Global,
    keyed: &K,
    source: &mut S,
    sink: &mut W,
) -> u8
    ensures compares { IfSome (S.remaining source.old) (λ bytes.
        HasCompared (keyed_fn K.prf K.pad) bytes (seen_of (W.written sink.old) (W.faults sink.old) (W.shortages sink.old)) (seen_of (W.written sink.new) (W.faults sink.new) (W.shortages sink.new)) result) }
    ensures streams { TellsStreams (IsAtEnd (S.remaining source.new)) (gives (S.remaining source.old) (S.faults source.old)) (gives (S.remaining source.new) (S.faults source.new))
        (prints (W.written sink.old) (W.faults sink.old) (W.shortages sink.old)) (prints (W.written sink.new) (W.faults sink.new) (W.shortages sink.new)) result }
    ensures known { result ≤ 9 }
{
    match compare_scripts(alloc, keyed, source, sink) {
        Ok(false) => 0,
        Ok(true) => 1,
        Err(stop) => finish(sink, stop),
    }
}

/// The same up to the last line: whether a command was refused, or the histories differ.
fn compare_scripts<K: Keyed, S: Source, W: Sink>(
    alloc: Global,
    keyed: &K,
    source: &mut S,
    sink: &mut W,
) -> Result<bool, StopCause>
    ensures compared { IfSome (S.remaining source.old) (λ bytes. AreComparedSo (keyed_fn K.prf K.pad) (lines_of bytes) (W.written sink.old) (W.written sink.new) (ending result)) }
    ensures at_end { OnOk result (IsAtEnd (S.remaining source.new)) }
    ensures source { KeepsSource SourceCause (S.faults source.old) (S.faults source.new) result }
    ensures sink { KeepsSink (W.faults sink.old) (W.faults sink.new) (W.shortages sink.old) (W.shortages sink.new) result }
{
    let mut input = Input::new(alloc)?;
    match read_first(alloc, keyed, source, sink, &mut input) {
        Ok(first) => behind_first(alloc, keyed, source, sink, &mut input, first),
        Err(stop) => Err(stop),
    }
}

/// Goes on behind the first script.
fn behind_first<K: Keyed, S: Source, W: Sink>(
    alloc: Global,
    keyed: &K,
    source: &mut S,
    sink: &mut W,
    input: &mut Input,
    first: FirstScript,
) -> Result<bool, StopCause>
    requires few { first.at_twin ≡ true → input.old.number + bytes_to_come input.old.pending (S.handed_out source.old) ≤ 2 ^ 63 }
    requires numbered { first.script.next ≡ input.old.number }
    requires counted { IfSome first.script.history (λ h. IsCountable (Some (epochs_in h))) }
    ensures goes_on { (behind : Option (List (List ℕ))) → AreBehind first.at_twin behind (lines_left input.old.pending (S.remaining source.old)) →
        GoesOnFirst (keyed_fn K.prf K.pad) behind (first_end (Ok first)) (W.written sink.old) (W.written sink.new) (ending result) }
    ensures at_end { OnOk result (IsAtEnd (S.remaining source.new)) }
    ensures source { KeepsSource SourceCause (S.faults source.old) (S.faults source.new) result }
    ensures sink { KeepsSink (W.faults sink.old) (W.faults sink.new) (W.shortages sink.old) (W.shortages sink.new) result }
{
    match first_of_two(first) {
        Ok(first) => compare_second(alloc, keyed, source, sink, input, first),
        Err(stop) => Err(StopCause::Input(stop)),
    }
}

/// The first script, where a setup and a line `twin` were there.
fn first_of_two(first: FirstScript) -> Result<Parted, InputStop>
    ensures twin { OnOk result (first.at_twin ≡ true) }
    ensures key { IfOk result (λ one. first.script.key ≡ one.key) }
    ensures history { IfOk result (λ one. first.script.history ≡ Some one.epochs) }
    ensures refused { IfOk result (λ one. first.script.refused ≡ one.refused) }
    ensures line { IfErr result (λ stop. stop ≡ InputStop.Line first.script.next) }
    ensures without { OnErr result (first.at_twin ≡ true → first.script.history ≡ None) }
{
    let FirstScript { script, at_twin } = first;
    let ReadScript {
        key,
        history,
        refused,
        next,
    } = script;
    match history {
        Some(epochs) if at_twin => Ok(Parted {
            key,
            epochs,
            refused,
        }),
        _ => Err(InputStop::Line(next)),
    }
}

/// Reads the second script, and compares what the two leak.
fn compare_second<K: Keyed, S: Source, W: Sink>(
    alloc: Global,
    keyed: &K,
    source: &mut S,
    sink: &mut W,
    input: &mut Input,
    first: Parted,
) -> Result<bool, StopCause>
    requires few { input.old.number + bytes_to_come input.old.pending (S.handed_out source.old) ≤ 2 ^ 63 }
    requires counted { IsCountable (Some (epochs_in first.epochs)) }
    ensures goes_on { IfSome (lines_left input.old.pending (S.remaining source.old)) (λ lines. ReadsBehind (keyed_fn K.prf K.pad) first.key (epochs_in first.epochs) first.refused input.old.number lines (W.written sink.old) (W.written sink.new) (ending result)) }
    ensures at_end { OnOk result (IsAtEnd (S.remaining source.new)) }
    ensures source { KeepsSource SourceCause (S.faults source.old) (S.faults source.new) result }
    ensures sink { KeepsSink (W.faults sink.old) (W.faults sink.new) (W.shortages sink.old) (W.shortages sink.new) result }
{
    match read_second(alloc, keyed, source, sink, input) {
        Ok(second) => compare_read(alloc, keyed, sink, &first, second),
        Err(stop) => Err(stop),
    }
}

/// Compares what the histories of two scripts leak that were read.
fn compare_read<K: Keyed, W: Sink>(
    alloc: Global,
    keyed: &K,
    sink: &mut W,
    first: &Parted,
    second: ReadScript,
) -> Result<bool, StopCause>
    requires counted { IsCountable (Some (epochs_in first.now.epochs)) }
    requires counted_too { IfSome second.history (λ h. IsCountable (Some (epochs_in h))) }
    ensures goes_on { GoesOnBehind (keyed_fn K.prf K.pad) first.now.key (epochs_in first.now.epochs) first.now.refused (reading_end (Ok second)) (W.written sink.old) (W.written sink.new) (ending result) }
    ensures sink { KeepsSink (W.faults sink.old) (W.faults sink.new) (W.shortages sink.old) (W.shortages sink.new) result }
    ensures elsewhere { IfErr result IsElsewhere }
{
    let ReadScript {
        history,
        refused,
        next,
        ..
    } = second;
    match history {
        Some(other) => print_comparison(alloc, keyed, sink, first, &other, refused),
        None => Err(StopCause::Input(InputStop::Line(next))),
    }
}

/// Prints what comes of comparing two histories; whether a command was refused in either script, or they differ.
fn print_comparison<K: Keyed, W: Sink>(
    alloc: Global,
    keyed: &K,
    sink: &mut W,
    first: &Parted,
    other: &Epochs,
    refused: bool,
) -> Result<bool, StopCause>
    requires counted { IsCountable (Some (epochs_in first.now.epochs)) }
    requires counted_too { IsCountable (Some (epochs_in other.now)) }
    ensures compares { IsCompared (keyed_fn K.prf K.pad) first.now.key (epochs_in first.now.epochs) (epochs_in other.now) (first.now.refused || refused) (W.written sink.old) (W.written sink.new) (ending result)
        ⊎ ((W.written sink.new ≡ W.written sink.old) × (ending result ≡ At NoMemory)) }
    ensures sink { KeepsSink (W.faults sink.old) (W.faults sink.new) (W.shortages sink.old) (W.shortages sink.new) result }
    ensures elsewhere { IfErr result IsElsewhere }
{
    let compared = compare(alloc, keyed, &first.key, &first.epochs, other)?;
    let line = compared.line(alloc)?;
    print_all(sink, line.as_bytes())?;
    Ok(first.refused || refused || compared.differs())
}
