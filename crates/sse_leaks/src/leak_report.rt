ghost use Rattle.std.specs.Prelude.{◌≡◌, ◌≢◌, ◌≤◌, ◌<◌, ◌+◌, ◌++◌, ◌^◌, Ok, Some, IfErr, IfOk, IfSome, OnOk, length, map, string_bytes};
ghost use Rattle.std.specs.Io.KnownBytes.{append_known, IsAtEnd};
ghost use Rattle.client_registry.specs.Epochs.{next_begins};
ghost use Rattle.keyed_fn.specs.KeyedFn.{keyed_fn};
ghost use Rattle.leakage_history.specs.HashedEpochs.{epochs_in};
ghost use Rattle.script_history.specs.Reads.{IsCountable};
ghost use Rattle.script_history.specs.Endings.{StopsTelling, ending, seen_of, stop_for};
ghost use Rattle.script_history.specs.Turns.{reading_end};
ghost use Rattle.leakage_texts.specs.LeakTexts.{text_of_leak};
ghost use Rattle.script_run_texts.specs.Causes.{KeepsSink, KeepsSource, SourceCause};
ghost use Rattle.script_run_texts.specs.Stops.{stop_cause};
ghost use Rattle.leakage_frames.specs.Views.{leak_view};
ghost use Rattle.sse_leaks.specs.LeakReport.{GoesOn, HasPrintedLeaks, IsPrintedSo, history_lines, leak_lines};
ghost use Rattle.sse_outside.specs.Causes.{Rose};

use keyed_fn::Keyed;
use leakage_frames::Leak;
use leakage_history::Epochs;
use leakage_model::leak_epochs;
use leakage_texts::leak_line;
use script_history::{ReadScript, read_history};
use script_run_texts::{Input, InputStop, StopCause, finish};
use sse_outside::{Sink, Source, print_all};
use std::alloc::{AllocError, Global};

// Promise P28 (user): `sse_leaks` prints a script's refusals and then the leakage of each command of its history.
//   clauses: tells, at_end, source_failed, source_steady, sink_failed, sink_steady; assumes: observable devices, no device fault, enough memory; checks: .ci/leakage; not: Standard input
//     and output, which aren't observable. If the run stops, only a prefix of the lines is printed.
/// Reads a script, prints its refusals as a run prints them, then for each command of its history, renewals of the key included, a
/// line of what it leaks, and answers the status: 0, or 1 where a command was refused. The keyed function only hashes words and
/// identifiers, and marks keys.
///
/// A stop prints its last line: `stopped: line N` and 2 at the first bad line, and behind the last line where no setup was accepted; `stopped: source` and 3, nothing and 4 where the sink failed, `stopped: memory` and 7.
pub(crate) fn leaks_run<K: Keyed, S: Source, W: Sink>(
    alloc: Global,
    keyed: &K,
    source: &mut S,
    sink: &mut W,
) -> u8
    ensures tells { IfSome (S.remaining source.old) (λ bytes.
        HasPrintedLeaks (keyed_fn K.prf K.pad) bytes (seen_of (W.written sink.old) (W.faults sink.old) (W.shortages sink.old)) (seen_of (W.written sink.new) (W.faults sink.new) (W.shortages sink.new)) result) }
    ensures at_end { result ≤ 1 → IsAtEnd (S.remaining source.new) }
    ensures source_failed { result ≡ 3 → Rose (S.faults source.old) (S.faults source.new) }
    ensures source_steady { result ≢ 3 → S.faults source.new ≡ S.faults source.old }
    ensures sink_failed { result ≡ 4 → Rose (W.faults sink.old) (W.faults sink.new) }
    ensures sink_steady { result ≤ 1 → W.faults sink.new ≡ W.faults sink.old }
{
    match tell_script(alloc, keyed, source, sink) {
        Ok(false) => 0,
        Ok(true) => 1,
        Err(stop) => finish(sink, stop),
    }
}

/// The same up to the last line: whether a command was refused.
fn tell_script<K: Keyed, S: Source, W: Sink>(
    alloc: Global,
    keyed: &K,
    source: &mut S,
    sink: &mut W,
) -> Result<bool, StopCause>
    ensures tells { IfSome (S.remaining source.old) (λ bytes. IsPrintedSo (keyed_fn K.prf K.pad) bytes (W.written sink.old) (W.written sink.new) (ending result)) }
    ensures at_end { OnOk result (IsAtEnd (S.remaining source.new)) }
    ensures source { KeepsSource SourceCause (S.faults source.old) (S.faults source.new) result }
    ensures sink { KeepsSink (W.faults sink.old) (W.faults sink.new) (W.shortages sink.old) (W.shortages sink.new) result }
{
    let mut input = Input::new(alloc)?;
    match read_history(alloc, keyed, source, sink, &mut input) {
        Ok(read) => tell_read(alloc, sink, read),
        Err(stop) => Err(stop),
    }
}

/// Tells what the history of a script that was read leaks.
fn tell_read<W: Sink>(alloc: Global, sink: &mut W, read: ReadScript) -> Result<bool, StopCause>
    requires counted { IfSome read.history (λ h. IsCountable (Some (epochs_in h))) }
    ensures goes_on { GoesOn (reading_end (Ok read)) (W.written sink.old) (W.written sink.new) (ending result) }
    ensures sink { KeepsSink (W.faults sink.old) (W.faults sink.new) (W.shortages sink.old) (W.shortages sink.new) result }
{
    let ReadScript {
        history,
        refused,
        next,
        ..
    } = read;
    match history {
        Some(epochs) => match print_leaks(alloc, sink, &epochs) {
            Ok(()) => Ok(refused),
            Err(stop) => Err(stop),
        },
        None => Err(StopCause::Input(InputStop::Line(next))),
    }
}

/// Prints a line of what each command of a history leaks.
fn print_leaks<W: Sink>(alloc: Global, sink: &mut W, epochs: &Epochs) -> Result<(), StopCause>
    requires { (next_begins (epochs_in epochs.now)).command < 2 ^ 32 }
    ensures all { OnOk result (W.written sink.new ≡ append_known (W.written sink.old) (history_lines (epochs_in epochs.now))) }
    ensures stops { IfErr result (λ stop. StopsTelling (history_lines (epochs_in epochs.now)) (W.written sink.old) (W.written sink.new) (stop_for (stop_cause stop))) }
    ensures sink { KeepsSink (W.faults sink.old) (W.faults sink.new) (W.shortages sink.old) (W.shortages sink.new) result }
{
    let text = leaks_text(alloc, epochs)?;
    print_all(sink, text.as_bytes())?;
    Ok(())
}

/// The lines of what each command of a history leaks.
fn leaks_text(alloc: Global, epochs: &Epochs) -> Result<String, AllocError>
    requires { (next_begins (epochs_in epochs.now)).command < 2 ^ 32 }
    ensures { IfOk result (λ text. string_bytes text ≡ history_lines (epochs_in epochs.now)) }
{
    let leaks = leak_epochs(alloc, epochs)?;
    lines_of(alloc, leaks.as_slice())
}

/// The line of each of these, numbered from 0.
fn lines_of(alloc: Global, leaks: &[Leak]) -> Result<String, AllocError>
    requires { length leaks.now < 2 ^ 32 }
    ensures { IfOk result (λ text. string_bytes text ≡ leak_lines (map leak_view leaks.now)) }
{
    let mut text = String::new(alloc);
    for command in 0..leaks.len() {
        let leak = &leaks[command];
        push_line(alloc, &mut text, command as u32, leak)?;
    }
    Ok(text)
}

/// Puts the line of what a command leaks at the end of the text.
fn push_line(alloc: Global, text: &mut String, command: u32, leak: &Leak) -> Result<(), AllocError>
    ensures { OnOk result (string_bytes text.new ≡ string_bytes text.old ++ text_of_leak command (leak_view leak.now)) }
{
    let line = leak_line(alloc, command, leak)?;
    text.push_str(line.as_str())
}
