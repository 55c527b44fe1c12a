ghost use Rattle.std.specs.Prelude.{map, string_bytes};
ghost use Rattle.keyed_fn.specs.KeyedFn.{keyed_fn};
ghost use Rattle.program_words.specs.Modes as modes;
ghost use Rattle.client_journal.specs.Shows.{gives, prints};
ghost use Rattle.sse_local.specs.Asked.{asked_by, right_words};
ghost use Rattle.sse_local.specs.Program.{Does, IsReadFor, MayEndWith, TellsStreams};

use crate::made::made_run;
use crate::twin::twin_run;
use keyed_fn::{Keyed, Real};
use outside_words::{CommandLine, behind_name};
use program_words::{LocalMode, local_mode_of};
use script_made_lines::Made;
use script_run_texts::{StopCause, finish};
use sse_client::run_in_process;
use sse_outside::{Sink, Source};
use std::alloc::{AllocError, Global};

// Promise P06 (user): Over an observable source, `sse_local run` prints its script's lines and ends with its status, under HMAC-SHA-256 and ChaCha20; both files say what was done.
//   clauses: does; fields: RunsInProcess.run, RunsInProcess.both; assumes: observable devices, no collision, no device fault, enough memory; checks: .ci/end_to_end, .ci/random_scripts, .ci/long_scripts,
//     .ci/memory; not: Standard input and output: they aren't observable, so of the shipped program the clauses say the status and the counts of faults (P10), not the lines.
// Promise P07 (user): The local program ends with 2 after unknown words, or with 7 without memory for its words; it reads nothing and prints only that cause.
//   clauses: does, status; fields: EndsUnread.unread, EndsUnread.status_is, EndsUnread.line; checks: .ci/end_to_end; not: That `main` passes the command line and ends
//     with this status. Of the line a prefix may be printed if a fault or shortage count of the sink rose. Right words too end with 7 if there is no memory to read them in.
// Promise P08 (user): With `gen SEED N` the program runs a made script and prints one line: the summary, or why the run stopped.
//   clauses: does, status; fields: RunsMadeScript.unread, RunsMadeScript.sums_up, RunsMadeScript.summary; assumes: no collision, no device fault, enough memory, observable devices; checks:
//     .ci/end_to_end; not: If a run stopped, the line is only known to be the end of the run's output that begins with `stopped: `. Standard output isn't observable: of it only the
//     status and the counts of faults are claimed.
// Promise P09, also here; clauses: does, streams
// Promise P10, also here; clauses: streams, status; fields: TellsStreams.at_end, TellsStreams.source_failed, TellsStreams.source_steady, TellsStreams.sink_failed, TellsStreams.sink_steady,
//     TellsStreams.line
// Promise P29, also here; clauses: does
/// All that the program does with a command line, a source and a sink, and the status to end with: it runs the script of the source, finds no
/// journal to go on from, compares two scripts, or sums up a run of a made script, under the real keyed function.
///
/// Where the words aren't right nothing is read. Words, right or wrong, end with `stopped: memory` and 7 where there is no memory to read them in.
pub(crate) fn run_program<S: Source, W: Sink>(
    alloc: Global,
    given: &CommandLine,
    source: &mut S,
    sink: &mut W,
) -> u8
    ensures does { Does (keyed_fn ⟦<Real as Keyed>⟧.prf ⟦<Real as Keyed>⟧.pad) (asked_by given.now) (S.remaining source.old) source.old source.new
        (prints (W.written sink.old) (W.faults sink.old) (W.shortages sink.old)) (prints (W.written sink.new) (W.faults sink.new) (W.shortages sink.new)) result }
    ensures streams { TellsStreams (IsReadFor (asked_by given.now) (S.remaining source.new)) (gives (S.remaining source.old) (S.faults source.old)) (gives (S.remaining source.new) (S.faults source.new))
        (prints (W.written sink.old) (W.faults sink.old) (W.shortages sink.old)) (prints (W.written sink.new) (W.faults sink.new) (W.shortages sink.new)) result }
    ensures status { MayEndWith (asked_by given.now) result }
{
    match given {
        CommandLine::Words(words) => by_words(alloc, &Real, behind_name(words), source, sink),
        CommandLine::NoText => finish(sink, StopCause::Words),
        CommandLine::NoMemory => finish(sink, StopCause::Memory),
    }
}

/// The same by the words after the program's name.
fn by_words<K: Keyed + Copy, S: Source, W: Sink>(
    alloc: Global,
    keyed: &K,
    words: &[String],
    source: &mut S,
    sink: &mut W,
) -> u8
    ensures does { Does (keyed_fn K.prf K.pad) (right_words (modes.local_mode_of (map (λ word. string_bytes word) words.now))) (S.remaining source.old) source.old source.new
        (prints (W.written sink.old) (W.faults sink.old) (W.shortages sink.old)) (prints (W.written sink.new) (W.faults sink.new) (W.shortages sink.new)) result }
    ensures streams { TellsStreams (IsReadFor (right_words (modes.local_mode_of (map (λ word. string_bytes word) words.now))) (S.remaining source.new))
        (gives (S.remaining source.old) (S.faults source.old)) (gives (S.remaining source.new) (S.faults source.new))
        (prints (W.written sink.old) (W.faults sink.old) (W.shortages sink.old)) (prints (W.written sink.new) (W.faults sink.new) (W.shortages sink.new)) result }
    ensures status { MayEndWith (right_words (modes.local_mode_of (map (λ word. string_bytes word) words.now))) result }
{
    match local_mode_of(alloc, words) {
        Ok(Some(LocalMode::Script(_))) => run_in_process(alloc, words, keyed, source, sink),
        Ok(Some(LocalMode::Twin)) => twin_run(alloc, keyed, source, sink),
        Ok(Some(LocalMode::Made(seed, documents))) => {
            made_run(alloc, keyed, Made { seed, documents }, sink)
        }
        Ok(None) => finish(sink, StopCause::Words),
        Err(AllocError) => finish(sink, StopCause::Memory),
    }
}
