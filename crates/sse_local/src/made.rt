ghost use Rattle.std.specs.Prelude.{◌≡◌, ◌≢◌, ◌≤◌, ◌⊎◌, ◌-◌, ℕ, true, List, [], length, slice_get, IfOk, IfSome, Some};
ghost use Rattle.script_history.specs.Endings.{seen_of};
ghost use Rattle.keyed_fn.specs.KeyedFn.{keyed_fn};
ghost use Rattle.script_made_lines.specs.Script.{made_text};
ghost use Rattle.sse_client.specs.InProcess.{PrintsAsMeant};
ghost use Rattle.sse_local.specs.Made.{HasMadeRun, IsMadeStatus, IsStopLine, LacksMemory, PrintsSummaryAsMeant, RunsMade, Tells};
ghost use Rattle.sse_outside.specs.Fronts.{TookOrRose};

use keyed_fn::Keyed;
use script_made_lines::{Made, MadeScript, print_summary};
use script_run_texts::{StopCause, finish};
use sse_client::run_in_process;
use sse_outside::{Sink, SteadySink, print_all};
use std::alloc::{AllocError, Global};

/// A run that printed into memory.
#[derive(Drop)]
struct KeptRun {
    status: u8,
    printed: SteadySink,
}

// Promise P08, also here; clauses: sums, headline, status
/// Carries out a made script as any script, but prints one line of it: the summary of what the run printed. Where the run stopped, the
/// line that says why is printed in its place, and the run's status is answered.
///
/// No line of a made script is refused, so the status is 0 unless the sink failed (4), memory was wanting (7, and `stopped: memory`),
/// or two values are equal that have to differ (8, or 9 where a reply shows it).
pub(crate) fn made_run<K: Keyed + Copy, W: Sink>(
    alloc: Global,
    keyed: &K,
    made: Made,
    sink: &mut W,
) -> u8
    requires few { made.documents ≤ 10000 }
    ensures sums { HasMadeRun (keyed_fn K.prf K.pad) made.seed made.documents (seen_of (W.written sink.old) (W.faults sink.old) (W.shortages sink.old)) (seen_of (W.written sink.new) (W.faults sink.new) (W.shortages sink.new)) result }
    ensures headline { result ≢ 4 → result ≢ 7 → PrintsSummaryAsMeant (keyed_fn K.prf K.pad) made.seed made.documents (W.written sink.old) (W.written sink.new) result }
    ensures status { IsMadeStatus result (W.faults sink.old) (W.faults sink.new) }
{
    match kept_run(alloc, keyed, made) {
        Ok(run) => tell(sink, made.documents, &run),
        Err(AllocError) => finish(sink, StopCause::Memory),
    }
}

/// The run. It comes to the end of its script with nothing refused, or memory was wanting or two values are equal.
fn kept_run<K: Keyed + Copy>(alloc: Global, keyed: &K, made: Made) -> Result<KeptRun, AllocError>
    requires few { made.documents ≤ 10000 }
    ensures runs { IfOk result (λ run. RunsMade (keyed_fn K.prf K.pad) made.seed made.documents (⟦<SteadySink as Sink>⟧.written run.printed) run.status) }
    ensures headline { IfOk result (λ run. run.status ≢ 7 → PrintsAsMeant (keyed_fn K.prf K.pad) (made_text made.seed made.documents) (Some []) (⟦<SteadySink as Sink>⟧.written run.printed) run.status) }
    ensures known { IfOk result (λ run. (run.status ≡ 0) ⊎ ((7 ≤ run.status) × (run.status ≤ 9))) }
{
    let words = vec![in alloc; String::from_str(alloc, "run")?]?;
    let mut script = MadeScript::new(made.seed, made.documents);
    let mut printed = SteadySink::new(alloc);
    let status = run_in_process(alloc, words.as_slice(), keyed, &mut script, &mut printed);
    Ok(KeptRun { status, printed })
}

/// Prints the line that tells of a run of the made script for so many documents, and answers the status to end with.
fn tell<W: Sink>(sink: &mut W, documents: u32, run: &KeptRun) -> u8
    requires known { (run.now.status ≡ 0) ⊎ ((7 ≤ run.now.status) × (run.now.status ≤ 9)) }
    ensures tells { (text : List ℕ) → ⟦<SteadySink as Sink>⟧.written run.now.printed ≡ Some text →
        Tells documents text run.now.status (seen_of (W.written sink.old) (W.faults sink.old) (W.shortages sink.old)) (seen_of (W.written sink.new) (W.faults sink.new) (W.shortages sink.new)) result
        ⊎ LacksMemory (seen_of (W.written sink.old) (W.faults sink.old) (W.shortages sink.old)) (seen_of (W.written sink.new) (W.faults sink.new) (W.shortages sink.new)) result }
    ensures status { IsMadeStatus result (W.faults sink.old) (W.faults sink.new) }
{
    if run.status == 0 {
        match print_summary(sink, documents, run.printed.bytes()) {
            Ok(()) => 0,
            Err(fault) => finish(sink, StopCause::from(fault)),
        }
    } else {
        match stop_line(run.printed.bytes()) {
            Some(line) => tell_stop(sink, line, run.status),
            None => finish(sink, StopCause::Memory),
        }
    }
}

/// Prints that line of a run that stopped with this status. As of every run, the status stands whether the line is taken or not.
fn tell_stop<W: Sink>(sink: &mut W, line: &[u8], status: u8) -> u8
    ensures status { result ≡ status }
    ensures line { TookOrRose (W.written sink.old) (W.written sink.new) line.now (W.faults sink.old) (W.faults sink.new) (W.shortages sink.old) (W.shortages sink.new) }
{
    let _ = print_all(sink, line);
    status
}

/// The line of a printed text that says why a run stopped, its end included; none where memory was wanting for all of it.
fn stop_line(text: &[u8]) -> Option<&[u8]>
    ensures { IfSome result (λ line. IsStopLine line.now text.now) }
{
    if !text.ends_with(b"\n") {
        return None;
    }
    for start in 0..text.len() {
        if begins_line(text, start) && text[start..].starts_with(b"stopped: ") {
            return Some(&text[start..]);
        }
    }
    None
}

/// Whether a line of the text begins at this place: the first does, and so does one behind the end of another.
fn begins_line(text: &[u8], start: usize) -> bool
    requires { start ≤ length text.now }
    ensures { result ≡ true → (start ≡ 0) ⊎ (slice_get text.now (start - 1) ≡ Some 10) }
{
    start == 0 || text[start - 1] == b'\n'
}
