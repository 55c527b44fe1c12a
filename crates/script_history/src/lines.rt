ghost use Rattle.std.specs.Prelude.{◌≡◌, ◌≤◌, ◌<◌, ◌+◌, ◌^◌, ◌||◌, ◌∷◌, ℕ, List, Option, Some, Err, IfErr, IfOk, OnOk, is_some, option_map, true};
ghost use Rattle.std.specs.Io.KnownBytes.{append_known};
ghost use Rattle.client_registry.specs.HashNumbers.{hash_numbers};
ghost use Rattle.script_run_texts.specs.Causes.{KeepsSink, KeepsSource, SourceCause};
ghost use Rattle.script_run_texts.specs.LineWords.{words_in};
ghost use Rattle.script_run_texts.specs.Stops.{stop_cause};
ghost use Rattle.script_run_texts.specs.Twins.{is_twin_line};
ghost use Rattle.def_script_meaning.specs.Lines as requests;
ghost use Rattle.def_script_meaning.specs.Lines.{Request, line_in, line_read};
ghost use Rattle.keyed_fn.specs.KeyedFn.{keyed_fn};
ghost use Rattle.def_script_meaning.specs.Outcome.{Place};
ghost use Rattle.sse_script.specs.TextLines.{bytes_to_come, lines_left};
ghost use Rattle.sse_script.specs.Views.{line_view};
ghost use Rattle.script_history.specs.Reads.{refused_text, Stopped, StopsPrinting};
ghost use Rattle.script_history.specs.Stages.{Stands, keys_at};
ghost use Rattle.script_history.specs.Turns.{ComesThrough, HasAdvanced, IsElsewhere, IsTurnAt, LeadsOn, LeadsTo, OnLine, PartsOn, ReadsOn, end_at, moment, stage_after};
ghost use Rattle.script_history.specs.TwoScripts.{EndsPart, first_left};

use crate::stage::Standing;
use crate::taken_line::take_line;
use client_registry::HashKeys;
use keyed_fn::Keyed;
use script_run_texts::{Input, InputStop, StopCause};
use sse_outside::{Sink, Source};
use sse_script::{Line, Refusal, Shown, print};
use std::alloc::Global;

/// How far a script is read between two of its lines, and whether a command was refused.
#[derive(Drop)]
pub(crate) struct Progress {
    pub(crate) standing: Standing,
    pub(crate) refused: bool,
}

/// Where the lines of a script ended.
#[derive(Drop)]
pub(crate) struct Last {
    pub(crate) progress: Progress,
    /// At a line `twin`, and else at the end of the source.
    pub(crate) at_twin: bool,
}

/// What a turn of the loop over the lines leads to.
#[derive(Drop)]
enum Turn {
    /// One line more was read.
    Next(Progress),
    /// No line of the script was left.
    End(Last),
}

/// Reads the lines after the key line, up to a line `twin` where there is one, and prints the refusals.
pub(crate) fn read_lines<K: Keyed, S: Source, W: Sink>(
    alloc: Global,
    keyed: &K,
    keys: HashKeys,
    source: &mut S,
    sink: &mut W,
    input: &mut Input,
    mut progress: Progress,
) -> Result<Last, StopCause>
    requires few { input.old.number + bytes_to_come input.old.pending (S.handed_out source.old) ≤ 2 ^ 63 }
    ensures reads { (place : Place) → Stands (keyed_fn K.prf K.pad) progress.standing place →
        ReadsOn (moment place (input.old.number + 1) (first_left (lines_left input.old.pending (S.remaining source.old))) progress.refused (W.written sink.old)) (W.written sink.new) (end_at place.key input.new.number result) }
    ensures ended { IfOk result (λ last. EndsPart last.at_twin (lines_left input.old.pending (S.remaining source.old)) (lines_left input.new.pending (S.remaining source.new)) (S.remaining source.new)
        (input.new.number + bytes_to_come input.new.pending (S.handed_out source.new) ≤ 2 ^ 63)) }
    ensures hashed { keys_at progress.standing.stage ≡ hash_numbers keys → IfOk result (λ last. keys_at last.progress.standing.stage ≡ hash_numbers keys) }
    ensures source { KeepsSource SourceCause (S.faults source.old) (S.faults source.new) result }
    ensures sink { KeepsSink (W.faults sink.old) (W.faults sink.new) (W.shortages sink.old) (W.shortages sink.new) result }
{
    'lines: loop {
        match take_turn(alloc, keyed, keys, source, sink, input, progress)? {
            Turn::Next(next) => progress = next,
            Turn::End(last) => return Ok(last),
        }
    }
}

/// Reads the next line and takes it.
fn take_turn<K: Keyed, S: Source, W: Sink>(
    alloc: Global,
    keyed: &K,
    keys: HashKeys,
    source: &mut S,
    sink: &mut W,
    input: &mut Input,
    progress: Progress,
) -> Result<Turn, StopCause>
    requires few { input.old.number + bytes_to_come input.old.pending (S.handed_out source.old) ≤ 2 ^ 63 }
    ensures turns { (place : Place) → Stands (keyed_fn K.prf K.pad) progress.standing place →
        LeadsTo (keyed_fn K.prf K.pad) (moment place (input.old.number + 1) (first_left (lines_left input.old.pending (S.remaining source.old))) progress.refused (W.written sink.old)) input.new.number (first_left (lines_left input.new.pending (S.remaining source.new))) (W.written sink.new) result }
    ensures parts { IfOk result (λ turn. PartsOn turn (lines_left input.old.pending (S.remaining source.old)) (lines_left input.new.pending (S.remaining source.new)) (S.remaining source.new)) }
    ensures advanced { IfOk result (λ turn. OnLine turn (HasAdvanced input.old.number (bytes_to_come input.old.pending (S.handed_out source.old)) input.new.number (bytes_to_come input.new.pending (S.handed_out source.new)))) }
    ensures hashed { keys_at progress.standing.stage ≡ hash_numbers keys → IfOk result (λ turn. keys_at (stage_after turn) ≡ hash_numbers keys) }
    ensures source { KeepsSource SourceCause (S.faults source.old) (S.faults source.new) result }
    ensures sink { KeepsSink (W.faults sink.old) (W.faults sink.new) (W.shortages sink.old) (W.shortages sink.new) result }
{
    match input.advance(source) {
        Ok(true) => turn_at_line(alloc, keyed, keys, sink, input, progress),
        Ok(false) => Ok(Turn::End(Last {
            progress,
            at_twin: false,
        })),
        Err(stop) => not_read(progress, stop),
    }
}

/// Takes the line that was read last, or ends the script at it.
fn turn_at_line<K: Keyed, W: Sink>(
    alloc: Global,
    keyed: &K,
    keys: HashKeys,
    sink: &mut W,
    input: &Input,
    progress: Progress,
) -> Result<Turn, StopCause>
    ensures leads { (place : Place) (behind : Option (List (List ℕ))) → Stands (keyed_fn K.prf K.pad) progress.standing place →
        LeadsTo (keyed_fn K.prf K.pad) (moment place input.now.number (first_left (option_map (λ lines. input.now.line ∷ lines) behind)) progress.refused (W.written sink.old)) input.now.number (first_left behind) (W.written sink.new) result }
    ensures at { IfOk result (IsTurnAt (is_twin_line input.now.line)) }
    ensures hashed { keys_at progress.standing.stage ≡ hash_numbers keys → IfOk result (λ turn. keys_at (stage_after turn) ≡ hash_numbers keys) }
    ensures sink { KeepsSink (W.faults sink.old) (W.faults sink.new) (W.shortages sink.old) (W.shortages sink.new) result }
    ensures elsewhere { IfErr result IsElsewhere }
{
    if input.is_twin() {
        return Ok(Turn::End(Last {
            progress,
            at_twin: true,
        }));
    }
    match take_read(alloc, keyed, keys, sink, input, progress) {
        Ok(next) => Ok(Turn::Next(next)),
        Err(stop) => Err(stop),
    }
}

/// Drops what was read up to here, and stops.
fn not_read(progress: Progress, stop: InputStop) -> Result<Turn, StopCause>
    ensures { result ≡ Err (StopCause.Input stop) }
{
    let _dropped = progress;
    Err(StopCause::Input(stop))
}

/// Takes the line that was read last.
fn take_read<K: Keyed, W: Sink>(
    alloc: Global,
    keyed: &K,
    keys: HashKeys,
    sink: &mut W,
    input: &Input,
    progress: Progress,
) -> Result<Progress, StopCause>
    ensures leads { (place : Place) (behind : Option (List (List ℕ))) → Stands (keyed_fn K.prf K.pad) progress.standing place →
        LeadsOn (keyed_fn K.prf K.pad) (moment place input.now.number (option_map (λ lines. input.now.line ∷ lines) behind) progress.refused (W.written sink.old)) input.now.number behind (W.written sink.new) result }
    ensures hashed { keys_at progress.standing.stage ≡ hash_numbers keys → IfOk result (λ next. keys_at next.standing.stage ≡ hash_numbers keys) }
    ensures sink { KeepsSink (W.faults sink.old) (W.faults sink.new) (W.shortages sink.old) (W.shortages sink.new) result }
    ensures elsewhere { IfErr result IsElsewhere }
{
    match input.line() {
        Ok(line) => take(alloc, keyed, keys, sink, progress, input.number(), line),
        Err(stop) => stopped(progress, StopCause::Input(stop)),
    }
}

/// Takes a line, which has this number.
fn take<K: Keyed, W: Sink>(
    alloc: Global,
    keyed: &K,
    keys: HashKeys,
    sink: &mut W,
    progress: Progress,
    number: u64,
    line: Line<'_>,
) -> Result<Progress, StopCause>
    requires words { words_in (line_view line) ≤ 2 ^ 19 }
    ensures leads { (place : Place) (text : List ℕ) (behind : Option (List (List ℕ))) → Stands (keyed_fn K.prf K.pad) progress.standing place → line_in text ≡ Some (line_read (line_view line.entry)) →
        LeadsOn (keyed_fn K.prf K.pad) (moment place number (option_map (λ lines. text ∷ lines) behind) progress.refused (W.written sink.old)) number behind (W.written sink.new) result }
    ensures hashed { keys_at progress.standing.stage ≡ hash_numbers keys → IfOk result (λ next. keys_at next.standing.stage ≡ hash_numbers keys) }
    ensures sink { KeepsSink (W.faults sink.old) (W.faults sink.new) (W.shortages sink.old) (W.shortages sink.new) result }
    ensures elsewhere { IfErr result IsElsewhere }
{
    match line {
        Line::Empty => Ok(progress),
        Line::Key(_) => stopped(progress, StopCause::Input(InputStop::Line(number))),
        line => take_command(alloc, keyed, keys, sink, progress, line),
    }
}

/// Drops what was read up to here, and stops.
fn stopped(progress: Progress, stop: StopCause) -> Result<Progress, StopCause>
    ensures { result ≡ Err stop }
{
    let _dropped = progress;
    Err(stop)
}

/// Takes a line that is neither empty nor a key line.
fn take_command<K: Keyed, W: Sink>(
    alloc: Global,
    keyed: &K,
    keys: HashKeys,
    sink: &mut W,
    progress: Progress,
    line: Line<'_>,
) -> Result<Progress, StopCause>
    requires words { words_in (line_view line) ≤ 2 ^ 19 }
    ensures comes { (request : Request) → line_read (line_view line.entry) ≡ requests.Command request → (place : Place) → Stands (keyed_fn K.prf K.pad) progress.standing place →
        ComesThrough (keyed_fn K.prf K.pad) place request progress.refused (W.written sink.old) (W.written sink.new) result }
    ensures hashed { keys_at progress.standing.stage ≡ hash_numbers keys → IfOk result (λ next. keys_at next.standing.stage ≡ hash_numbers keys) }
    ensures sink { KeepsSink (W.faults sink.old) (W.faults sink.new) (W.shortages sink.old) (W.shortages sink.new) result }
    ensures elsewhere { IfErr result IsElsewhere }
{
    let Progress { standing, refused } = progress;
    match take_line(alloc, keyed, keys, standing, line) {
        Ok((standing, found)) => tell(alloc, sink, Progress { standing, refused }, found),
        Err(_) => Err(StopCause::Memory),
    }
}

/// Prints the refusal that was found, if one was.
fn tell<W: Sink>(
    alloc: Global,
    sink: &mut W,
    progress: Progress,
    found: Option<Refusal>,
) -> Result<Progress, StopCause>
    ensures standing { IfOk result (λ next. next.standing ≡ progress.standing) }
    ensures refused { IfOk result (λ next. next.refused ≡ progress.refused || is_some found) }
    ensures printed { OnOk result (W.written sink.new ≡ append_known (W.written sink.old) (refused_text found)) }
    ensures stops { IfErr result (λ stop. StopsPrinting (refused_text found) (W.written sink.old) (W.written sink.new) (Stopped (stop_cause stop))) }
    ensures sink { KeepsSink (W.faults sink.old) (W.faults sink.new) (W.shortages sink.old) (W.shortages sink.new) result }
    ensures elsewhere { IfErr result IsElsewhere }
{
    let Some(refusal) = found else {
        return Ok(progress);
    };
    match print(alloc, sink, &Shown::Refused(refusal)) {
        Ok(()) => Ok(noted(progress)),
        Err(fault) => stopped(progress, StopCause::from(fault)),
    }
}

/// The same, with a command refused.
fn noted(progress: Progress) -> Progress
    ensures standing { result.standing ≡ progress.standing }
    ensures refused { result.refused ≡ true }
{
    Progress {
        standing: progress.standing,
        refused: true,
    }
}
