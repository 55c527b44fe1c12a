ghost use Rattle.std.specs.Prelude.{◌≡◌, ◌≤◌, ◌+◌, ◌^◌, ℕ, List, None, Option, Some, IfErr, IfOk, IfSome, OnOk, false};
ghost use Rattle.std.specs.Io.KnownBytes.{IsAtEnd};
ghost use Rattle.client_registry.specs.HashNumbers.{hash_numbers};
ghost use Rattle.keyed_fn.specs.KeyFormulas.{mark_of, plain_key};
ghost use Rattle.keyed_fn.specs.KeyedFn.{keyed_fn};
ghost use Rattle.leakage_history.specs.HashedEpochs.{epochs_in};
ghost use Rattle.script_run_texts.specs.Causes.{InputCause, KeepsSink, KeepsSource, SourceCause};
ghost use Rattle.script_run_texts.specs.Stops.{input_cause};
ghost use Rattle.def_script_meaning.specs.Outcome.{opened};
ghost use Rattle.sse_script.specs.TextLines.{bytes_to_come, lines_left};
ghost use Rattle.script_history.specs.Reads.{IsCountable, ReadEnd, ReadsFirstFrom, ReadsFrom, Stopped};
ghost use Rattle.script_history.specs.Stages.{Stands, keys_at};
ghost use Rattle.script_history.specs.Turns.{first_end, hashed_at, reading_end};
ghost use Rattle.script_history.specs.TwoScripts.{EndsPart, behind_left, first_left};
ghost use Rattle.script_history.specs.UsedKeys.{mark_when};
ghost use Rattle.word_keys.specs.HashNumbers.{numbers_of_key};

use crate::lines::{Last, Progress, read_lines};
use crate::stage::{Stage, Standing};
use crate::used_keys::UsedKeys;
use client_registry::{Docs, HashKeys};
use keyed_fn::Keyed;
use leakage_history::Epochs;
use script_run_texts::{Input, InputStop, StopCause};
use sse_outside::{Sink, Source};
use sse_script::Line;
use std::alloc::{AllocError, Global};
use word_keys::MasterKey;

/// A script that was read to its end.
#[derive(Drop)]
pub struct ReadScript {
    /// Its key.
    pub key: MasterKey,
    /// Its history; none where no setup was accepted.
    pub history: Option<Epochs>,
    /// Whether a command was refused.
    pub refused: bool,
    /// The number that one more line would have, from 1.
    pub next: u64,
}

/// The first of two scripts, which ends at a line `twin`.
#[derive(Drop)]
pub struct FirstScript {
    /// What was read of it; with no line `twin` up to the end of the source.
    pub script: ReadScript,
    /// Whether it ends at a line `twin`, whose number is then that of the line after its last.
    pub at_twin: bool,
}

// Promise P75 (caller): A script is read to its key and history and only its refusals are printed, or reading stops at the first cause.
//   clauses: reads, counted, hashed, at_end, source, sink; assumes: observable devices
/// Reads a script up to the end of the source: its key line, then its lines, of which the refusals are printed as a run prints them,
/// and nothing else is. The keyed function only hashes its words and identifiers, and marks its keys: a new key is compared with
/// those before.
///
/// A reading stops as a run does: at the first line that isn't in the grammar or stands where its kind may not, where the source
/// or the sink failed, and for want of memory. The line that says why is the caller's to print.
pub fn read_history<K: Keyed, S: Source, W: Sink>(
    alloc: Global,
    keyed: &K,
    source: &mut S,
    sink: &mut W,
    input: &mut Input,
) -> Result<ReadScript, StopCause>
    requires few { input.old.number + bytes_to_come input.old.pending (S.handed_out source.old) ≤ 2 ^ 63 }
    ensures reads { ReadsFirstFrom (Some (mark_of (keyed_fn K.prf K.pad))) (input.old.number + 1) (lines_left input.old.pending (S.remaining source.old)) (W.written sink.old) (W.written sink.new) (reading_end result) }
    ensures counted { IfOk result (λ read. IfSome read.history (λ h. IsCountable (Some (epochs_in h)))) }
    ensures hashed { IfOk result (λ read. IfSome read.history (λ h. h.last.keys ≡ numbers_of_key (plain_key (keyed_fn K.prf K.pad) read.key 13))) }
    ensures at_end { OnOk result (IsAtEnd (S.remaining source.new)) }
    ensures source { KeepsSource SourceCause (S.faults source.old) (S.faults source.new) result }
    ensures sink { KeepsSink (W.faults sink.old) (W.faults sink.new) (W.shortages sink.old) (W.shortages sink.new) result }
{
    read_whole(alloc, keyed, source, sink, input, true)
}

// Promise P75, also here; clauses: reads, counted, hashed, at_end, source, sink
/// Reads the second of two scripts: as [`read_history`], but a new key isn't compared with those before.
pub fn read_second<K: Keyed, S: Source, W: Sink>(
    alloc: Global,
    keyed: &K,
    source: &mut S,
    sink: &mut W,
    input: &mut Input,
) -> Result<ReadScript, StopCause>
    requires few { input.old.number + bytes_to_come input.old.pending (S.handed_out source.old) ≤ 2 ^ 63 }
    ensures reads { ReadsFirstFrom None (input.old.number + 1) (lines_left input.old.pending (S.remaining source.old)) (W.written sink.old) (W.written sink.new) (reading_end result) }
    ensures counted { IfOk result (λ read. IfSome read.history (λ h. IsCountable (Some (epochs_in h)))) }
    ensures hashed { IfOk result (λ read. IfSome read.history (λ h. h.last.keys ≡ numbers_of_key (plain_key (keyed_fn K.prf K.pad) read.key 13))) }
    ensures at_end { OnOk result (IsAtEnd (S.remaining source.new)) }
    ensures source { KeepsSource SourceCause (S.faults source.old) (S.faults source.new) result }
    ensures sink { KeepsSink (W.faults sink.old) (W.faults sink.new) (W.shortages sink.old) (W.shortages sink.new) result }
{
    read_whole(alloc, keyed, source, sink, input, false)
}

/// Reads a script in which no line `twin` may stand. New keys are compared with those before, or they aren't.
fn read_whole<K: Keyed, S: Source, W: Sink>(
    alloc: Global,
    keyed: &K,
    source: &mut S,
    sink: &mut W,
    input: &mut Input,
    compared: bool,
) -> Result<ReadScript, StopCause>
    requires few { input.old.number + bytes_to_come input.old.pending (S.handed_out source.old) ≤ 2 ^ 63 }
    ensures reads { ReadsFirstFrom (mark_when compared (keyed_fn K.prf K.pad)) (input.old.number + 1) (lines_left input.old.pending (S.remaining source.old)) (W.written sink.old) (W.written sink.new) (reading_end result) }
    ensures counted { IfOk result (λ read. IfSome read.history (λ h. IsCountable (Some (epochs_in h)))) }
    ensures hashed { IfOk result (λ read. IfSome read.history (λ h. h.last.keys ≡ numbers_of_key (plain_key (keyed_fn K.prf K.pad) read.key 13))) }
    ensures at_end { OnOk result (IsAtEnd (S.remaining source.new)) }
    ensures source { KeepsSource SourceCause (S.faults source.old) (S.faults source.new) result }
    ensures sink { KeepsSink (W.faults sink.old) (W.faults sink.new) (W.shortages sink.old) (W.shortages sink.new) result }
{
    match read_part(alloc, keyed, source, sink, input, compared) {
        Ok(first) => {
            let FirstScript { script, at_twin } = first;
            if at_twin {
                return Err(StopCause::Input(InputStop::Line(script.next)));
            }
            Ok(script)
        }
        Err(stop) => Err(stop),
    }
}

// Promise P29, also here; clauses: reads, ended, numbered
// Promise P75, also here; clauses: hashed
/// Reads the first of two scripts: as [`read_history`], but up to the first line `twin`, behind which the source and the input
/// are ready for the second.
pub fn read_first<K: Keyed, S: Source, W: Sink>(
    alloc: Global,
    keyed: &K,
    source: &mut S,
    sink: &mut W,
    input: &mut Input,
) -> Result<FirstScript, StopCause>
    requires few { input.old.number + bytes_to_come input.old.pending (S.handed_out source.old) ≤ 2 ^ 63 }
    ensures reads { ReadsFirstFrom (Some (mark_of (keyed_fn K.prf K.pad))) (input.old.number + 1) (first_left (lines_left input.old.pending (S.remaining source.old))) (W.written sink.old) (W.written sink.new) (first_end result) }
    ensures ended { IfOk result (λ first. EndsPart first.at_twin (lines_left input.old.pending (S.remaining source.old)) (lines_left input.new.pending (S.remaining source.new)) (S.remaining source.new)
        (input.new.number + bytes_to_come input.new.pending (S.handed_out source.new) ≤ 2 ^ 63)) }
    ensures numbered { IfOk result (λ first. first.script.next ≡ input.new.number) }
    ensures counted { IfOk result (λ first. IfSome first.script.history (λ h. IsCountable (Some (epochs_in h)))) }
    ensures hashed { IfOk result (λ first. IfSome first.script.history (λ h. h.last.keys ≡ numbers_of_key (plain_key (keyed_fn K.prf K.pad) first.script.key 13))) }
    ensures source { KeepsSource SourceCause (S.faults source.old) (S.faults source.new) result }
    ensures sink { KeepsSink (W.faults sink.old) (W.faults sink.new) (W.shortages sink.old) (W.shortages sink.new) result }
{
    read_part(alloc, keyed, source, sink, input, true)
}

/// Reads a script up to a line `twin`, where there is one. New keys are compared with those before, or they aren't.
fn read_part<K: Keyed, S: Source, W: Sink>(
    alloc: Global,
    keyed: &K,
    source: &mut S,
    sink: &mut W,
    input: &mut Input,
    compared: bool,
) -> Result<FirstScript, StopCause>
    requires few { input.old.number + bytes_to_come input.old.pending (S.handed_out source.old) ≤ 2 ^ 63 }
    ensures reads { ReadsFirstFrom (mark_when compared (keyed_fn K.prf K.pad)) (input.old.number + 1) (first_left (lines_left input.old.pending (S.remaining source.old))) (W.written sink.old) (W.written sink.new) (first_end result) }
    ensures ended { IfOk result (λ first. EndsPart first.at_twin (lines_left input.old.pending (S.remaining source.old)) (lines_left input.new.pending (S.remaining source.new)) (S.remaining source.new)
        (input.new.number + bytes_to_come input.new.pending (S.handed_out source.new) ≤ 2 ^ 63)) }
    ensures numbered { IfOk result (λ first. first.script.next ≡ input.new.number) }
    ensures counted { IfOk result (λ first. IfSome first.script.history (λ h. IsCountable (Some (epochs_in h)))) }
    ensures hashed { IfOk result (λ first. IfSome first.script.history (λ h. h.last.keys ≡ numbers_of_key (plain_key (keyed_fn K.prf K.pad) first.script.key 13))) }
    ensures source { KeepsSource SourceCause (S.faults source.old) (S.faults source.new) result }
    ensures sink { KeepsSink (W.faults sink.old) (W.faults sink.new) (W.shortages sink.old) (W.shortages sink.new) result }
{
    let key = key_line(source, input)?;
    read_behind(alloc, keyed, source, sink, input, key, compared)
}

/// Reads what stands behind the line of this key.
fn read_behind<K: Keyed, S: Source, W: Sink>(
    alloc: Global,
    keyed: &K,
    source: &mut S,
    sink: &mut W,
    input: &mut Input,
    key: MasterKey,
    compared: bool,
) -> Result<FirstScript, StopCause>
    requires few { input.old.number + bytes_to_come input.old.pending (S.handed_out source.old) ≤ 2 ^ 63 }
    ensures reads { ReadsFrom (opened (mark_when compared (keyed_fn K.prf K.pad)) key) (input.old.number + 1) (first_left (lines_left input.old.pending (S.remaining source.old))) false (W.written sink.old) (W.written sink.new) (first_end result) }
    ensures ended { IfOk result (λ first. EndsPart first.at_twin (lines_left input.old.pending (S.remaining source.old)) (lines_left input.new.pending (S.remaining source.new)) (S.remaining source.new)
        (input.new.number + bytes_to_come input.new.pending (S.handed_out source.new) ≤ 2 ^ 63)) }
    ensures numbered { IfOk result (λ first. first.script.next ≡ input.new.number) }
    ensures counted { IfOk result (λ first. IfSome first.script.history (λ h. IsCountable (Some (epochs_in h)))) }
    ensures hashed { IfOk result (λ first. IfSome first.script.history (λ h. h.last.keys ≡ numbers_of_key (plain_key (keyed_fn K.prf K.pad) first.script.key 13))) }
    ensures source { KeepsSource SourceCause (S.faults source.old) (S.faults source.new) result }
    ensures sink { KeepsSink (W.faults sink.old) (W.faults sink.new) (W.shortages sink.old) (W.shortages sink.new) result }
{
    let keys = hash_keys(keyed, &key);
    let progress = begun(alloc, keyed, &key, keys, compared)?;
    match read_lines(alloc, keyed, keys, source, sink, input, progress) {
        Ok(last) => Ok(first_script(key, last, input.number())),
        Err(stop) => Err(stop),
    }
}

/// The beginning of a script behind its key line.
fn begun<K: Keyed>(
    alloc: Global,
    keyed: &K,
    key: &MasterKey,
    keys: HashKeys,
    compared: bool,
) -> Result<Progress, AllocError>
    ensures stands { IfOk result (λ progress. Stands (keyed_fn K.prf K.pad) progress.standing (opened (mark_when compared (keyed_fn K.prf K.pad)) key.now)) }
    ensures refused { IfOk result (λ progress. progress.refused ≡ false) }
    ensures hashed { IfOk result (λ progress. keys_at progress.standing.stage ≡ hash_numbers keys) }
{
    let used = UsedKeys::first(alloc, keyed, key, compared)?;
    let stage = Stage::Collecting(Docs::new(alloc, keys));
    Ok(Progress {
        standing: Standing { stage, used },
        refused: false,
    })
}

// Promise P97, also here; clauses: ensures
/// The keys under which a reading hashes its words and identifiers: those of the client of this key.
fn hash_keys<K: Keyed>(keyed: &K, key: &MasterKey) -> HashKeys
    ensures { hash_numbers result ≡ numbers_of_key (plain_key (keyed_fn K.prf K.pad) key.now 13) }
{
    key.prepare(keyed).hash_keys()
}

/// What was read, where one more line of the script would have this number.
fn first_script(key: MasterKey, last: Last, next: u64) -> FirstScript
    ensures key { result.script.key ≡ key }
    ensures history { result.script.history ≡ hashed_at last.progress.standing.stage }
    ensures refused { result.script.refused ≡ last.progress.refused }
    ensures next { result.script.next ≡ next }
    ensures at_twin { result.at_twin ≡ last.at_twin }
    ensures counted { IfSome result.script.history (λ h. IsCountable (Some (epochs_in h))) }
{
    let Last { progress, at_twin } = last;
    let Progress { standing, refused } = progress;
    let Standing { stage, used: _used } = standing;
    let history = match stage {
        Stage::Collecting(_) => None,
        Stage::Built(history) => Some(history.into_history()),
    };
    let script = ReadScript {
        key,
        history,
        refused,
        next,
    };
    FirstScript { script, at_twin }
}

/// Reads up to the key line, which is the first that isn't empty.
fn key_line<S: Source>(source: &mut S, input: &mut Input) -> Result<MasterKey, InputStop>
    requires few { input.old.number + bytes_to_come input.old.pending (S.handed_out source.old) ≤ 2 ^ 63 }
    ensures key { IfOk result (λ key. (mark : Option (List ℕ → List ℕ)) (now last : Option (List ℕ)) (end : ReadEnd) →
        ReadsFrom (opened mark key) (input.new.number + 1) (first_left (lines_left input.new.pending (S.remaining source.new))) false now last end →
        ReadsFirstFrom mark (input.old.number + 1) (first_left (lines_left input.old.pending (S.remaining source.old))) now last end) }
    ensures behind { OnOk result (behind_left (lines_left input.old.pending (S.remaining source.old)) ≡ behind_left (lines_left input.new.pending (S.remaining source.new))) }
    ensures stopped { IfErr result (λ stop. (mark : Option (List ℕ → List ℕ)) (now : Option (List ℕ)) →
        ReadsFirstFrom mark (input.old.number + 1) (first_left (lines_left input.old.pending (S.remaining source.old))) now now (Stopped (Some (input_cause stop)))) }
    ensures few_left { OnOk result (input.new.number + bytes_to_come input.new.pending (S.handed_out source.new) ≤ 2 ^ 63) }
    ensures source { KeepsSource InputCause (S.faults source.old) (S.faults source.new) result }
{
    'lines: loop {
        if !input.advance(source)? {
            return Err(InputStop::Line(input.number()));
        }
        match input.line()? {
            Line::Empty => {}
            Line::Key(bytes) => return Ok(MasterKey::new(bytes)),
            _ => return Err(InputStop::Line(input.number())),
        }
    }
}
