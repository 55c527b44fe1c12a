ghost use Rattle.std.specs.Prelude.{◌≡◌, ◌≤◌, ◌+◌, ◌^◌, [], ◌∷◌, IfErr, IfSome, OnOk, length};
ghost use Rattle.std.specs.Io.KnownBytes.{IsAtEnd};
ghost use Rattle.vault_shelf.specs.ClientRecords.{mark_record};
ghost use Rattle.doc_vault.specs.Beginnings.{Begins, RunsUnder};
ghost use Rattle.doc_vault.specs.CommandRuns.{KeepsRecords};
ghost use Rattle.doc_vault.specs.Counts.{Counts, KeepsCounts, with_link, with_recorder};
ghost use Rattle.doc_vault.specs.FairStops.{StopsFairly};
ghost use Rattle.doc_vault.specs.RecordersLeft.{LeavesRecorder};
ghost use Rattle.doc_vault.specs.Sights.{sight_of};
ghost use Rattle.keyed_fn.specs.KeyedFn.{keyed_fn};
ghost use Rattle.sse_script.specs.TextLines.{bytes_to_come, lines_left};

use crate::greeting::greet;
use crate::lines::run_lines;
use crate::tools::Tools;
use client_recorder::Recorder;
use keyed_fn::Keyed;
use script_run_texts::{CommandStop, Input, StopCause};
use sse_outside::{Sink, Source};
use std::alloc::Global;
use vault_link::VaultLink;
use vault_script::VaultStop;
use vault_shelf::{Shelf, TextBuffer, write_mark_record};
use word_keys::{MasterKey, PreparedMaster};

/// Hands the record of a key's mark over, the first of all.
fn keep_mark<R: Recorder>(alloc: Global, recorder: &mut R, mark: &[u8; 16]) -> Result<(), VaultStop>
    requires { R.whole recorder.old }
    ensures kept { KeepsRecords (mark_record mark.now ∷ []) (R.kept recorder.old) (R.kept recorder.new) result }
    ensures whole_after { OnOk result (R.whole recorder.new) }
    ensures counts { (others : Counts) → KeepsCounts (with_recorder (R.faults recorder.old) others) (with_recorder (R.faults recorder.new) others) result }
    ensures recorder { LeavesRecorder R.kept R.moment R.left_since R.whole recorder.old recorder.new }
{
    let mut payload = Vec::new(alloc);
    write_mark_record(mark, &mut payload)?;
    match recorder.keep(payload) {
        Ok(()) => Ok(()),
        Err(fault) => Err(VaultStop::Run(StopCause::Command(CommandStop::Keeping(fault)))),
    }
}

/// Begins a first run under a key: asks the server whether it holds nothing yet, and keeps the mark of the key.
fn begin<K: Keyed, L: VaultLink, R: Recorder>(
    alloc: Global,
    master: &PreparedMaster<'_, K>,
    link: &mut L,
    recorder: &mut R,
    reply: &mut [u8],
) -> Result<(), VaultStop>
    requires whole { R.whole recorder.old }
    requires room { 65604 ≤ length reply.old }
    ensures begins { Begins (keyed_fn K.prf K.pad) master.now (sight_of (L.transcript link.old) (L.remote link.old)) (sight_of (L.transcript link.new) (L.remote link.new)) (R.kept recorder.old) (R.kept recorder.new) result }
    ensures whole_after { OnOk result (R.whole recorder.new) }
    ensures stays { L.remote link.new ≡ L.remote link.old }
    ensures honest { IfSome (L.remote link.old) (λ before. IfErr result (λ stop. before.state.next ≡ 0 → StopsFairly stop)) }
    ensures counts { (others : Counts) → KeepsCounts (with_link (L.faults link.old) (with_recorder (R.faults recorder.old) others)) (with_link (L.faults link.new) (with_recorder (R.faults recorder.new) others)) result }
    ensures recorder { LeavesRecorder R.kept R.moment R.left_since R.whole recorder.old recorder.new }
{
    greet(link, reply)?;
    keep_mark(alloc, recorder, &master.mark())
}

// Promise P230, also here; clauses: run; fields: FinishesUnder.texts, StopsInLines.texts
// Promise P231, also here; clauses: run; fields: StopsUnder.fair
// Promise P234, also here; clauses: counts
// Promise P235, also here; clauses: recorder
// Promise P227 (caller): A vault's first run under a key begins at a server that expects the first update, keeps the key's mark, then takes its lines.
//   clauses: run, whole_after; fields: FinishesUnder.begins, FinishesUnder.unprinted, FinishesUnder.lines; assumes: observable devices, earlier calls
/// Makes a first run of a script after its key line: begins it, and carries out its lines; the answer is whether a command was
/// refused. `reply` has room for 65,604 bytes. The causes at which it stops are those of `greet` and `run_lines`, and a
/// record of the key's mark that isn't taken.
pub fn first_run<K: Keyed, L: VaultLink, R: Recorder, S: Source, W: Sink>(
    alloc: Global,
    keyed: &K,
    key: &MasterKey,
    link: &mut L,
    recorder: &mut R,
    source: &mut S,
    sink: &mut W,
    input: &mut Input,
    reply: &mut [u8],
) -> Result<bool, VaultStop>
    requires whole { R.whole recorder.old }
    requires room { 65604 ≤ length reply.old }
    requires few { input.old.number + bytes_to_come input.old.pending (S.handed_out source.old) ≤ 2 ^ 63 }
    ensures run { RunsUnder (keyed_fn K.prf K.pad) key.now input.old.number (lines_left input.old.pending (S.remaining source.old))
        (record { link = sight_of (L.transcript link.old) (L.remote link.old); kept = R.kept recorder.old; written = W.written sink.old })
        (record { link = sight_of (L.transcript link.new) (L.remote link.new); kept = R.kept recorder.new; written = W.written sink.new }) result }
    ensures whole_after { OnOk result (R.whole recorder.new) }
    ensures counts { KeepsCounts
        (record { source = S.faults source.old; sink = W.faults sink.old; shortages = W.shortages sink.old; link = L.faults link.old; recorder = R.faults recorder.old })
        (record { source = S.faults source.new; sink = W.faults sink.new; shortages = W.shortages sink.new; link = L.faults link.new; recorder = R.faults recorder.new }) result }
    ensures recorder { LeavesRecorder R.kept R.moment R.left_since R.whole recorder.old recorder.new }
    ensures at_end { OnOk result (IsAtEnd (S.remaining source.new)) }
{
    let master = key.prepare(keyed);
    begin(alloc, &master, link, recorder, reply)?;
    let keys = master.vault();
    let tools = Tools { alloc, keyed, keys };
    let mut shelf = Shelf::new(alloc, master.hash_keys());
    let mut text = TextBuffer::new(alloc);
    let mut frame = Vec::new(alloc);
    run_lines(
        &tools, link, recorder, source, sink, input, &mut shelf, &mut text, &mut frame, reply,
    )
}
