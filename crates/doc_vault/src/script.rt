ghost use Rattle.std.specs.Prelude.{◌≡◌, [], OnOk};
ghost use Rattle.std.specs.Io.KnownBytes.{IsAtEnd};
ghost use Rattle.doc_vault.specs.Counts.{KeepsCounts};
ghost use Rattle.doc_vault.specs.RecordersLeft.{LeavesRecorder};
ghost use Rattle.doc_vault.specs.Scripts.{RunsScript};
ghost use Rattle.doc_vault.specs.Sights.{sight_of};
ghost use Rattle.keyed_fn.specs.KeyedFn.{keyed_fn};
ghost use Rattle.sse_script.specs.TextLines.{lines_left};

use crate::beginning::first_run;
use crate::script_start::key_line;
use client_recorder::Recorder;
use keyed_fn::Keyed;
use script_run_texts::Input;
use sse_outside::{Sink, Source};
use std::alloc::Global;
use vault_link::{REPLY_ROOM, VaultLink};
use vault_script::VaultStop;

// Promise P234, also here; clauses: counts
// Promise P235, also here; clauses: recorder
// Promise P229 (caller): A script's first run is made under the key of its key line; without one, nothing is sent, kept or printed.
//   clauses: run, whole_after; fields: FinishesScript.finds, FinishesScript.runs; assumes: observable devices, earlier calls
/// Makes a first run of a whole script, as `key_line` and then `first_run` do; the answer is whether a command was refused. It
/// stops for the causes of these, with nothing of the last line printed, or out of memory.
pub fn run_script<K: Keyed, L: VaultLink, R: Recorder, S: Source, W: Sink>(
    alloc: Global,
    keyed: &K,
    link: &mut L,
    recorder: &mut R,
    source: &mut S,
    sink: &mut W,
) -> Result<bool, VaultStop>
    requires { R.whole recorder.old }
    ensures run { RunsScript (keyed_fn K.prf K.pad) (lines_left [] (S.remaining source.old))
        (record { link = sight_of (L.transcript link.old) (L.remote link.old); kept = R.kept recorder.old; written = W.written sink.old })
        (record { link = sight_of (L.transcript link.new) (L.remote link.new); kept = R.kept recorder.new; written = W.written sink.new }) result }
    ensures whole_after { OnOk result (R.whole recorder.new) }
    ensures counts { KeepsCounts
        (record { source = S.faults source.old; sink = W.faults sink.old; shortages = W.shortages sink.old; link = L.faults link.old; recorder = R.faults recorder.old })
        (record { source = S.faults source.new; sink = W.faults sink.new; shortages = W.shortages sink.new; link = L.faults link.new; recorder = R.faults recorder.new }) result }
    ensures recorder { LeavesRecorder R.kept R.moment R.left_since R.whole recorder.old recorder.new }
    ensures at_end { OnOk result (IsAtEnd (S.remaining source.new)) }
{
    let mut reply = vec![in alloc; 0u8; REPLY_ROOM]?;
    let mut input = Input::new(alloc)?;
    let key = key_line(alloc, source, &mut input)?;
    first_run(
        alloc, keyed, &key, link, recorder, source, sink, &mut input, &mut reply,
    )
}
