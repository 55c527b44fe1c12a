ghost use Rattle.std.specs.Prelude.{◌≡◌, ◌≤◌, ◌+◌, ◌^◌, ℕ, List, Option, true};
ghost use Rattle.client_journal.specs.Shows.{LeavesRecorder, gives, prints};
ghost use Rattle.vault_shelf.specs.Shelves as meant;
ghost use Rattle.doc_vault.specs.Openings.{FindsKey};
ghost use Rattle.doc_vault.specs.Sights.{sight_of};
ghost use Rattle.keyed_fn.specs.KeyedFn.{keyed_fn};
ghost use Rattle.sse_script.specs.TextLines.{bytes_to_come, lines_left};
ghost use Rattle.vault_client.specs.OnDisk.{LeavesDevices, sight};
ghost use Rattle.vault_client.specs.ResumedRuns.{IsResumedRun};
ghost use Rattle.vault_client.specs.Resumptions.{IsRestored};
ghost use Rattle.vault_shelf.specs.Readiness.{is_ready};

use crate::begun_run::finish_run;
use crate::{Restart, resume};
use client_recorder::Recorder;
use keyed_fn::Keyed;
use sse_outside::{Sink, Source};
use vault_link::VaultLink;

/// Resumes a run from what its journal and key line gave, prints the last line if it stopped, and answers the run's status.
pub(crate) fn resumed_run<K: Keyed, L: VaultLink, R: Recorder, S: Source, W: Sink>(
    restart: Restart<'_, K>,
    link: &mut L,
    recorder: &mut R,
    source: &mut S,
    sink: &mut W,
) -> u8
    requires ready { is_ready restart.shelf restart.last.items ≡ true }
    requires restored { (key : List ℕ) × (cs : List meant.VaultCommand) × IsRestored (keyed_fn K.prf K.pad) key (R.kept recorder.old) restart.tools.keys restart.shelf restart.last.items cs }
    requires whole { R.whole recorder.old }
    requires few { restart.input.number + bytes_to_come restart.input.pending (S.handed_out source.old) ≤ 2 ^ 63 }
    ensures run { (left : Option (List (List ℕ))) (key : List ℕ) (cs : List meant.VaultCommand) → FindsKey 1 left key restart.entry.input.number (lines_left restart.entry.input.pending (S.remaining source.old)) →
        IsRestored (keyed_fn K.prf K.pad) key (R.kept recorder.old) restart.entry.tools.keys restart.entry.shelf restart.entry.last.items cs →
        IsResumedRun (keyed_fn K.prf K.pad) left
        (sight (sight_of (L.transcript link.old) (L.remote link.old)) (R.kept recorder.old) (prints (W.written sink.old) (W.faults sink.old) (W.shortages sink.old)))
        (sight (sight_of (L.transcript link.new) (L.remote link.new)) (R.kept recorder.new) (prints (W.written sink.new) (W.faults sink.new) (W.shortages sink.new)))
        (prints (W.written sink.old) (W.faults sink.old) (W.shortages sink.old)) (prints (W.written sink.new) (W.faults sink.new) (W.shortages sink.new)) result }
    ensures devices { LeavesDevices (gives (S.remaining source.old) (S.faults source.old)) (gives (S.remaining source.new) (S.faults source.new))
        (prints (W.written sink.old) (W.faults sink.old) (W.shortages sink.old)) (prints (W.written sink.new) (W.faults sink.new) (W.shortages sink.new))
        (L.faults link.old) (L.faults link.new) (R.faults recorder.old) (R.faults recorder.new) result }
    ensures records { LeavesRecorder R.kept R.moment R.left_since R.whole recorder.old recorder.new result }
    ensures known { result ≤ 12 }
{
    let ran = resume(restart, link, recorder, source, sink);
    finish_run(ran, sink)
}
