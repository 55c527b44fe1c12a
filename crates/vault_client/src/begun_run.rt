ghost use Rattle.std.specs.Prelude.{◌≡◌, ◌≢◌, ◌≤◌, [], OnOk};
ghost use Rattle.keyed_fn.specs.KeyedFn.{keyed_fn};
ghost use Rattle.doc_vault.specs.Sights.{sight_of};
ghost use Rattle.client_journal.specs.Shows.{LeavesRecorder, gives, prints};
ghost use Rattle.sse_outside.specs.Fronts.{TookOrRose};
ghost use Rattle.sse_script.specs.TextLines.{lines_left};
ghost use Rattle.vault_client.specs.Endings.{run_line, run_status, status_through};
ghost use Rattle.vault_client.specs.OnDisk.{LeavesDevices, sight};
ghost use Rattle.vault_client.specs.WholeRuns.{IsVaultRun};

use client_recorder::Recorder;
use doc_vault::run_script;
use keyed_fn::Keyed;
use sse_outside::{Sink, Source};
use std::alloc::Global;
use vault_link::VaultLink;
use vault_script::{VaultStop, finish_vault};

/// Carries out a script, prints the last line if it stopped, and answers the run's status.
pub(crate) fn whole_run<K: Keyed, L: VaultLink, R: Recorder, S: Source, W: Sink>(
    alloc: Global,
    keyed: &K,
    link: &mut L,
    recorder: &mut R,
    source: &mut S,
    sink: &mut W,
) -> u8
    requires whole { R.whole recorder.old }
    ensures run { IsVaultRun (keyed_fn K.prf K.pad) (lines_left [] (S.remaining source.old))
        (sight (sight_of (L.transcript link.old) (L.remote link.old)) (R.kept recorder.old) (prints (W.written sink.old) (W.faults sink.old) (W.shortages sink.old)))
        (sight (sight_of (L.transcript link.new) (L.remote link.new)) (R.kept recorder.new) (prints (W.written sink.new) (W.faults sink.new) (W.shortages sink.new)))
        (prints (W.written sink.old) (W.faults sink.old) (W.shortages sink.old)) (prints (W.written sink.new) (W.faults sink.new) (W.shortages sink.new)) result }
    ensures devices { LeavesDevices (gives (S.remaining source.old) (S.faults source.old)) (gives (S.remaining source.new) (S.faults source.new))
        (prints (W.written sink.old) (W.faults sink.old) (W.shortages sink.old)) (prints (W.written sink.new) (W.faults sink.new) (W.shortages sink.new))
        (L.faults link.old) (L.faults link.new) (R.faults recorder.old) (R.faults recorder.new) result }
    ensures records { LeavesRecorder R.kept R.moment R.left_since R.whole recorder.old recorder.new result }
    ensures opened { result ≢ 10 }
    ensures known { result ≤ 12 }
{
    let ran = run_script(alloc, keyed, link, recorder, source, sink);
    finish_run(ran, sink)
}

/// Prints the last line of a run that stopped, and answers the status of a run, stopped or not.
pub(crate) fn finish_run<W: Sink>(ran: Result<bool, VaultStop>, sink: &mut W) -> u8
    ensures status { result ≡ run_status ran }
    ensures line { TookOrRose (W.written sink.old) (W.written sink.new) (run_line ran)
        (W.faults sink.old) (W.faults sink.new) (W.shortages sink.old) (W.shortages sink.new) }
    ensures steady { OnOk ran (W.faults sink.new ≡ W.faults sink.old) }
    ensures later { W.faults sink.old ≤ W.faults sink.new }
{
    match ran {
        Ok(refused) => through(refused),
        Err(stop) => finish_vault(sink, stop),
    }
}

/// The status of a run that came to the end of its script, by whether a command was refused.
fn through(refused: bool) -> u8
    ensures { result ≡ status_through refused }
{
    if refused {
        return 1;
    }
    0
}
