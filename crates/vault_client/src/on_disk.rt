ghost use Rattle.std.specs.Prelude.{◌≡◌, ◌≢◌, ◌⊎◌, ◌≤◌, ◌<◌, [], None, Some, map, string_bytes, IfSome};
ghost use Rattle.client_journal.specs.Openings.{GivesSome, HasNoRecord, IsNoJournal, IsOfRecords};
ghost use Rattle.doc_vault.specs.Sights.{sight_of};
ghost use Rattle.keyed_fn.specs.KeyedFn.{keyed_fn};
ghost use Rattle.script_run_texts.specs.Words as asks;
ghost use Rattle.client_journal.specs.DiskRuns.{IsExact, KeepsOnStarted, kept_on};
ghost use Rattle.client_journal.specs.Shows.{gives, prints};
ghost use Rattle.sse_journal.specs.Files.{Gives};
ghost use Rattle.sse_journal.specs.JournalView.{broken_by, records_of};
ghost use Rattle.sse_script.specs.TextLines.{lines_left};
ghost use Rattle.vault_client.specs.OnDisk.{BeginsOnDisk, BeginsOrNot, DoesNothing, KeepsResumed, LeavesDevices, ResumesOnDisk, ResumesOrNot, sight};
ghost use Rattle.vault_client.specs.ResumedRuns.{IsResumedRun};

use crate::begun_run::whole_run;
use crate::restore;
use crate::resumed_run::resumed_run;
use client_journal::{begin, reopen};
use client_recorder::JournalRecorder;
use keyed_fn::Keyed;
use script_run_texts::{DiskMode, StopCause, disk_mode_of, finish, finish_unopened};
use sse_journal::Journal;
use sse_outside::{Disk, Sink, Source};
use std::alloc::Global;
use vault_link::VaultLink;
use vault_script::finish_vault;

// Promise P263 (user): With words other than `run` and `more`, a vault's run reads, sends, receives and keeps nothing, and its status is 2.
//   clauses: other; fields: DoesNothing.says, DoesNothing.unsent, DoesNothing.unkept, SaysWords.unread, SaysWords.status_is, SaysWords.line
// Promise P264 (user): Over any link, a vault's `run` takes its script's lines in turn and keeps their records, or stops for the cause that it prints.
//   clauses: begun; fields: BeginsOnDisk.begun, BeginsOnDisk.refused, BeginsOnDisk.accepted, IsUnopened.why, IsUnopened.unsent, IsUnopened.unkept, IsUnopened.line, IsUnopened.status_is,
//     IsVaultRun.runs, IsVaultRun.passed, IsVaultRun.kept, IsVaultRun.line, IsVaultRun.status_is, IsVaultRun.bad_script; assumes: observable devices; not: Out of memory is no visible
//     cause: a run may say so at any line.
// Promise P265 (user): From the first successful sync, a crash during a vault's run leaves the file's earlier records and then the run's first ones, in order.
//   clauses: begun, more; fields: KeepsWhat.grows, KeepsWhat.meanwhile, KeepsWhat.leaves, KeepsWhat.exact, BeginsOnDisk.exact, ResumesOnDisk.exact; assumes: observable devices, disk
//     model; not: Whether a crash leaves a refused record.
// Promise P266 (user): A vault run's status names the device that failed: 3, 5 and 6 if and only if that device's fault count rose.
//   clauses: devices, known; fields: LeavesDevices.tells, LeavesDevices.line, TellsDevices.source_failed, TellsDevices.source_steady, TellsDevices.link_failed, TellsDevices.link_steady,
//     TellsDevices.disk_failed, TellsDevices.disk_steady, TellsDevices.sink_failed, TellsDevices.sink_steady, TellsDevices.at_end; not: 4 comes only if the sink's count rose, but a
//     risen count may end otherwise; with 0 and 1 it stays.
// Promise P267 (user): Over an honest link to an empty vault, `run` does what its script means, and all that passes is what the simulator makes.
//   clauses: begun; fields: IsVaultRun.honest, IsVaultRun.headline, Headline.finds, Headline.did, DidAsMeant.status_is, DidAsMeant.printed, DidAsMeant.kept, DidAsMeant.seen,
//     DidAsMeant.simulated, DidAsMeant.stands; assumes: observable devices, honest link, no collision; not: A run that a device, memory or a bad line stopped, beyond P264. That the
//     leaks are harmless; timing.
// Promise P268 (user): A vault's run ends with the status 12 if and only if a get received a text whose tag is wrong.
//   clauses: begun, more; fields: IsVaultRun.forged_only, IsVaultRun.forged, IsResumedRun.forged_only, IsResumedRun.forged; assumes: observable devices;
//     not: If memory runs out as that reply is read, the status is 7.
// Promise P269 (user): `more` resumes from the records of its journal: the server gets the last update if it is missing, then come the script's lines.
//   clauses: more; fields: ResumesOnDisk.gone_on, ResumesOnDisk.accepted, ResumesOnDisk.refused, IsResumedRun.runs, IsResumedRun.passed, IsResumedRun.kept, IsResumedRun.line,
//     IsResumedRun.status_is, IsResumedRun.honest, ResumesUnder.kept, ResumesUnder.resumes; assumes: observable devices; not: Over an honest link to a vault that lacks more than the
//     last update, the status is 9.
/// All that a program of a vault's client does that keeps its records on a disk: with `run` it begins a history, and the
/// journal must have no record; with `more` it resumes from the records that the journal has. Other words end with status 2
/// and `stopped: words`, and nothing is read, sent or kept.
///
/// The journal is opened before the first line is read, so a run that can't keep its records sends nothing.
pub fn vault_run<K: Keyed, L: VaultLink, D: Disk, S: Source, W: Sink>(
    alloc: Global,
    words: &[String],
    keyed: &K,
    link: &mut L,
    disk: D,
    source: &mut S,
    sink: &mut W,
) -> (u8, D)
    ensures other { asks.disk_mode_of (map (λ word. string_bytes word) words.now) ≡ None → DoesNothing source.old source.new link.old link.new disk result.1
        (prints (W.written sink.old) (W.faults sink.old) (W.shortages sink.old)) (prints (W.written sink.new) (W.faults sink.new) (W.shortages sink.new)) result.0 }
    ensures begun { asks.disk_mode_of (map (λ word. string_bytes word) words.now) ≡ Some asks.RunOn → BeginsOnDisk D.content D.images D.moment D.left_since disk result.1 (keyed_fn K.prf K.pad) (lines_left [] (S.remaining source.old))
        (sight_of (L.transcript link.old) (L.remote link.old)) (sight_of (L.transcript link.new) (L.remote link.new))
        (prints (W.written sink.old) (W.faults sink.old) (W.shortages sink.old)) (prints (W.written sink.new) (W.faults sink.new) (W.shortages sink.new)) result.0 }
    ensures more { asks.disk_mode_of (map (λ word. string_bytes word) words.now) ≡ Some asks.More → ResumesOnDisk D.content D.images D.moment D.left_since disk result.1 (keyed_fn K.prf K.pad) (lines_left [] (S.remaining source.old))
        (sight_of (L.transcript link.old) (L.remote link.old)) (sight_of (L.transcript link.new) (L.remote link.new))
        (prints (W.written sink.old) (W.faults sink.old) (W.shortages sink.old)) (prints (W.written sink.new) (W.faults sink.new) (W.shortages sink.new)) result.0 }
    ensures devices { LeavesDevices (gives (S.remaining source.old) (S.faults source.old)) (gives (S.remaining source.new) (S.faults source.new))
        (prints (W.written sink.old) (W.faults sink.old) (W.shortages sink.old)) (prints (W.written sink.new) (W.faults sink.new) (W.shortages sink.new))
        (L.faults link.old) (L.faults link.new) (D.faults disk) (D.faults result.1) result.0 }
    ensures known { result.0 ≤ 12 }
{
    match disk_mode_of(words) {
        Some(DiskMode::Run) => begin_run(alloc, keyed, link, disk, source, sink),
        Some(DiskMode::More) => more(alloc, keyed, link, disk, source, sink),
        None => (finish(sink, StopCause::Words), disk),
    }
}

/// Begins a vault's history on a disk without records.
fn begin_run<K: Keyed, L: VaultLink, D: Disk, S: Source, W: Sink>(
    alloc: Global,
    keyed: &K,
    link: &mut L,
    disk: D,
    source: &mut S,
    sink: &mut W,
) -> (u8, D)
    ensures begun { BeginsOrNot D.content D.images D.moment D.left_since disk result.1 (keyed_fn K.prf K.pad) (lines_left [] (S.remaining source.old))
        (sight_of (L.transcript link.old) (L.remote link.old)) (sight_of (L.transcript link.new) (L.remote link.new))
        (prints (W.written sink.old) (W.faults sink.old) (W.shortages sink.old)) (prints (W.written sink.new) (W.faults sink.new) (W.shortages sink.new)) result.0 }
    ensures refused { IfSome (D.content disk) (λ file. GivesSome file ⊎ IsNoJournal file → result.0 ≢ 6 → result.0 ≢ 7 → result.0 ≡ 10) }
    ensures accepted { IfSome (D.content disk) (λ file. Gives [] file → result.0 ≢ 10) }
    ensures exact { result.0 ≢ 6 → result.0 ≢ 7 → result.0 ≢ 10 → IsExact (D.content result.1) (D.images result.1) }
    ensures devices { LeavesDevices (gives (S.remaining source.old) (S.faults source.old)) (gives (S.remaining source.new) (S.faults source.new))
        (prints (W.written sink.old) (W.faults sink.old) (W.shortages sink.old)) (prints (W.written sink.new) (W.faults sink.new) (W.shortages sink.new))
        (L.faults link.old) (L.faults link.new) (D.faults disk) (D.faults result.1) result.0 }
    ensures known { result.0 ≤ 12 }
{
    let mut disk = disk;
    match begin(alloc, &mut disk) {
        Ok(journal) => {
            let mut recorder = JournalRecorder::new(journal, disk);
            let status = whole_run(alloc, keyed, link, &mut recorder, source, sink);
            (status, recorder.into_disk())
        }
        Err(stop) => (finish_unopened(sink, stop), disk),
    }
}

/// Resumes a vault's history from the records of a disk.
fn more<K: Keyed, L: VaultLink, D: Disk, S: Source, W: Sink>(
    alloc: Global,
    keyed: &K,
    link: &mut L,
    disk: D,
    source: &mut S,
    sink: &mut W,
) -> (u8, D)
    ensures more { ResumesOrNot D.content D.images D.moment D.left_since disk result.1 (keyed_fn K.prf K.pad) (lines_left [] (S.remaining source.old))
        (sight_of (L.transcript link.old) (L.remote link.old)) (sight_of (L.transcript link.new) (L.remote link.new))
        (prints (W.written sink.old) (W.faults sink.old) (W.shortages sink.old)) (prints (W.written sink.new) (W.faults sink.new) (W.shortages sink.new)) result.0 }
    ensures accepted { IfSome (D.content disk) (λ file. GivesSome file → result.0 ≢ 6 → result.0 ≢ 7 → KeepsResumed D.content D.images D.moment D.left_since disk result.1 (keyed_fn K.prf K.pad) (lines_left [] (S.remaining source.old))
        (sight_of (L.transcript link.old) (L.remote link.old)) (sight_of (L.transcript link.new) (L.remote link.new))
        (prints (W.written sink.old) (W.faults sink.old) (W.shortages sink.old)) (prints (W.written sink.new) (W.faults sink.new) (W.shortages sink.new)) result.0) }
    ensures refused { IfSome (D.content disk) (λ file. HasNoRecord file → result.0 ≢ 6 → result.0 ≢ 7 → result.0 ≡ 10) }
    ensures exact { result.0 ≢ 6 → result.0 ≢ 7 → result.0 ≢ 10 → IsExact (D.content result.1) (D.images result.1) }
    ensures devices { LeavesDevices (gives (S.remaining source.old) (S.faults source.old)) (gives (S.remaining source.new) (S.faults source.new))
        (prints (W.written sink.old) (W.faults sink.old) (W.shortages sink.old)) (prints (W.written sink.new) (W.faults sink.new) (W.shortages sink.new))
        (L.faults link.old) (L.faults link.new) (D.faults disk) (D.faults result.1) result.0 }
    ensures known { result.0 ≤ 12 }
{
    let mut disk = disk;
    match reopen(alloc, &mut disk) {
        Ok(journal) => go_on_from(alloc, keyed, link, Opened { journal, disk }, source, sink),
        Err(stop) => (finish_unopened(sink, stop), disk),
    }
}

/// A disk with its journal, whose records were found.
#[derive(Drop)]
struct Opened<D: Disk> {
    journal: Journal,
    disk: D,
}

/// Resumes from the records of a journal.
fn go_on_from<K: Keyed, L: VaultLink, D: Disk, S: Source, W: Sink>(
    alloc: Global,
    keyed: &K,
    link: &mut L,
    opened: Opened<D>,
    source: &mut S,
    sink: &mut W,
) -> (u8, D)
    requires holds { IfSome (D.content opened.disk) (λ file. IsOfRecords opened.journal (D.content opened.disk) (D.images opened.disk)) }
    requires some { 0 < records_of opened.journal }
    requires unbroken { broken_by opened.journal ≡ None }
    ensures gone_on { KeepsOnStarted D.content D.images D.moment D.left_since opened.disk result.1 result.0 (λ kept. IsResumedRun (keyed_fn K.prf K.pad) (lines_left [] (S.remaining source.old))
        (sight (sight_of (L.transcript link.old) (L.remote link.old)) (kept_on (D.content opened.disk)) (prints (W.written sink.old) (W.faults sink.old) (W.shortages sink.old)))
        (sight (sight_of (L.transcript link.new) (L.remote link.new)) kept (prints (W.written sink.new) (W.faults sink.new) (W.shortages sink.new)))
        (prints (W.written sink.old) (W.faults sink.old) (W.shortages sink.old)) (prints (W.written sink.new) (W.faults sink.new) (W.shortages sink.new)) result.0) }
    ensures exact { result.0 ≢ 6 → result.0 ≢ 7 → IsExact (D.content result.1) (D.images result.1) }
    ensures devices { LeavesDevices (gives (S.remaining source.old) (S.faults source.old)) (gives (S.remaining source.new) (S.faults source.new))
        (prints (W.written sink.old) (W.faults sink.old) (W.shortages sink.old)) (prints (W.written sink.new) (W.faults sink.new) (W.shortages sink.new))
        (L.faults link.old) (L.faults link.new) (D.faults opened.disk) (D.faults result.1) result.0 }
    ensures known { result.0 ≤ 12 }
{
    let Opened { journal, mut disk } = opened;
    match restore(alloc, keyed, &journal, &mut disk, source) {
        Ok(restart) => {
            let mut recorder = JournalRecorder::new(journal, disk);
            let status = resumed_run(restart, link, &mut recorder, source, sink);
            (status, recorder.into_disk())
        }
        Err(stop) => (finish_vault(sink, stop), disk),
    }
}
