ghost use Rattle.std.specs.Prelude.{◌≡◌, ◌≢◌, ◌≤◌, None, Some, IfOk, IfSome, map, string_bytes};
ghost use Rattle.keyed_fn.specs.KeyedFn.{keyed_fn};
ghost use Rattle.script_run_texts.specs.Words as asks;
ghost use Rattle.sse_client.specs.InProcess.{HasNoJournal, RunsInProcess, unused};
ghost use Rattle.client_journal.specs.Shows.{SaysWords, gives, prints};
ghost use Rattle.sse_client.specs.WholeRuns.{LeavesDevices, unseen_link};

use crate::over_store::run_over_store;
use keyed_fn::Keyed;
use outside_memory_disk::SteadyDisk;
use script_run_texts::{StopCause, disk_mode_of, finish};
use server_tables::BucketTables;
use sse_link::SteadyStoreLoopback;
use sse_outside::{Sink, Source, SteadySink, SteadySource};
use sse_server::Store;
use std::alloc::{AllocError, Global};

// Promise P05 (user): In one process, the printed lines, both files and the status are those of the script, unless the source, the sink or memory fails.
//   clauses: run, devices, other, known; fields: RunsInProcess.run, RunsInProcess.both, IsRunOverServer.headline, FillsBothFiles.headline, FillsBothFiles.own_file, FillsBothFiles.stored, TellsDevices.at_end,
//     SaysWords.unread; assumes: observable devices, no collision, no device fault, enough memory; checks: .ci/end_to_end, .ci/random_scripts, .ci/long_scripts, .ci/memory; not:
//     Standard input and output aren't observable devices: there the clauses say the status and the counts of faults, and tests show the lines.
// Promise P09, also here; clauses: run, devices
// Promise P10, also here; clauses: devices, known
/// The same as `run_over_store` over a store and a client's disk that are made here, in memory and empty, and dropped: what is printed, both
/// files at the end, and the status.
///
/// `more` finds no journal. Without memory for the store the run ends with `stopped: memory` and 7, before anything is read.
pub fn run_in_process<K: Keyed + Copy, S: Source, W: Sink>(
    alloc: Global,
    words: &[String],
    keyed: &K,
    source: &mut S,
    sink: &mut W,
) -> u8
    ensures other { asks.disk_mode_of (map (λ word. string_bytes word) words.now) ≡ None → SaysWords source.old source.new
        (prints (W.written sink.old) (W.faults sink.old) (W.shortages sink.old)) (prints (W.written sink.new) (W.faults sink.new) (W.shortages sink.new)) result }
    ensures run { asks.disk_mode_of (map (λ word. string_bytes word) words.now) ≡ Some asks.RunOn → IfSome (S.remaining source.old) (λ bytes. RunsInProcess (keyed_fn K.prf K.pad) bytes
        (prints (W.written sink.old) (W.faults sink.old) (W.shortages sink.old)) (prints (W.written sink.new) (W.faults sink.new) (W.shortages sink.new)) result) }
    ensures more { asks.disk_mode_of (map (λ word. string_bytes word) words.now) ≡ Some asks.More → HasNoJournal source.old source.new
        (prints (W.written sink.old) (W.faults sink.old) (W.shortages sink.old)) (prints (W.written sink.new) (W.faults sink.new) (W.shortages sink.new)) result }
    ensures devices { LeavesDevices (gives (S.remaining source.old) (S.faults source.old)) (gives (S.remaining source.new) (S.faults source.new))
        (prints (W.written sink.old) (W.faults sink.old) (W.shortages sink.old)) (prints (W.written sink.new) (W.faults sink.new) (W.shortages sink.new)) unseen_link unseen_link 0 0 result }
    ensures known { asks.disk_mode_of (map (λ word. string_bytes word) words.now) ≡ Some asks.RunOn → (result ≤ 9) × (result ≢ 5) × (result ≢ 6) }
{
    if disk_mode_of(words).is_none() {
        return finish(sink, StopCause::Words);
    }
    match new_link(alloc, keyed) {
        Ok(mut link) => {
            let own = SteadyDisk::new(alloc);
            let (status, own) = run_over_store(alloc, words, keyed, &mut link, own, source, sink);
            drop(own);
            drop(link);
            status
        }
        Err(AllocError) => finish(sink, StopCause::Memory),
    }
}

/// A link to a new store on a disk of its own, both in memory.
///
/// That disk never fails and its file is empty, so that the store lacks nothing but memory for its start.
fn new_link<K: Keyed + Copy>(
    alloc: Global,
    keyed: &K,
) -> Result<SteadyStoreLoopback<K, BucketTables>, AllocError>
    ensures { IfOk result (λ link. link ≡ unused) }
{
    let mut disk = SteadyDisk::new(alloc);
    match Store::start(alloc, BucketTables::new(alloc), &mut disk) {
        Ok(store) => Ok(SteadyStoreLoopback::new(alloc, *keyed, store, disk)),
        Err(_) => Err(AllocError),
    }
}

// Promise P05, also here; clauses: run, devices, other, known
// Promise P09, also here; clauses: run, devices
/// The same over a script in memory and a sink that keeps what is printed: no device fails, so that the run did what
/// its script means unless memory was wanting or values collide that have to differ.
pub fn run_on_bytes<K: Keyed + Copy>(
    alloc: Global,
    words: &[String],
    keyed: &K,
    source: &mut SteadySource,
    sink: &mut SteadySink,
) -> u8
    ensures other { asks.disk_mode_of (map (λ word. string_bytes word) words.now) ≡ None → SaysWords source.old source.new
        (prints (⟦<SteadySink as Sink>⟧.written sink.old) (⟦<SteadySink as Sink>⟧.faults sink.old) (⟦<SteadySink as Sink>⟧.shortages sink.old))
        (prints (⟦<SteadySink as Sink>⟧.written sink.new) (⟦<SteadySink as Sink>⟧.faults sink.new) (⟦<SteadySink as Sink>⟧.shortages sink.new)) result }
    ensures run { asks.disk_mode_of (map (λ word. string_bytes word) words.now) ≡ Some asks.RunOn → IfSome (⟦<SteadySource as Source>⟧.remaining source.old) (λ bytes. RunsInProcess (keyed_fn K.prf K.pad) bytes
        (prints (⟦<SteadySink as Sink>⟧.written sink.old) (⟦<SteadySink as Sink>⟧.faults sink.old) (⟦<SteadySink as Sink>⟧.shortages sink.old))
        (prints (⟦<SteadySink as Sink>⟧.written sink.new) (⟦<SteadySink as Sink>⟧.faults sink.new) (⟦<SteadySink as Sink>⟧.shortages sink.new)) result) }
    ensures more { asks.disk_mode_of (map (λ word. string_bytes word) words.now) ≡ Some asks.More → HasNoJournal source.old source.new
        (prints (⟦<SteadySink as Sink>⟧.written sink.old) (⟦<SteadySink as Sink>⟧.faults sink.old) (⟦<SteadySink as Sink>⟧.shortages sink.old))
        (prints (⟦<SteadySink as Sink>⟧.written sink.new) (⟦<SteadySink as Sink>⟧.faults sink.new) (⟦<SteadySink as Sink>⟧.shortages sink.new)) result }
    ensures devices { LeavesDevices (gives (⟦<SteadySource as Source>⟧.remaining source.old) (⟦<SteadySource as Source>⟧.faults source.old)) (gives (⟦<SteadySource as Source>⟧.remaining source.new) (⟦<SteadySource as Source>⟧.faults source.new))
        (prints (⟦<SteadySink as Sink>⟧.written sink.old) (⟦<SteadySink as Sink>⟧.faults sink.old) (⟦<SteadySink as Sink>⟧.shortages sink.old))
        (prints (⟦<SteadySink as Sink>⟧.written sink.new) (⟦<SteadySink as Sink>⟧.faults sink.new) (⟦<SteadySink as Sink>⟧.shortages sink.new)) unseen_link unseen_link 0 0 result }
    ensures known { asks.disk_mode_of (map (λ word. string_bytes word) words.now) ≡ Some asks.RunOn → (result ≤ 9) × (result ≢ 3) × (result ≢ 4) × (result ≢ 5) × (result ≢ 6) }
{
    run_in_process(alloc, words, keyed, source, sink)
}
