ghost use Rattle.std.specs.Prelude.{◌≡◌, ◌≢◌, ◌≤◌, [], None, Some, map, string_bytes};
ghost use Rattle.keyed_fn.specs.KeyedFn.{keyed_fn};
ghost use Rattle.outside_memory_disk.specs.SteadyDisk.{file_of};
ghost use Rattle.script_run_texts.specs.Words as asks;
ghost use Rattle.sse_client.specs.Calls.{shows};
ghost use Rattle.sse_client.specs.NoRecord.{OverNoRecord};
ghost use Rattle.sse_client.specs.OverStore.{BeginsOverStore, LeavesStore, ResumesOverStore};
ghost use Rattle.client_journal.specs.Shows.{gives, prints};
ghost use Rattle.sse_client.specs.WholeRuns.{DoesNothing, LeavesDevices};
ghost use Rattle.sse_journal.specs.Files.{Gives};

use crate::on_disk::run_on_disk;
use keyed_fn::Keyed;
use outside_memory_disk::SteadyDisk;
use server_tables::Tables;
use sse_link::SteadyStoreLoopback;
use sse_outside::{Disk, Sink, Source};
use std::alloc::Global;

// Promise P18 (user): Over a store in the same process, an undisturbed run leaves exactly its records in the client's file and its updates in the server's.
//   clauses: begun, more, store, known; fields: BeginsOverStore.both, ResumesOverStore.both, LeavesStore.over, LeavesStore.honest, LeavesStore.stored, IsOnBothSides.headline,
//     IsOnBothSides.own_file, IsOnBothSides.stored, IsRejoinedOnBothSides.rejoined, IsRejoinedOnBothSides.own_file, IsRejoinedOnBothSides.stored; assumes: observable devices, no collision, no device fault, enough memory; not: `run` assumes a client file without records and a
//     server that expects a setup; `more` a resumable state. The server's file: if it was a journal when the link began.
/// The same as `run_on_disk` for a client's disk in memory, over a link to a store in this process with a disk of its own, whatever passed
/// over it before: neither disk fails, nor does the link, and all that passes over it is honest.
///
/// Where source and sink didn't fail and memory wasn't wanting, the run did what its script means, unless values collide that have to
/// differ, and both files say so: the client's is exactly that of its old records and then the run's, and the store's has the updates among its
/// frames.
pub fn run_over_store<K: Keyed, T: Tables, S: Source, W: Sink>(
    alloc: Global,
    words: &[String],
    keyed: &K,
    link: &mut SteadyStoreLoopback<K, T>,
    disk: SteadyDisk,
    source: &mut S,
    sink: &mut W,
) -> (u8, SteadyDisk)
    ensures other { asks.disk_mode_of (map (λ word. string_bytes word) words.now) ≡ None → DoesNothing source.old source.new link.old link.new disk result.1
        (prints (W.written sink.old) (W.faults sink.old) (W.shortages sink.old)) (prints (W.written sink.new) (W.faults sink.new) (W.shortages sink.new)) result.0 }
    ensures begun { asks.disk_mode_of (map (λ word. string_bytes word) words.now) ≡ Some asks.RunOn → BeginsOverStore (keyed_fn K.prf K.pad) (S.remaining source.old) link.old link.new disk result.1
        (prints (W.written sink.old) (W.faults sink.old) (W.shortages sink.old)) (prints (W.written sink.new) (W.faults sink.new) (W.shortages sink.new)) result.0 }
    ensures more { asks.disk_mode_of (map (λ word. string_bytes word) words.now) ≡ Some asks.More → ResumesOverStore (keyed_fn K.prf K.pad) (S.remaining source.old) link.old link.new disk result.1
        (prints (W.written sink.old) (W.faults sink.old) (W.shortages sink.old)) (prints (W.written sink.new) (W.faults sink.new) (W.shortages sink.new)) result.0 }
    ensures store { LeavesStore (keyed_fn K.prf K.pad) (S.remaining source.old) link.old link.new }
    ensures devices { LeavesDevices (gives (S.remaining source.old) (S.faults source.old)) (gives (S.remaining source.new) (S.faults source.new))
        (prints (W.written sink.old) (W.faults sink.old) (W.shortages sink.old)) (prints (W.written sink.new) (W.faults sink.new) (W.shortages sink.new))
        (shows (Some link.old.events) 0 None) (shows (Some link.new.events) 0 None) 0 0 result.0 }
    ensures known { (result.0 ≤ 11) × (result.0 ≢ 5) × (result.0 ≢ 6) }
    ensures no_record { Gives [] (file_of disk) → OverNoRecord (asks.disk_mode_of (map (λ word. string_bytes word) words.now)) source.old source.new
        (Some link.old.events) (Some link.new.events) (Some (file_of disk)) (Some (file_of result.1))
        (prints (W.written sink.old) (W.faults sink.old) (W.shortages sink.old)) (prints (W.written sink.new) (W.faults sink.new) (W.shortages sink.new)) result.0 }
{
    // Its contract says that all that passed is honest, and what the store's file holds: before the run and behind it.
    let _before = link.transcript();
    let run = run_on_disk(alloc, words, keyed, link, disk, source, sink);
    let _behind = link.transcript();
    run
}
