ghost use Rattle.std.specs.Prelude.{◌≡◌, ◌-◌, Bool, Err, IfSome};
ghost use Rattle.sse_frames.specs.Frames.{FrameText};
ghost use Rattle.sse_server.specs.Taken.{AreTaken};
ghost use Rattle.server_core.specs.State.{at_first};
ghost use Rattle.server_tables.specs.Contents.{no_contents};
ghost use Rattle.outside_memory_disk.specs.MemDisk.{next_call_of};
ghost use Rattle.world_model.specs.World.{Disk as Model};
ghost use Rattle.world_model.specs.Events.{left};
ghost use Rattle.world_server.specs.Serving.{Serves, IsDiskOfFrames};
ghost use Rattle.world_server.specs.Opening.{IsOpened};

use outside_memory_disk::MemDisk;
use server_tables::Tables;
use sse_server::Store;
use std::alloc::Global;
use world_disks::{Met, Stop, Unstarted, stop_if_met};

/// Starts a store on a disk whose records are the bodies of frames that a server takes, and counts the calls of the disk;
/// nothing if it isn't started.
fn open_counted<T: Tables>(alloc: Global, tables: T, disk: &mut MemDisk) -> (Option<Store<T>>, u64)
    requires empty { T.contents tables ≡ no_contents }
    ensures made { IfSome result.0 (λ store. (model : Model FrameText) → ((there : Bool) → AreTaken at_first (left there model).records) → IsDiskOfFrames model disk.old →
        (there : Bool) × Serves (left there model).records store disk.new) }
    ensures disk { (model : Model FrameText) → IsDiskOfFrames model disk.old → IsDiskOfFrames model disk.new }
    ensures counted { result.1 ≡ next_call_of disk.new - next_call_of disk.old }
{
    let before = disk.calls();
    let started = Store::start(alloc, tables, disk);
    let calls = disk.calls().saturating_sub(before);
    match started {
        Ok(store) => (Some(store), calls),
        Err(_) => (None, calls),
    }
}

// Promise P308 (caller): A server that may stop starts with exactly the frames of its disk taken, the one in doubt taken or not.
//   clauses: opened, counted; assumes: earlier calls
/// Starts a store on a disk that may stop inside a call, and counts the calls of the disk. The records of the disk are the
/// bodies of frames that a server takes.
pub fn open<T: Tables>(
    alloc: Global,
    tables: T,
    disk: &mut MemDisk,
    stop: Option<Stop>,
) -> (Result<Store<T>, Unstarted>, u64)
    requires empty { T.contents tables ≡ no_contents }
    ensures opened { (model : Model FrameText) → ((there : Bool) → AreTaken at_first (left there model).records) → IsDiskOfFrames model disk.old →
        IsOpened model stop result.0 result.1 disk.new }
    ensures counted { (result.0 ≡ Err Unstarted.Stopped → ⊥) → result.1 ≡ next_call_of disk.new - next_call_of disk.old }
{
    let (store, calls) = open_counted(alloc, tables, disk);
    match stop_if_met(disk, stop, calls) {
        Met::Yes => (Err(Unstarted::Stopped), calls),
        Met::NoMemory => (Err(Unstarted::Broken), calls),
        Met::No => match store {
            Some(store) => (Ok(store), calls),
            None => (Err(Unstarted::Broken), calls),
        },
    }
}
