ghost use Rattle.std.specs.Prelude.{◌≡◌, ◌-◌, ℕ, List, Bool, IfSome, OnOk};
ghost use Rattle.outside_memory_disk.specs.MemDisk.{next_call_of};
ghost use Rattle.world_model.specs.World.{Disk as Model};
ghost use Rattle.world_model.specs.Events.{left};
ghost use Rattle.world_disks.specs.Disks.{IsDiskOf, Holds, IsStarted};

use crate::Stop;
use crate::stop::{Met, stop_if_met};
use outside_memory_disk::MemDisk;
use sse_journal::Journal;
use std::alloc::Global;

/// Why a side wasn't started.
#[derive(Clone, Copy, Debug, PartialEq, Eq)]
pub enum Unstarted {
    /// It has stopped inside the start: the disk is the image that the stop leaves.
    Stopped,
    /// A call of the disk failed without a stop, or memory ran out: the disk stays as the calls left it.
    Broken,
}

// Promise P306, also here; clauses: made, disk, counted
/// Starts the journal of a disk from which starting gives records, and counts the calls of the disk; nothing if it isn't
/// started.
pub fn start_counted(alloc: Global, disk: &mut MemDisk) -> (Option<Journal>, u64)
    requires gives { (model : Model (List ℕ)) × IsDiskOf model disk.old }
    ensures made { IfSome result.0 (λ journal. (model : Model (List ℕ)) → IsDiskOf model disk.old → (there : Bool) × Holds (left there model).records journal disk.new) }
    ensures disk { (model : Model (List ℕ)) → IsDiskOf model disk.old → IsDiskOf model disk.new }
    ensures counted { result.1 ≡ next_call_of disk.new - next_call_of disk.old }
{
    let before = disk.calls();
    let started = Journal::start(alloc, disk);
    let calls = disk.calls().saturating_sub(before);
    match started {
        Ok(journal) => (Some(journal), calls),
        Err(_) => (None, calls),
    }
}

// Promise P306, also here; clauses: started, counted
/// Starts the journal on a disk that may stop inside a call, and counts the calls of the disk.
pub fn start(
    alloc: Global,
    disk: &mut MemDisk,
    stop: Option<Stop>,
) -> (Result<Journal, Unstarted>, u64)
    requires gives { (model : Model (List ℕ)) × IsDiskOf model disk.old }
    ensures started { (model : Model (List ℕ)) → IsDiskOf model disk.old → IsStarted model stop result.0 result.1 disk.new }
    ensures counted { OnOk result.0 (result.1 ≡ next_call_of disk.new - next_call_of disk.old) }
{
    let (started, calls) = start_counted(alloc, disk);
    match stop_if_met(disk, stop, calls) {
        Met::Yes => (Err(Unstarted::Stopped), calls),
        Met::NoMemory => (Err(Unstarted::Broken), calls),
        Met::No => match started {
            Some(journal) => (Ok(journal), calls),
            None => (Err(Unstarted::Broken), calls),
        },
    }
}
