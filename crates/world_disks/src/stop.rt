ghost use Rattle.std.specs.Prelude.{◌≡◌, ◌+◌, ◌-◌, ◌^◌, ◌≤◌, ℕ, List, min, Some, IfSome, OnOk, OnErr, Bool};
ghost use Rattle.outside_memory_disk.specs.MemDisk.{next_call_of, fail_more_of};
ghost use Rattle.sse_journal.specs.declared.journal.Journal.{Journal};
ghost use Rattle.world_model.specs.World.{Disk as Model};
ghost use Rattle.world_model.specs.Events.{left};
ghost use Rattle.world_disks.specs.Disks.{IsDiskOf, IsImageOf, Holds, IsMet, IsUnmet};

use outside_memory_disk::MemDisk;
use std::alloc::AllocError;

/// A stop inside the call of this number, from 1, of those that a disk is asked to make from now on; and the number of the
/// image that it leaves.
#[derive(Clone, Copy, Debug, PartialEq, Eq)]
pub struct Stop {
    pub call: u64,
    pub pick: u64,
}

/// Whether a stop came.
#[derive(Clone, Copy, Debug, PartialEq, Eq)]
pub enum Met {
    /// No stop is among the calls.
    No,
    /// It came, and the disk is the image that it leaves.
    Yes,
    /// It came, and there is no memory for that image.
    NoMemory,
}

// Promise P305, also here; clauses: image, settles, err
/// The disk becomes the image of this number that a crash now may leave. Without memory it stays.
pub fn crash(disk: &mut MemDisk, pick: u64) -> Result<(), AllocError>
    ensures image { OnOk result (IsImageOf pick disk.old disk.new) }
    ensures settles { OnOk result ((model : Model (List ℕ)) → IsDiskOf model disk.old → (there : Bool) × IsDiskOf (left there model) disk.new) }
    ensures err { OnErr result (disk.new ≡ disk.old) }
{
    let image = disk.image(pick)?;
    *disk = image;
    Ok(())
}

// Promise P305, also here; clauses: planned, next, disk, holds
/// Has the call of this number from now on, from 1, fail on the disk, in place of one that was planned before. What the
/// disk holds stays.
pub fn plan_stop(disk: &mut MemDisk, stop: Stop)
    requires { 1 ≤ stop.call }
    ensures planned { fail_more_of disk.new ≡ Some (min (next_call_of disk.old + (stop.call - 1)) (2 ^ 64 - 1)) }
    ensures next { next_call_of disk.new ≡ next_call_of disk.old }
    ensures disk { (model : Model (List ℕ)) → IsDiskOf model disk.old → IsDiskOf model disk.new }
    ensures holds { (payloads : List (List ℕ)) (journal : Journal) → Holds payloads journal disk.old → Holds payloads journal disk.new }
{
    disk.fail_after(stop.call);
}

// Promise P305 (caller): A stop comes exactly if its number is among the disk's calls; the disk then becomes the chosen image of a crash.
//   clauses: yes, image, no, no_memory; assumes: earlier calls
/// Whether a stop is among so many calls of a disk. Then the disk becomes the image that the stop leaves, if there is
/// memory for it; else the disk stays.
pub fn stop_if_met(disk: &mut MemDisk, stop: Option<Stop>, calls: u64) -> Met
    ensures yes { result ≡ Met.Yes → IsMet stop calls × ((model : Model (List ℕ)) → IsDiskOf model disk.old → (there : Bool) × IsDiskOf (left there model) disk.new) }
    ensures image { result ≡ Met.Yes → IfSome stop (λ s. IsImageOf s.pick disk.old disk.new) }
    ensures no { result ≡ Met.No → IsUnmet stop calls × (disk.new ≡ disk.old) }
    ensures no_memory { result ≡ Met.NoMemory → IsMet stop calls × (disk.new ≡ disk.old) }
{
    match stop {
        None => Met::No,
        Some(stop) => {
            if calls < stop.call {
                return Met::No;
            }
            match crash(disk, stop.pick) {
                Ok(()) => Met::Yes,
                Err(_) => Met::NoMemory,
            }
        }
    }
}
