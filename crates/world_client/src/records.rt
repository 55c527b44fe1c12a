ghost use Rattle.std.specs.Prelude.{◌≡◌, ◌-◌, ℕ, List};
ghost use Rattle.client_core.specs.Payloads.{renewal_payload, setup_payload, update_payload};
ghost use Rattle.outside_memory_disk.specs.MemDisk.{next_call_of};
ghost use Rattle.world_disks.specs.Disks.{Holds, IsAppended};

use client_core::{Planned, PlannedRenewal, PlannedUpdate};
use outside_memory_disk::MemDisk;
use sse_journal::Journal;
use std::alloc::Global;
use world_disks::{Appended, Stop, append};

/// Appends the record of a planned setup, and counts the calls of the disk.
pub(crate) fn append_setup(
    alloc: Global,
    planned: &Planned,
    journal: &mut Journal,
    disk: &mut MemDisk,
    stop: Option<Stop>,
) -> (Appended, u64)
    requires holds { (payloads : List (List ℕ)) × Holds payloads journal.old disk.old }
    ensures appended { (payloads : List (List ℕ)) → Holds payloads journal.old disk.old → IsAppended payloads (setup_payload planned.now) stop result.0 result.1 journal.new disk.new }
    ensures counted { result.0 ≡ Appended.Made → result.1 ≡ next_call_of disk.new - next_call_of disk.old }
{
    let mut payload = Vec::new(alloc);
    if planned.payload_into(&mut payload).is_err() {
        return (Appended::NoMemory, 0);
    }
    append(journal, disk, &payload, stop)
}

/// The same of a planned update.
pub(crate) fn append_update(
    alloc: Global,
    planned: &PlannedUpdate,
    journal: &mut Journal,
    disk: &mut MemDisk,
    stop: Option<Stop>,
) -> (Appended, u64)
    requires holds { (payloads : List (List ℕ)) × Holds payloads journal.old disk.old }
    ensures appended { (payloads : List (List ℕ)) → Holds payloads journal.old disk.old → IsAppended payloads (update_payload planned.now) stop result.0 result.1 journal.new disk.new }
    ensures counted { result.0 ≡ Appended.Made → result.1 ≡ next_call_of disk.new - next_call_of disk.old }
{
    let mut payload = Vec::new(alloc);
    if planned.payload_into(&mut payload).is_err() {
        return (Appended::NoMemory, 0);
    }
    append(journal, disk, &payload, stop)
}

/// The same of a planned renewal of the key.
pub(crate) fn append_renewal(
    alloc: Global,
    planned: &PlannedRenewal,
    journal: &mut Journal,
    disk: &mut MemDisk,
    stop: Option<Stop>,
) -> (Appended, u64)
    requires holds { (payloads : List (List ℕ)) × Holds payloads journal.old disk.old }
    ensures appended { (payloads : List (List ℕ)) → Holds payloads journal.old disk.old → IsAppended payloads (renewal_payload planned.now) stop result.0 result.1 journal.new disk.new }
    ensures counted { result.0 ≡ Appended.Made → result.1 ≡ next_call_of disk.new - next_call_of disk.old }
{
    let mut payload = Vec::new(alloc);
    if planned.payload_into(&mut payload).is_err() {
        return (Appended::NoMemory, 0);
    }
    append(journal, disk, &payload, stop)
}
