ghost use Rattle.std.specs.Prelude.{◌≡◌, ◌+◌, ◌-◌, ◌≤◌, ℕ, List, [], ◌∷◌, ◌++◌, length, IsSome};
ghost use Rattle.sse_journal.specs.Files.{IsPayload};
ghost use Rattle.sse_journal.specs.JournalView.{room_of, broken_by};
ghost use Rattle.outside_memory_disk.specs.MemDisk.{next_call_of};
ghost use Rattle.world_model.specs.Events.{in_doubt, settled};
ghost use Rattle.world_disks.specs.Disks.{IsDiskOf, Holds, IsAppended};

use crate::Stop;
use crate::stop::{Met, stop_if_met};
use outside_memory_disk::MemDisk;
use sse_journal::Journal;

/// How the append of a record ended.
#[derive(Clone, Copy, Debug, PartialEq, Eq)]
pub enum Appended {
    /// The record is there.
    Made,
    /// The side has stopped inside the append: the disk is the image that the stop leaves.
    Stopped,
    /// There was no memory for the record, and nothing has changed.
    NoMemory,
    /// A call of the disk failed without a stop, or had no memory, or there was none for the image: the record is there or not.
    Broken,
}

/// How an append without a stop ended.
#[derive(Clone, Copy, Debug, PartialEq, Eq)]
enum Ended {
    Made,
    Failed,
}

/// Appends a record to a journal that takes more, and counts the calls of its disk.
fn append_counted(journal: &mut Journal, disk: &mut MemDisk, payload: &[u8]) -> (Ended, u64)
    requires payload { IsPayload payload.now }
    requires holds { (payloads : List (List ℕ)) × Holds payloads journal.old disk.old }
    requires room { length payload.now + 5 ≤ room_of journal.old }
    ensures made { result.0 ≡ Ended.Made → (payloads : List (List ℕ)) → Holds payloads journal.old disk.old → Holds (payloads ++ payload.now ∷ []) journal.new disk.new }
    ensures disk { (payloads : List (List ℕ)) → Holds payloads journal.old disk.old → IsDiskOf (in_doubt (settled payloads) payload.now) disk.new }
    ensures failed { result.0 ≡ Ended.Failed → IsSome (broken_by journal.new) }
    ensures counted { result.1 ≡ next_call_of disk.new - next_call_of disk.old }
{
    let before = disk.calls();
    let ended = match journal.append(disk, payload) {
        Ok(()) => Ended::Made,
        Err(_) => Ended::Failed,
    };
    (ended, disk.calls().saturating_sub(before))
}

// Promise P306 (caller): An append or a start is made unless a stop came; then the disk has the earlier records, with the one in hand or not.
//   clauses: appended, counted; assumes: earlier calls, sizes in bounds
/// Appends a record to the journal on a disk that may stop inside a call, and counts the calls of the disk.
pub fn append(
    journal: &mut Journal,
    disk: &mut MemDisk,
    payload: &[u8],
    stop: Option<Stop>,
) -> (Appended, u64)
    requires payload { IsPayload payload.now }
    requires holds { (payloads : List (List ℕ)) × Holds payloads journal.old disk.old }
    ensures appended { (payloads : List (List ℕ)) → Holds payloads journal.old disk.old → IsAppended payloads payload.now stop result.0 result.1 journal.new disk.new }
    ensures counted { result.0 ≡ Appended.Made → result.1 ≡ next_call_of disk.new - next_call_of disk.old }
{
    if journal.reserve(payload.len() as u32).is_err() {
        return (Appended::NoMemory, 0);
    }
    let (ended, calls) = append_counted(journal, disk, payload);
    let appended = match (stop_if_met(disk, stop, calls), ended) {
        (Met::No, Ended::Made) => Appended::Made,
        (Met::No, Ended::Failed) => Appended::Broken,
        (Met::Yes, _) => Appended::Stopped,
        (Met::NoMemory, _) => Appended::Broken,
    };
    (appended, calls)
}
