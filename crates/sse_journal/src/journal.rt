ghost use Rattle.std.specs.Prelude.{◌≡◌, ◌≢◌, ◌⊎◌, ◌↔◌, ℕ, ◌+◌, ◌^◌, ◌<◌, ◌≤◌, List, [], ◌∷◌, ◌++◌, length, is_some, Some, None, IfSome, IsSome, OnOk, OnErr, IfOk, IfErr, IsErr, IsErrOf, Ok, Err};
ghost use Rattle.sse_outside.specs.Causes.{Rose};
ghost use Rattle.sse_outside.specs.Images.{NoOther};
ghost use Rattle.sse_journal.specs.Files.{IsPayload, Gives, GivesAs, GivesWithOrWithout};
ghost use Rattle.sse_journal.specs.Holds.{IsAllOf};
ghost use Rattle.sse_journal.specs.Walks.{IsNoJournalAt};
ghost use Rattle.sse_journal.specs.Reads.{place_of, IsRead};
ghost use Rattle.sse_journal.specs.AnyMoment.{LeavesOnly, HasSynced};
ghost use Rattle.sse_journal.specs.Faults.{append_fault};

use crate::append_steps::{append_at, frame};
use crate::payload::read_record;
use crate::start::start_synced;
use crate::{AppendFault, NoMemory, ReadFault, StartFault};
use sse_outside::{DeviceFault, Disk};
use std::alloc::Global;

/// A journal: where its records end on its disk, and how many they are.
///
/// It doesn't hold the disk. Each call that uses the file takes it, and speaks of a journal of certain records
/// (`IsJournalOf`): where the disk tells its content, it reads as the file of these records, with this journal's end and
/// count, and every crash leaves that file. `start` makes it so, and each `append` that is `Ok` goes on from it.
#[derive(Drop)]
pub struct Journal {
    end: u64,
    records: u64,
    buffer: Vec<u8>,
    broken: Option<DeviceFault>,
    ghost in_limit: { end < 2 ^ 63 },
    ghost counted: { records ≤ end },
}

impl Journal {
    ghost use Rattle.sse_journal.specs.JournalView.{end_of, records_of, room_of, broken_by, IsJournalOf, IsJournalFrom};

    // Promise P114 (caller): Starting a journal yields exactly the records that its file gives, and leaves a file of just those.
    //   clauses: started, whole, within, told; assumes: observable devices
    // Promise P115 (caller): Once the first sync of a start succeeds, a crash leaves a file that gives the records of the file as it read.
    //   clauses: any_moment; assumes: observable devices, disk model; not: Up to that sync a crash leaves a file that it might have left before.
    // Promise P116 (caller): `NotAJournal(place)` comes only if the file stops being a journal there, and leaves that file.
    //   clauses: no_journal, refused, accepted; assumes: observable devices; not: That it comes when the disk fails or memory runs out: then that is the answer.
    // Promise P124 (caller): A journal's calls answer that the disk failed only if its fault count rose, and with every other answer it stays.
    //   clauses: later, failed, steady; assumes: earlier calls, sizes in bounds
    /// Starts the journal in the file of a disk. A file of less than nine bytes becomes one without records; of any
    /// other the records are counted, and what is behind them is cut: a record that an append didn't come to commit.
    ///
    /// It begins with a sync. Where that is refused, a crash leaves what it might have left before. Once it has succeeded
    /// a crash at any moment of the call, and after any later refusal, leaves a file that gives the same records.
    ///
    /// Errors: `DiskFault` where the disk failed; `NotAJournal(place)` where the file stops being a journal at this
    /// place, with the file as it was; `NoMemory` from the disk. The journal takes no memory here.
    pub fn start<D: Disk>(alloc: Global, disk: &mut D) -> Result<Journal, StartFault>
        ensures started { IfOk result (λ journal. IfSome (D.content disk.old) (λ bytes. IsJournalFrom bytes journal (D.content disk.new) (D.images disk.new))) }
        ensures whole { IfOk result (λ journal. broken_by journal ≡ None) }
        ensures within { IfOk result (λ journal. IfSome (D.content disk.new) (λ bytes. end_of journal + 1 ≤ length bytes)) }
        ensures any_moment { HasSynced D.content D.images D.moment D.left_since disk.old disk.new GivesAs
            ⊎ ((IsErr result) × LeavesOnly D.moment D.left_since disk.old disk.new (D.images disk.old)) }
        ensures told { is_some (D.content disk.new) ≡ is_some (D.content disk.old) }

        // Of a file that is no journal at a place: that error, unless a fault of the disk comes first.
        ensures no_journal { (place : ℕ) → result ≡ Err (StartFault.NotAJournal place) →
            IfSome (D.content disk.old) (λ bytes. IsNoJournalAt bytes place × IsAllOf bytes (D.content disk.new) (D.images disk.new)) }
        ensures refused { IfSome (D.content disk.old) (λ bytes. (place : ℕ) → IsNoJournalAt bytes place →
            (IsErr result) × ((other : ℕ) → result ≡ Err (StartFault.NotAJournal other) → other ≡ place)) }
        ensures accepted { IfSome (D.content disk.old) (λ bytes. (payloads : List (List ℕ)) → Gives payloads bytes →
            (place : ℕ) → result ≢ Err (StartFault.NotAJournal place)) }

        // The count of faults.
        ensures later { D.faults disk.old ≤ D.faults disk.new }
        ensures failed { IsErrOf result StartFault.DiskFault → Rose (D.faults disk.old) (D.faults disk.new) }
        ensures steady { result ≢ Err StartFault.DiskFault → D.faults disk.new ≡ D.faults disk.old }
    {
        disk.sync()?;
        let (end, records) = start_synced(disk)?;
        Ok(Journal {
            end,
            records,
            buffer: Vec::new(alloc),
            broken: None,
        })
    }

    // Promise P117, also here; clauses: ensures
    /// How many records there are.
    pub fn records(&self) -> u64
        ensures { result ≡ records_of self.now }
    {
        self.records
    }

    // Promise P113, also here; clauses: ensures
    /// Why the first append was refused that was, and nothing where none was. A journal that is broken has to be
    /// started again.
    pub fn broken(&self) -> Option<DeviceFault>
        ensures { result ≡ broken_by self.now }
    {
        self.broken
    }

    // Promise P117, also here; clauses: value, place
    /// The place of the first record, for `read`: 8, and the end where there is no record.
    pub fn first(&self) -> u64
        ensures value { result ≡ 8 }
        ensures place { (payloads : List (List ℕ)) → result ≡ place_of payloads 0 }
    {
        8
    }

    /// Takes the memory of the following appends of payloads of at most `n` bytes. After an error the journal is as
    /// before but for its room.
    pub fn reserve(&mut self, n: u32) -> Result<(), NoMemory>
        ensures room { OnOk result (n + 5 ≤ room_of self.new) }
        ensures end { end_of self.new ≡ end_of self.old }
        ensures records { records_of self.new ≡ records_of self.old }
        ensures broken { broken_by self.new ≡ broken_by self.old }
    {
        self.buffer.clear();
        self.buffer.reserve(n as usize + 5)
    }

    // Promise P21 (user): A record that was appended is there after every crash.
    //   clauses: added, counted, within_after, room; assumes: observable devices, disk model, earlier calls, sizes in bounds
    // Promise P22 (user): A crash during an append leaves the earlier records, with the new one or without it.
    //   clauses: any_moment, not_counted; assumes: observable devices, disk model, earlier calls, sizes in bounds; not: Which of the two. That the end of the file is clean: `start` makes
    //     it so.
    // Promise P113 (caller): After a refused append a journal takes nothing more, and `broken` keeps the first refusal's cause.
    //   clauses: broken, untouched, breaks, is_broken, stays, whole; assumes: earlier calls, sizes in bounds
    // Promise P124, also here; clauses: later, failed, steady
    /// Appends a record of 1 to 2^27 bytes for which there is room (`reserve`), by two writes with a sync after each.
    /// It takes no memory but what the disk takes.
    ///
    /// From `Ok` on every crash leaves the record there. A crash at any moment of the call, and after an error, leaves
    /// the records of before, with the new one or without.
    ///
    /// Errors: `Broken` exactly where an earlier append on this journal was refused, and then the disk isn't touched;
    /// `DiskFault` where the disk failed; `NoMemory` from the disk. After each of them the journal is broken: what the
    /// end of the file holds isn't known, and it has to be started again.
    pub fn append<D: Disk>(&mut self, disk: &mut D, payload: &[u8]) -> Result<(), AppendFault>
        requires payload { IsPayload payload.now }
        requires room { length payload.now + 5 ≤ room_of self.old }
        requires within { broken_by self.old ≡ None → IfSome (D.content disk.old) (λ bytes. end_of self.old + 1 ≤ length bytes) }
        ensures added { OnOk result ((payloads : List (List ℕ)) → IsJournalOf payloads self.old (D.content disk.old) (D.images disk.old) →
            IsJournalOf (payloads ++ payload.now ∷ []) self.new (D.content disk.new) (D.images disk.new)) }
        ensures any_moment { (payloads : List (List ℕ)) → broken_by self.old ≡ None → IsJournalOf payloads self.old (D.content disk.old) (D.images disk.old) →
            LeavesOnly D.moment D.left_since disk.old disk.new (GivesWithOrWithout payloads payload.now) }
        ensures counted { OnOk result ((end_of self.new ≡ end_of self.old + (5 + length payload.now)) × (records_of self.new ≡ records_of self.old + 1)) }
        ensures not_counted { OnErr result ((end_of self.new ≡ end_of self.old) × (records_of self.new ≡ records_of self.old)) }
        ensures room { room_of self.old ≤ room_of self.new }
        ensures within_after { OnOk result (IfSome (D.content disk.new) (λ bytes. end_of self.new + 1 ≤ length bytes)) }
        ensures told { is_some (D.content disk.new) ≡ is_some (D.content disk.old) }

        // Whether it is broken.
        ensures broken { IsErrOf result AppendFault.Broken ↔ IsSome (broken_by self.old) }
        ensures untouched { IsErrOf result AppendFault.Broken → disk.new ≡ disk.old }
        ensures breaks { broken_by self.old ≡ None → IfErr result (λ fault. IfSome (broken_by self.new) (λ why. fault ≡ append_fault why)) }
        ensures is_broken { OnErr result (IsSome (broken_by self.new)) }
        ensures stays { IsSome (broken_by self.old) → broken_by self.new ≡ broken_by self.old }
        ensures whole { OnOk result (broken_by self.new ≡ None) }

        // The count of faults.
        ensures later { D.faults disk.old ≤ D.faults disk.new }
        ensures failed { IsErrOf result AppendFault.DiskFault → Rose (D.faults disk.old) (D.faults disk.new) }
        ensures steady { result ≢ Err AppendFault.DiskFault → D.faults disk.new ≡ D.faults disk.old }
    {
        if self.broken.is_some() {
            return Err(AppendFault::Broken);
        }
        frame(&mut self.buffer, payload);
        match append_at(disk, self.end, &self.buffer) {
            Ok(()) => {
                self.end += 5 + payload.len() as u64;
                self.records += 1;
                Ok(())
            }
            Err(fault) => {
                self.broken = Some(fault);
                Err(AppendFault::from(fault))
            }
        }
    }

    // Promise P117 (caller): Records are read in order, each with its payload and the next place, and nothing exactly at the end.
    //   clauses: payload, never, end, next, empty, place, kept, images_kept, quiet; assumes: earlier calls
    // Promise P124, also here; clauses: later, failed, steady
    /// Reads the record at a place into `out`, in the place of what was there, and gives the next place; `None` exactly
    /// where the place is the end or after it. The first place is `first`. The file isn't changed.
    ///
    /// Errors: `DiskFault` where the disk failed; `NotAJournal(at)` where the bytes that were read there are no record,
    /// which never comes at a place of a record over a disk that tells its content; `NoMemory` where there is none for
    /// the record, of at most 2^27 bytes. After `None` and after an error `out` is empty.
    pub fn read<D: Disk>(
        &self,
        disk: &mut D,
        at: u64,
        out: &mut Vec<u8>,
    ) -> Result<Option<u64>, ReadFault>
        ensures payload { (payloads : List (List ℕ)) (k : ℕ) → IsJournalOf payloads self.now (D.content disk.old) (D.images disk.old) →
            k ≤ length payloads → at ≡ place_of payloads k → IfOk result (λ next. IsRead payloads k next out.new.items) }
        ensures never { (payloads : List (List ℕ)) (k : ℕ) → IsJournalOf payloads self.now (D.content disk.old) (D.images disk.old) →
            k ≤ length payloads → at ≡ place_of payloads k → result ≢ Err (ReadFault.NotAJournal at) }
        ensures end { (result ≡ Ok None) ↔ (end_of self.now ≤ at) }
        ensures next { IfOk result (λ next. IfSome next (λ place. place ≡ at + (5 + length out.new.items))) }
        ensures empty { (result ≡ Ok None) ⊎ (IsErr result) → out.new.items ≡ [] }
        ensures place { (place : ℕ) → result ≡ Err (ReadFault.NotAJournal place) → place ≡ at }

        // The disk stays.
        ensures kept { D.content disk.new ≡ D.content disk.old }
        ensures images_kept { NoOther (D.images disk.old) (D.images disk.new) }
        ensures quiet { LeavesOnly D.moment D.left_since disk.old disk.new (D.images disk.old) }

        // The count of faults.
        ensures later { D.faults disk.old ≤ D.faults disk.new }
        ensures failed { IsErrOf result ReadFault.DiskFault → Rose (D.faults disk.old) (D.faults disk.new) }
        ensures steady { result ≢ Err ReadFault.DiskFault → D.faults disk.new ≡ D.faults disk.old }
    {
        out.clear();
        if at >= self.end {
            return Ok(None);
        }
        match read_record(disk, at, self.end - at + 1, out) {
            Ok(next) => Ok(Some(next)),
            Err(fault) => {
                out.clear();
                Err(fault)
            }
        }
    }
}
