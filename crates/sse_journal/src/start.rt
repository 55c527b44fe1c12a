ghost use Rattle.std.specs.Prelude.{◌≡◌, ◌≢◌, ◌↔◌, true, ℕ, ◌+◌, ◌^◌, ◌<◌, ◌≤◌, List, [], ◌∷◌, ◌++◌, length, take, IfSome, IfOk, OnOk, All, IsErrOf, Err, is_some};
ghost use Rattle.sse_outside.specs.Images.{NoOther, Elapses};
ghost use Rattle.sse_journal.specs.Files.{front, magic, IsPayload, Gives, GivesAs};
ghost use Rattle.sse_journal.specs.Holds.{IsSettled, IsAllOf, IsStarted};
ghost use Rattle.sse_journal.specs.AnyMoment.{LeavesOnly};
ghost use Rattle.sse_journal.specs.Walks.{IsNoJournalAt};
ghost use Rattle.sse_outside.specs.Causes.{Rose, HasCause};

use crate::StartFault;
use crate::repair::{clear_commit, cut_tail, new_file};
use crate::walk::{Walked, walk};
use sse_outside::{DeviceFault, Disk, Failed};

/// Cuts what stands after the commit byte at the end of the records, where bytes do.
fn trim<D: Disk>(disk: &mut D, size: u64, end: u64, commit: u8) -> Result<(), DeviceFault>
    requires end { end < size }
    requires limit { size ≤ 2 ^ 63 }
    requires size { IfSome (D.content disk.old) (λ bytes. size ≡ length bytes) }
    ensures cut { OnOk result ((payloads : List (List ℕ)) (tail : List ℕ) → end ≡ length (front payloads) →
        IsAllOf (front payloads ++ commit ∷ tail) (D.content disk.old) (D.images disk.old) → IsAllOf (front payloads ++ commit ∷ []) (D.content disk.new) (D.images disk.new)) }
    ensures within { OnOk result (IfSome (D.content disk.new) (λ bytes. end ≤ length bytes)) }
    ensures any_moment { (payloads : List (List ℕ)) (tail : List ℕ) → All IsPayload payloads → (commit ≡ 1 → tail ≡ []) → end ≡ length (front payloads) →
        IsAllOf (front payloads ++ commit ∷ tail) (D.content disk.old) (D.images disk.old) → LeavesOnly D.moment D.left_since disk.old disk.new (Gives payloads) }
    ensures told { is_some (D.content disk.new) ≡ is_some (D.content disk.old) }
    ensures later { D.faults disk.old ≤ D.faults disk.new }
    ensures failed { IsErrOf result DeviceFault.Failed → Rose (D.faults disk.old) (D.faults disk.new) }
    ensures steady { result ≢ Err DeviceFault.Failed → D.faults disk.new ≡ D.faults disk.old }
{
    if size > end + 1 {
        return cut_tail(disk, end);
    }
    Ok(())
}

/// Clears the commit byte that is the last byte, where it isn't 0.
fn clear<D: Disk>(disk: &mut D, end: u64, commit: u8) -> Result<(), DeviceFault>
    requires limit { end < 2 ^ 63 }
    requires within { IfSome (D.content disk.old) (λ bytes. end ≤ length bytes) }
    ensures cleared { OnOk result ((payloads : List (List ℕ)) → end ≡ length (front payloads) →
        IsAllOf (front payloads ++ commit ∷ []) (D.content disk.old) (D.images disk.old) → IsSettled payloads (D.content disk.new) (D.images disk.new)) }
    ensures any_moment { (payloads : List (List ℕ)) → All IsPayload payloads → end ≡ length (front payloads) →
        IsAllOf (front payloads ++ commit ∷ []) (D.content disk.old) (D.images disk.old) → LeavesOnly D.moment D.left_since disk.old disk.new (Gives payloads) }
    ensures told { is_some (D.content disk.new) ≡ is_some (D.content disk.old) }
    ensures later { D.faults disk.old ≤ D.faults disk.new }
    ensures failed { IsErrOf result DeviceFault.Failed → Rose (D.faults disk.old) (D.faults disk.new) }
    ensures steady { result ≢ Err DeviceFault.Failed → D.faults disk.new ≡ D.faults disk.old }
{
    if commit != 0 {
        return clear_commit(disk, end);
    }
    Ok(())
}

/// Makes the file one that ends with a commit byte of 0. The cut comes first: while it is made the commit byte keeps
/// its value, and while that is written it is the last byte.
fn tidy<D: Disk>(disk: &mut D, size: u64, w: &Walked) -> Result<(), DeviceFault>
    requires end { w.now.end < size }
    requires limit { size ≤ 2 ^ 63 }
    requires size { IfSome (D.content disk.old) (λ bytes. size ≡ length bytes) }
    ensures settled { OnOk result ((payloads : List (List ℕ)) (tail : List ℕ) → w.now.end ≡ length (front payloads) →
        IsAllOf (front payloads ++ w.now.commit ∷ tail) (D.content disk.old) (D.images disk.old) → IsSettled payloads (D.content disk.new) (D.images disk.new)) }
    ensures any_moment { (payloads : List (List ℕ)) (tail : List ℕ) → All IsPayload payloads → (w.now.commit ≡ 1 → tail ≡ []) → w.now.end ≡ length (front payloads) →
        IsAllOf (front payloads ++ w.now.commit ∷ tail) (D.content disk.old) (D.images disk.old) → LeavesOnly D.moment D.left_since disk.old disk.new (Gives payloads) }
    ensures told { is_some (D.content disk.new) ≡ is_some (D.content disk.old) }
    ensures later { D.faults disk.old ≤ D.faults disk.new }
    ensures failed { IsErrOf result DeviceFault.Failed → Rose (D.faults disk.old) (D.faults disk.new) }
    ensures steady { result ≢ Err DeviceFault.Failed → D.faults disk.new ≡ D.faults disk.old }
{
    trim(disk, size, w.end, w.commit)?;
    clear(disk, w.end, w.commit)?;
    Ok(())
}

/// Whether the file begins as a journal does.
fn begins<D: Disk>(disk: &mut D) -> Result<bool, Failed>
    ensures is { IfOk result (λ yes. IfSome (D.content disk.old) (λ bytes. 8 ≤ length bytes → (yes ≡ true) ↔ (take 8 bytes ≡ magic))) }
    ensures kept { D.content disk.new ≡ D.content disk.old }
    ensures images_kept { NoOther (D.images disk.old) (D.images disk.new) }
    ensures time { Elapses (D.moment disk.old) (D.moment disk.new) (D.left_since disk.old) (D.left_since disk.new) (D.images disk.new) }
    ensures cause { HasCause (D.faults disk.old) (D.faults disk.new) result }
{
    let mut head = [0; 8];
    let n = disk.read_at(0, &mut head)?;
    let (front, _) = head.split_at(n);
    Ok(front == b"SSEJRNL1".as_slice())
}

/// Starts from a file that is durable as it reads: the place where its records end, and how many they are. Of a file that
/// is no journal it never answers `NoMemory`: only repairs have the disk take memory, and such a file gets none.
pub(crate) fn start_synced<D: Disk>(disk: &mut D) -> Result<(u64, u64), StartFault>
    ensures started { IfOk result (λ j. (bytes : List ℕ) → IsAllOf bytes (D.content disk.old) (D.images disk.old) → IsStarted bytes j.0 j.1 (D.content disk.new) (D.images disk.new)) }
    ensures limit { IfOk result (λ j. j.0 < 2 ^ 63) }
    ensures count { IfOk result (λ j. j.1 ≤ j.0) }
    ensures no_journal { (place : ℕ) → result ≡ Err (StartFault.NotAJournal place) → (bytes : List ℕ) → IsAllOf bytes (D.content disk.old) (D.images disk.old) → IsAllOf bytes (D.content disk.new) (D.images disk.new) }
    ensures no_journal_at { (place : ℕ) → result ≡ Err (StartFault.NotAJournal place) → (bytes : List ℕ) → IsAllOf bytes (D.content disk.old) (D.images disk.old) → IsNoJournalAt bytes place }
    ensures not_memory { result ≡ Err StartFault.NoMemory → (bytes : List ℕ) (place : ℕ) → IsAllOf bytes (D.content disk.old) (D.images disk.old) → IsNoJournalAt bytes place → ⊥ }
    ensures any_moment { (bytes : List ℕ) → IsAllOf bytes (D.content disk.old) (D.images disk.old) → LeavesOnly D.moment D.left_since disk.old disk.new (GivesAs bytes) }
    ensures told { is_some (D.content disk.new) ≡ is_some (D.content disk.old) }
    ensures later { D.faults disk.old ≤ D.faults disk.new }
    ensures failed { IsErrOf result StartFault.DiskFault → Rose (D.faults disk.old) (D.faults disk.new) }
    ensures steady { result ≢ Err StartFault.DiskFault → D.faults disk.new ≡ D.faults disk.old }
{
    let size = disk.len()?;
    if size < 9 {
        new_file(disk)?;
        return Ok((8, 0));
    }
    if !begins(disk)? {
        return Err(StartFault::NotAJournal(0));
    }
    let w = match walk(disk, size) {
        Ok(w) => w,
        Err(fault) => return Err(fault),
    };
    tidy(disk, size, &w)?;
    Ok((w.end, w.records))
}
