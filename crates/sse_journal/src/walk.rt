ghost use Rattle.std.specs.Prelude.{◌≡◌, ◌≢◌, ◌+◌, ◌-◌, ◌^◌, ◌<◌, ◌≤◌, ℕ, length, take, drop, IfOk, IfSome, Ok, Err};
ghost use Rattle.sse_outside.specs.Causes.{HasCause, Rose};
ghost use Rattle.sse_outside.specs.Images.{NoOther, Elapses};
ghost use Rattle.sse_journal.specs.Files.{magic};
ghost use Rattle.sse_journal.specs.Heads.{IsHead};
ghost use Rattle.sse_journal.specs.AnyMoment.{LeavesOnly};
ghost use Rattle.sse_journal.specs.Walks.{IsWalked, IsNoRecordAt};

use crate::StartFault;
use crate::head::{Head, look};
use sse_outside::{Disk, Failed};

/// Where the records of a file end, how many they are, and the commit byte there, which isn't set.
#[derive(Drop)]
pub(crate) struct Walked {
    pub end: u64,
    pub records: u64,
    pub commit: u8,
}

/// What stands at a place where a record may begin and `left` bytes are left of the file.
pub(crate) fn head_at<D: Disk>(disk: &mut D, at: u64, left: u64) -> Result<Head, Failed>
    requires some { 0 < left }
    ensures within { (n : ℕ) → result ≡ Ok (Head.Record n) → 5 + n < left }
    ensures head { IfOk result (λ head. IfSome (D.content disk.old) (λ bytes. length (drop at bytes) ≡ left → IsHead head (drop at bytes))) }
    ensures kept { D.content disk.new ≡ D.content disk.old }
    ensures images_kept { NoOther (D.images disk.old) (D.images disk.new) }
    ensures time { Elapses (D.moment disk.old) (D.moment disk.new) (D.left_since disk.old) (D.left_since disk.new) (D.images disk.new) }
    ensures cause { HasCause (D.faults disk.old) (D.faults disk.new) result }
{
    let mut head = [0; 5];
    let n = disk.read_at(at, &mut head)?;
    let (front, _) = head.split_at(n);
    Ok(look(front, left))
}

/// Walks over the records of a file of `size` bytes that begins as a journal does. It reads five bytes of each, and takes
/// no memory.
pub(crate) fn walk<D: Disk>(disk: &mut D, size: u64) -> Result<Walked, StartFault>
    requires least { 9 ≤ size }
    requires most { size ≤ 2 ^ 63 }
    requires size { IfSome (D.content disk.old) (λ bytes. (size ≡ length bytes) × (take 8 bytes ≡ magic)) }
    ensures end { IfOk result (λ w. w.end < size) }
    ensures count { IfOk result (λ w. w.records ≤ w.end) }
    ensures found { IfOk result (λ w. IfSome (D.content disk.old) (λ bytes. IsWalked bytes w.end w.records w.commit)) }
    ensures no_journal { (place : ℕ) → result ≡ Err (StartFault.NotAJournal place) → IfSome (D.content disk.old) (λ bytes. IsNoRecordAt bytes place) }
    ensures never_memory { result ≢ Err StartFault.NoMemory }
    ensures kept { D.content disk.new ≡ D.content disk.old }
    ensures images_kept { NoOther (D.images disk.old) (D.images disk.new) }
    ensures quiet { LeavesOnly D.moment D.left_since disk.old disk.new (D.images disk.old) }
    ensures later { D.faults disk.old ≤ D.faults disk.new }
    ensures failed { result ≡ Err StartFault.DiskFault → Rose (D.faults disk.old) (D.faults disk.new) }
    ensures steady { result ≢ Err StartFault.DiskFault → D.faults disk.new ≡ D.faults disk.old }
{
    let mut at = 8;
    let mut records = 0;
    'records: loop {
        match head_at(disk, at, size - at)? {
            Head::End(commit) => {
                return Ok(Walked {
                    end: at,
                    records,
                    commit,
                });
            }
            Head::Record(n) => {
                at += 5 + u64::from(n);
                records += 1;
            }
            Head::Bad => return Err(StartFault::NotAJournal(at)),
        }
    }
}
