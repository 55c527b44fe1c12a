ghost use Rattle.std.specs.Prelude.{◌≡◌, ◌+◌, ◌^◌, ◌<◌, ◌≤◌, ℕ, List, length, take, drop, IfOk, OnOk, IfSome, IsErrOf, Err, ◌≢◌};
ghost use Rattle.sse_outside.specs.Images.{NoOther};
ghost use Rattle.sse_journal.specs.AnyMoment.{LeavesOnly};
ghost use Rattle.sse_journal.specs.Reads.{Begins};
ghost use Rattle.sse_outside.specs.Causes.{Rose};

use crate::ReadFault;
use crate::head::Head;
use crate::walk::head_at;
use sse_outside::Disk;

/// Reads the `n` bytes of the payload of the record at a place.
fn fill<D: Disk>(disk: &mut D, at: u64, n: u32, out: &mut Vec<u8>) -> Result<(), ReadFault>
    requires fits { at + 5 + n < 2 ^ 64 }
    ensures size { OnOk result (length out.new.items ≡ n) }
    ensures bytes { OnOk result (IfSome (D.content disk.old) (λ bytes. out.new.items ≡ take n (drop (at + 5) bytes))) }
    ensures place { (place : ℕ) → result ≡ Err (ReadFault.NotAJournal place) → place ≡ at }
    ensures bad { (place : ℕ) → result ≡ Err (ReadFault.NotAJournal place) → IfSome (D.content disk.old) (λ bytes. at + 5 + n ≤ length bytes → ⊥) }
    ensures kept { D.content disk.new ≡ D.content disk.old }
    ensures images_kept { NoOther (D.images disk.old) (D.images disk.new) }
    ensures quiet { LeavesOnly D.moment D.left_since disk.old disk.new (D.images disk.old) }
    ensures later { D.faults disk.old ≤ D.faults disk.new }
    ensures failed { IsErrOf result ReadFault.DiskFault → Rose (D.faults disk.old) (D.faults disk.new) }
    ensures steady { result ≢ Err ReadFault.DiskFault → D.faults disk.new ≡ D.faults disk.old }
{
    out.resize(n as usize, 0)?;
    let count = disk.read_at(at + 5, out)?;
    if count < n as usize {
        return Err(ReadFault::NotAJournal(at));
    }
    Ok(())
}

/// Reads the payload of the record at a place where `left` bytes are left of the file, and gives the next place.
pub(crate) fn read_record<D: Disk>(
    disk: &mut D,
    at: u64,
    left: u64,
    out: &mut Vec<u8>,
) -> Result<u64, ReadFault>
    requires some { 0 < left }
    requires limit { at + left < 2 ^ 64 }
    ensures payload { IfOk result (λ next. IfSome (D.content disk.old) (λ bytes. length (drop at bytes) ≡ left →
        Begins out.new.items (drop at bytes) × (next ≡ at + (5 + length out.new.items)))) }
    ensures next { IfOk result (λ next. next ≡ at + (5 + length out.new.items)) }
    ensures place { (place : ℕ) → result ≡ Err (ReadFault.NotAJournal place) → place ≡ at }
    ensures bad { (place : ℕ) → result ≡ Err (ReadFault.NotAJournal place) → IfSome (D.content disk.old) (λ bytes. length (drop at bytes) ≡ left →
        (payload : List ℕ) → Begins payload (drop at bytes) → ⊥) }
    ensures kept { D.content disk.new ≡ D.content disk.old }
    ensures images_kept { NoOther (D.images disk.old) (D.images disk.new) }
    ensures quiet { LeavesOnly D.moment D.left_since disk.old disk.new (D.images disk.old) }
    ensures later { D.faults disk.old ≤ D.faults disk.new }
    ensures failed { IsErrOf result ReadFault.DiskFault → Rose (D.faults disk.old) (D.faults disk.new) }
    ensures steady { result ≢ Err ReadFault.DiskFault → D.faults disk.new ≡ D.faults disk.old }
{
    match head_at(disk, at, left)? {
        Head::Record(n) => {
            fill(disk, at, n, out)?;
            Ok(at + 5 + u64::from(n))
        }
        _ => Err(ReadFault::NotAJournal(at)),
    }
}
