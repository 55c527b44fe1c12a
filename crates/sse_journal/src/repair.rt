ghost use Rattle.std.specs.Prelude.{◌≡◌, ◌≢◌, ℕ, ◌+◌, ◌^◌, ◌<◌, ◌≤◌, List, [], ◌∷◌, ◌++◌, length, IfSome, OnOk, All, IsErrOf, is_some, Err};
ghost use Rattle.sse_journal.specs.Files.{front, IsPayload, Gives};
ghost use Rattle.sse_journal.specs.Holds.{IsSettled, IsAllOf};
ghost use Rattle.sse_journal.specs.AnyMoment.{LeavesOnly};
ghost use Rattle.sse_outside.specs.Causes.{Rose};

use sse_outside::{DeviceFault, Disk};

/// Cuts what stands after the commit byte at the end of the records. The cut is made durable before that byte is
/// written: if a crash tore it to 1 with bytes after it, these would count as a record.
pub(crate) fn cut_tail<D: Disk>(disk: &mut D, end: u64) -> Result<(), DeviceFault>
    requires limit { end < 2 ^ 63 }
    requires within { IfSome (D.content disk.old) (λ bytes. end + 1 ≤ length bytes) }
    ensures cut { OnOk result ((payloads : List (List ℕ)) (commit : ℕ) (tail : List ℕ) → end ≡ length (front payloads) →
        IsAllOf (front payloads ++ commit ∷ tail) (D.content disk.old) (D.images disk.old) → IsAllOf (front payloads ++ commit ∷ []) (D.content disk.new) (D.images disk.new)) }
    ensures within { OnOk result (IfSome (D.content disk.new) (λ bytes. end ≤ length bytes)) }
    ensures any_moment { (payloads : List (List ℕ)) (commit : ℕ) (tail : List ℕ) → All IsPayload payloads → commit ≢ 1 → end ≡ length (front payloads) →
        IsAllOf (front payloads ++ commit ∷ tail) (D.content disk.old) (D.images disk.old) → LeavesOnly D.moment D.left_since disk.old disk.new (Gives payloads) }
    ensures told { is_some (D.content disk.new) ≡ is_some (D.content disk.old) }
    ensures later { D.faults disk.old ≤ D.faults disk.new }
    ensures failed { IsErrOf result DeviceFault.Failed → Rose (D.faults disk.old) (D.faults disk.new) }
    ensures steady { result ≢ Err DeviceFault.Failed → D.faults disk.new ≡ D.faults disk.old }
{
    disk.cut(end + 1)?;
    disk.sync()?; // the cut
    Ok(())
}

/// Clears the commit byte at the end of the records, which is the last byte of the file, and so isn't set whatever a
/// crash leaves in it.
pub(crate) fn clear_commit<D: Disk>(disk: &mut D, end: u64) -> Result<(), DeviceFault>
    requires limit { end < 2 ^ 63 }
    requires within { IfSome (D.content disk.old) (λ bytes. end ≤ length bytes) }
    ensures cleared { OnOk result ((payloads : List (List ℕ)) (commit : ℕ) → end ≡ length (front payloads) →
        IsAllOf (front payloads ++ commit ∷ []) (D.content disk.old) (D.images disk.old) → IsSettled payloads (D.content disk.new) (D.images disk.new)) }
    ensures any_moment { (payloads : List (List ℕ)) (commit : ℕ) → All IsPayload payloads → end ≡ length (front payloads) →
        IsAllOf (front payloads ++ commit ∷ []) (D.content disk.old) (D.images disk.old) → LeavesOnly D.moment D.left_since disk.old disk.new (Gives payloads) }
    ensures told { is_some (D.content disk.new) ≡ is_some (D.content disk.old) }
    ensures later { D.faults disk.old ≤ D.faults disk.new }
    ensures failed { IsErrOf result DeviceFault.Failed → Rose (D.faults disk.old) (D.faults disk.new) }
    ensures steady { result ≢ Err DeviceFault.Failed → D.faults disk.new ≡ D.faults disk.old }
{
    disk.write_at(end, &[0])?;
    disk.sync()?;
    Ok(())
}

/// Makes a journal without records of a file that is too short for one, whatever it holds. The first eight bytes are
/// durable before the commit byte makes the file long enough to be one.
pub(crate) fn new_file<D: Disk>(disk: &mut D) -> Result<(), DeviceFault>
    requires short { IfSome (D.content disk.old) (λ bytes. length bytes < 9) }
    ensures made { OnOk result ((bytes : List ℕ) → length bytes < 9 → IsAllOf bytes (D.content disk.old) (D.images disk.old) → IsSettled [] (D.content disk.new) (D.images disk.new)) }
    ensures any_moment { (bytes : List ℕ) → length bytes < 9 → IsAllOf bytes (D.content disk.old) (D.images disk.old) → LeavesOnly D.moment D.left_since disk.old disk.new (Gives []) }
    ensures told { is_some (D.content disk.new) ≡ is_some (D.content disk.old) }
    ensures later { D.faults disk.old ≤ D.faults disk.new }
    ensures failed { IsErrOf result DeviceFault.Failed → Rose (D.faults disk.old) (D.faults disk.new) }
    ensures steady { result ≢ Err DeviceFault.Failed → D.faults disk.new ≡ D.faults disk.old }
{
    disk.write_at(0, b"SSEJRNL1")?;
    disk.sync()?;
    disk.write_at(8, &[0])?;
    disk.sync()?;
    Ok(())
}
