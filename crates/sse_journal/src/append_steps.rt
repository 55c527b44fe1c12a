ghost use Rattle.std.specs.Prelude.{◌≡◌, ◌+◌, ◌^◌, ◌<◌, ◌≤◌, ℕ, List, [], ◌∷◌, ◌++◌, length, All, OnOk, IfSome, IsErrOf, is_some, vec_capacity};
ghost use Rattle.sse_outside.specs.Causes.{Rose};
ghost use Rattle.sse_journal.specs.Files.{framed, front, IsPayload, GivesWithOrWithout};
ghost use Rattle.sse_journal.specs.Holds.{IsSettled};
ghost use Rattle.sse_journal.specs.AnyMoment.{LeavesOnly};

use sse_outside::{DeviceFault, Disk};

/// Puts two pieces and a byte of 0 in the place of what was there, where there is room.
fn join(buffer: &mut Vec<u8>, size: &[u8], payload: &[u8])
    requires room { length size.now + length payload.now + 1 ≤ vec_capacity buffer.old }
    ensures bytes { buffer.new.items ≡ (size.now ++ payload.now) ++ 0 ∷ [] }
    ensures capacity { vec_capacity buffer.old ≤ vec_capacity buffer.new }
{
    buffer.clear();
    let _ = buffer.extend_from_slice(size);
    let _ = buffer.extend_from_slice(payload);
    let _ = buffer.push(0);
}

/// Writes what stands after a record's commit byte, and the next commit byte, which isn't set.
pub(crate) fn frame(buffer: &mut Vec<u8>, payload: &[u8])
    requires payload { IsPayload payload.now }
    requires room { length payload.now + 5 ≤ vec_capacity buffer.old }
    ensures bytes { buffer.new.items ≡ framed payload.now ++ 0 ∷ [] }
    ensures size { length buffer.new.items ≡ length payload.now + 5 }
    ensures capacity { vec_capacity buffer.old ≤ vec_capacity buffer.new }
{
    let size = (payload.len() as u32).to_be_bytes();
    join(buffer, &size, payload);
}

/// Puts the body of a record after the commit byte at the end, and then sets that byte. Each step is durable before
/// the next: a commit byte that is set over a body that a crash tore would make a record of anything.
pub(crate) fn append_at<D: Disk>(disk: &mut D, end: u64, body: &[u8]) -> Result<(), DeviceFault>
    requires end { end < 2 ^ 63 }
    requires within { IfSome (D.content disk.old) (λ bytes. end + 1 ≤ length bytes) }

    // The body being that of a record with this payload, from a disk that holds these records and nothing else.
    ensures added { OnOk result ((payload : List ℕ) (payloads : List (List ℕ)) → IsPayload payload → body.now ≡ framed payload ++ 0 ∷ [] → All IsPayload payloads → end ≡ length (front payloads) →
        IsSettled payloads (D.content disk.old) (D.images disk.old) → IsSettled (payloads ++ payload ∷ []) (D.content disk.new) (D.images disk.new)) }
    ensures any_moment { (payload : List ℕ) (payloads : List (List ℕ)) → IsPayload payload → body.now ≡ framed payload ++ 0 ∷ [] → All IsPayload payloads → end ≡ length (front payloads) →
        IsSettled payloads (D.content disk.old) (D.images disk.old) →
        LeavesOnly D.moment D.left_since disk.old disk.new (GivesWithOrWithout payloads payload) }
    ensures limit { OnOk result (end + 1 + length body.now ≤ 2 ^ 63) }
    ensures within { OnOk result (IfSome (D.content disk.new) (λ bytes. end + 1 + length body.now ≤ length bytes)) }
    ensures told { is_some (D.content disk.new) ≡ is_some (D.content disk.old) }

    // The count of faults.
    ensures later { D.faults disk.old ≤ D.faults disk.new }
    ensures failed { IsErrOf result DeviceFault.Failed → Rose (D.faults disk.old) (D.faults disk.new) }
    ensures steady { OnOk result (D.faults disk.new ≡ D.faults disk.old) }
    ensures no_memory { IsErrOf result DeviceFault.NoMemory → D.faults disk.new ≡ D.faults disk.old }
{
    disk.write_at(end + 1, body)?;
    disk.sync()?; // the record
    disk.write_at(end, &[1])?;
    disk.sync()?; // its commit byte
    Ok(())
}
