ghost use Rattle.std.specs.Prelude.{◌≡◌, ◌≢◌, ◌+◌, ◌≤◌, Err, IfOk, IfSome, None, length, map};
ghost use Rattle.std.specs.Result.{result_err};
ghost use Rattle.add_counters.specs.NewEntry.{entry_text};
ghost use Rattle.sse_frames.specs.Frames.{AddFrame, DeleteFrame, IsFrame, IsNumber, Rises, frame_bytes};
ghost use Rattle.sse_frames.specs.FrameViews.{entries_in, items_in};
ghost use Rattle.client_core.specs.UpdateParts.{Adds, Revokes};

use crate::command_fault::CommandFault;
use crate::new_pairs::{joined_entries, joined_numbers};
use add_counters::Entry;
use sse_frames::{Frame, write_frame};
use std::alloc::{AllocError, Global};

// Promise P66, also here; clauses: told
/// The bytes of the frame of an addition, unless two of its values are equal: then it answers their fault, and takes no memory.
pub(crate) fn checked_addition(
    alloc: Global,
    q: u32,
    clash: Option<CommandFault>,
    entries: &[Entry],
    numbers: &[[u8; 16]],
) -> Result<Vec<u8>, CommandFault>
    requires number { IsNumber q }
    requires count { length entries.now + length numbers.now ≤ 4096 }
    requires rise { clash ≡ None → Rises (map (λ entry. entry.label) entries.now) × Rises numbers.now }
    ensures told { IfSome clash (λ fault. result ≡ Err fault) }
    ensures fault { result ≢ Err CommandFault.NoMemory → result_err result ≡ clash }
    ensures bytes { IfOk result (λ bytes. bytes.items ≡ frame_bytes (AddFrame q (map entry_text entries.now) numbers.now)) }
    ensures frame { IfOk result (λ bytes. IsFrame bytes.items) }
{
    match clash {
        Some(fault) => Err(fault),
        None => Ok(add_frame(alloc, q, entries, numbers)?),
    }
}

/// The bytes of the frame of an addition.
fn add_frame(
    alloc: Global,
    q: u32,
    entries: &[Entry],
    numbers: &[[u8; 16]],
) -> Result<Vec<u8>, AllocError>
    requires number { IsNumber q }
    requires count { length entries.now + length numbers.now ≤ 4096 }
    requires rises { Rises (map (λ entry. entry.label) entries.now) }
    requires numbers_rise { Rises numbers.now }
    ensures bytes { IfOk result (λ bytes. bytes.items ≡ frame_bytes (AddFrame q (map entry_text entries.now) numbers.now)) }
    ensures frame { IfOk result (λ bytes. IsFrame bytes.items) }
{
    let entries = joined_entries(alloc, entries)?;
    let numbers = joined_numbers(alloc, numbers)?;
    add_of(alloc, q, entries.as_slice(), numbers.as_slice())
}

/// The same for entries and numbers that are joined.
fn add_of(alloc: Global, q: u32, entries: &[u8], numbers: &[u8]) -> Result<Vec<u8>, AllocError>
    requires { Adds q entries.now numbers.now }
    ensures bytes { IfOk result (λ bytes. bytes.items ≡ frame_bytes (AddFrame q (entries_in 8 entries.now) (items_in 16 numbers.now))) }
    ensures frame { IfOk result (λ bytes. IsFrame bytes.items) }
{
    let mut bytes = Vec::new(alloc);
    write_frame(
        &Frame::Add {
            q,
            entries,
            numbers,
        },
        &mut bytes,
    )?;
    Ok(bytes)
}

// Promise P66, also here; clauses: told
/// The bytes of the frame of a deletion, unless two of its numbers are equal: then it answers their fault, and takes no memory.
pub(crate) fn checked_deletion(
    alloc: Global,
    q: u32,
    clash: Option<CommandFault>,
    numbers: &[[u8; 16]],
) -> Result<Vec<u8>, CommandFault>
    requires number { IsNumber q }
    requires count { length numbers.now ≤ 4096 }
    requires rise { clash ≡ None → Rises numbers.now }
    ensures told { IfSome clash (λ fault. result ≡ Err fault) }
    ensures fault { result ≢ Err CommandFault.NoMemory → result_err result ≡ clash }
    ensures bytes { IfOk result (λ bytes. bytes.items ≡ frame_bytes (DeleteFrame q numbers.now)) }
    ensures frame { IfOk result (λ bytes. IsFrame bytes.items) }
{
    match clash {
        Some(fault) => Err(fault),
        None => Ok(delete_frame(alloc, q, numbers)?),
    }
}

/// The bytes of the frame of a deletion.
fn delete_frame(alloc: Global, q: u32, numbers: &[[u8; 16]]) -> Result<Vec<u8>, AllocError>
    requires number { IsNumber q }
    requires count { length numbers.now ≤ 4096 }
    requires numbers_rise { Rises numbers.now }
    ensures bytes { IfOk result (λ bytes. bytes.items ≡ frame_bytes (DeleteFrame q numbers.now)) }
    ensures frame { IfOk result (λ bytes. IsFrame bytes.items) }
{
    let numbers = joined_numbers(alloc, numbers)?;
    delete_of(alloc, q, numbers.as_slice())
}

/// The same for numbers that are joined.
fn delete_of(alloc: Global, q: u32, numbers: &[u8]) -> Result<Vec<u8>, AllocError>
    requires { Revokes q numbers.now }
    ensures bytes { IfOk result (λ bytes. bytes.items ≡ frame_bytes (DeleteFrame q (items_in 16 numbers.now))) }
    ensures frame { IfOk result (λ bytes. IsFrame bytes.items) }
{
    let mut bytes = Vec::new(alloc);
    write_frame(&Frame::Delete { q, numbers }, &mut bytes)?;
    Ok(bytes)
}
