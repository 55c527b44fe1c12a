ghost use Rattle.std.specs.Prelude.{◌≡◌, ◌++◌, length, IfOk, OnOk};
ghost use Rattle.std.specs.List.{flat_map};
ghost use Rattle.sse_frames.specs.Frames.{be16, be32, be64, joined};

use sse_frames::{Items, NoMemory};
use std::alloc::Global;

/// Appends the bytes.
pub(crate) fn append(out: &mut Items<u8>, bytes: &[u8]) -> Result<(), NoMemory>
    ensures { OnOk result (out.new ≡ out.old ++ bytes.now) }
{
    for byte in bytes {
        out.push(*byte)?;
    }
    Ok(())
}

/// Appends the lowest two bytes of a number, the high one first.
pub(crate) fn append_u16(out: &mut Items<u8>, n: u64) -> Result<(), NoMemory>
    ensures { OnOk result (out.new ≡ out.old ++ be16 n) }
{
    let bytes = n.to_be_bytes();
    append(out, &bytes[6..])
}

/// Appends the lowest four bytes of a number, the high one first.
pub(crate) fn append_u32(out: &mut Items<u8>, n: u64) -> Result<(), NoMemory>
    ensures { OnOk result (out.new ≡ out.old ++ be32 n) }
{
    let bytes = n.to_be_bytes();
    append(out, &bytes[4..])
}

/// Appends the numbers, eight bytes each, the high one first.
pub(crate) fn append_u64s(out: &mut Items<u8>, numbers: &[u64]) -> Result<(), NoMemory>
    ensures { OnOk result (out.new ≡ out.old ++ flat_map be64 numbers.now) }
{
    for n in numbers {
        append(out, &n.to_be_bytes())?;
    }
    Ok(())
}

/// Appends the revocation numbers.
pub(crate) fn append_numbers(out: &mut Items<u8>, numbers: &[[u8; 16]]) -> Result<(), NoMemory>
    ensures { OnOk result (out.new ≡ out.old ++ joined numbers.now) }
{
    for number in numbers {
        append(out, number)?;
    }
    Ok(())
}

/// A body behind its length.
pub(crate) fn framed(alloc: Global, body: &[u8]) -> Result<Items<u8>, NoMemory>
    ensures { IfOk result (λ bytes. bytes ≡ be32 (length body.now) ++ body.now) }
{
    let mut bytes = Items::new(alloc);
    append_u32(&mut bytes, body.len() as u64)?;
    append(&mut bytes, body)?;
    Ok(bytes)
}
