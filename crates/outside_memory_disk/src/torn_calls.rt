ghost use Rattle.std.specs.Prelude.{◌≡◌, ◌∷◌, List, IfOk, OnOk};
ghost use Rattle.sse_outside.specs.Images.{overwritten};
ghost use Rattle.sse_outside.specs.Changes.{Change};
ghost use Rattle.outside_memory_disk.specs.DiskCalls.{change_of};
ghost use Rattle.outside_memory_disk.specs.Picked.{others, torn_write, torn_cut, picked};

use crate::disk_call::DiskCall;
use crate::recorded::overwrite;
use std::alloc::{AllocError, Global};

/// Puts bytes over those at a place, or after the end where the place lies past it.
fn put(file: &mut Vec<u8>, at: u64, bytes: &[u8]) -> Result<(), AllocError>
    ensures { OnOk result (file.new.items ≡ overwritten at bytes.now file.old.items) }
{
    file.reserve(bytes.len())?;
    let place = (at as usize).min(file.len());
    overwrite(file, place, bytes);
    Ok(())
}

/// As many bytes, each another one.
fn change(alloc: Global, bytes: &[u8]) -> Result<Vec<u8>, AllocError>
    ensures { IfOk result (λ made. made.items ≡ others bytes.now) }
{
    let mut made = Vec::new(alloc);
    let mut i = 0;
    'bytes: while i < bytes.len() {
        made.push(255 - bytes[i])?;
        i += 1;
    }
    Ok(made)
}

/// What a write leaves of an image.
fn tear_write(
    alloc: Global,
    image: &mut Vec<u8>,
    way: u64,
    at: u64,
    bytes: &[u8],
) -> Result<(), AllocError>
    ensures { OnOk result (image.new.items ≡ torn_write way at bytes.now image.old.items) }
{
    if way == 0 {
        return Ok(());
    }
    if way == 1 {
        put(image, at, bytes)?;
        return Ok(());
    }
    if way == 2 {
        let (half, _) = bytes.split_at(bytes.len() / 2);
        put(image, at, half)?;
        return Ok(());
    }
    let other = change(alloc, bytes)?;
    put(image, at, &other)?;
    Ok(())
}

/// What a cut leaves of an image.
fn tear_cut(alloc: Global, image: &mut Vec<u8>, way: u64, len: u64) -> Result<(), AllocError>
    ensures { OnOk result (image.new.items ≡ torn_cut way len image.old.items) }
{
    let len = len as usize;
    if way == 0 || len >= image.len() {
        return Ok(());
    }
    if way == 1 {
        image.truncate(len);
        return Ok(());
    }
    if way == 2 {
        image.truncate(len + (image.len() - len) / 2);
        return Ok(());
    }
    let (_, tail) = image.split_at(len);
    let other = change(alloc, tail)?;
    image.truncate(len);
    image.extend_from_slice(&other)?;
    Ok(())
}

/// Goes on after a call: the file, its image, and the digits that are left.
pub(crate) fn tear(
    alloc: Global,
    file: &mut Vec<u8>,
    image: &mut Vec<u8>,
    pick: u64,
    rest: u64,
    call: &DiskCall,
) -> Result<u64, AllocError>
    ensures { IfOk result (λ left. (changes : List Change) → picked pick rest file.old.items image.old.items (change_of call.now ∷ changes) ≡ picked pick left file.new.items image.new.items changes) }
{
    match call {
        DiskCall::Wrote { at, bytes } => {
            tear_write(alloc, image, rest % 4, *at, bytes)?;
            put(file, *at, bytes)?;
            Ok(rest / 4)
        }
        DiskCall::FailedToWrite { at, bytes } => {
            tear_write(alloc, image, rest % 4, *at, bytes)?;
            Ok(rest / 4)
        }
        DiskCall::CutTo { len } => {
            tear_cut(alloc, image, rest % 4, *len)?;
            file.truncate(*len as usize);
            Ok(rest / 4)
        }
        DiskCall::FailedToCut { len } => {
            tear_cut(alloc, image, rest % 4, *len)?;
            Ok(rest / 4)
        }
        DiskCall::Synced => {
            image.clear();
            image.extend_from_slice(file)?;
            Ok(pick)
        }
    }
}
