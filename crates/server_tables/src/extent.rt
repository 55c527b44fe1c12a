ghost use Rattle.std.specs.Prelude.{◌≤◌, ◌-◌, ◌+◌, ◌≡◌, length, vec_len, vec_capacity, IsOk, IfOk, OnOk, OnErr};
ghost use Rattle.server_tables.specs.Places.{IsAppended};

use std::alloc::AllocError;

/// Where a piece lies among bytes: from `start`, up to and without `end`.
#[derive(Clone, Copy)]
pub struct Extent {
    pub start: usize,
    pub end: usize,
}

/// Adds a piece after the bytes, and tells its place.
pub fn append(bytes: &mut Vec<u8>, piece: &[u8]) -> Result<Extent, AllocError>
    ensures ok { IfOk result (IsAppended bytes.old.items bytes.new.items piece.now) }
    ensures err { OnErr result (bytes.new.items ≡ bytes.old.items) }
    ensures has_room { length piece.now ≤ vec_capacity bytes.old - vec_len bytes.old → IsOk result }
    ensures spent { OnOk result (vec_capacity bytes.old - vec_len bytes.old ≤ vec_capacity bytes.new - vec_len bytes.new + length piece.now) }
    ensures not_spent { OnErr result (vec_capacity bytes.old - vec_len bytes.old ≤ vec_capacity bytes.new - vec_len bytes.new) }
{
    let start = bytes.len();
    bytes.extend_from_slice(piece)?;
    let end = bytes.len();
    Ok(Extent { start, end })
}
