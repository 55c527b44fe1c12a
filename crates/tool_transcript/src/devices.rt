ghost use Rattle.std.specs.Prelude.{◌≤◌, IfOk};

use keyed_fn::Keyed;
use outside_memory_disk::MemDisk;
use script_run_texts::StopCause;
use server_tables::BucketTables;
use sse_link::{Fail, Loopback};
use sse_outside::Disk;
use sse_server::Store;
use std::alloc::Global;
use std::str;

/// The number of a call that is never made.
const NEVER: u64 = u64::MAX;

/// The client's disk, and the link to the server, as the turns before left them.
#[derive(Drop)]
pub(crate) struct Devices<K: Keyed> {
    pub client: MemDisk,
    pub link: Loopback<K, BucketTables, MemDisk>,
}

impl<K: Keyed + Drop> Devices<K> {
    /// An empty disk, and a server that has taken nothing.
    pub(crate) fn new(alloc: Global, keyed: K) -> Result<Devices<K>, StopCause> {
        let server = MemDisk::new(alloc, Vec::new(alloc));
        let link = server_on(alloc, keyed, server, NEVER, Vec::new(alloc))?;
        let client = MemDisk::new(alloc, Vec::new(alloc));
        Ok(Devices { client, link })
    }
}

/// A link with these cuts to a server that is started on a disk, whose call of this number from then on fails.
pub(crate) fn server_on<K: Keyed + Drop>(
    alloc: Global,
    keyed: K,
    disk: MemDisk,
    call: u64,
    cuts: Vec<Fail>,
) -> Result<Loopback<K, BucketTables, MemDisk>, StopCause>
    requires { 1 ≤ call }
{
    let mut disk = disk;
    let Ok(store) = Store::start(alloc, BucketTables::new(alloc), &mut disk) else {
        drop(disk);
        return Err(StopCause::Words);
    };
    disk.fail_after(call);
    Ok(Loopback::new(alloc, keyed, store, disk, cuts))
}

/// The other disk that a field names.
pub(crate) fn another(alloc: Global, field: &str, before: &MemDisk) -> Result<MemDisk, StopCause> {
    if field == "kept" {
        return filled(alloc, before.bytes());
    }
    if field.starts_with('x') {
        return filled(alloc, &bytes_in(alloc, field)?);
    }
    Ok(before.image(number(field)?)?)
}

/// The bytes that a field spells: `x`, then their hexadecimal digits.
pub(crate) fn bytes_in(alloc: Global, field: &str) -> Result<Vec<u8>, StopCause> {
    match field.strip_prefix('x') {
        Some(digits) => hex::decode(alloc, digits.as_bytes()).map_err(|_| StopCause::Words),
        None => Err(StopCause::Words),
    }
}

/// A disk with these bytes, all of them durable.
fn filled(alloc: Global, bytes: &[u8]) -> Result<MemDisk, StopCause> {
    let mut disk = MemDisk::new(alloc, Vec::new(alloc));
    disk.write_at(0, bytes)?;
    disk.sync()?;
    Ok(disk)
}

/// The cut that a field names.
pub(crate) fn cut(field: &str) -> Result<Fail, StopCause> {
    let (digits, delivered) = match field.strip_suffix('+') {
        Some(digits) => (digits, true),
        None => (field.strip_suffix('-').ok_or(StopCause::Words)?, false),
    };
    Ok(Fail {
        call: number(digits)?,
        delivered,
    })
}

/// The call that a field names as the one that fails, from 1; 0 is none.
pub(crate) fn call(field: &str) -> Result<u64, StopCause>
    ensures { IfOk result (λ call. 1 ≤ call) }
{
    match number(field)? {
        0 => Ok(NEVER),
        call => Ok(call),
    }
}

/// The number of a field.
pub(crate) fn number(field: &str) -> Result<u64, StopCause> {
    field.parse().map_err(|_| StopCause::Words)
}
