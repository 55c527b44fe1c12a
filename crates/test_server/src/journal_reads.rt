use outside_memory_disk::MemDisk;
use sse_journal::Journal;
use sse_outside::{DeviceFault, Disk};
use std::alloc::{AllocError, Global};
use std::test::Fail;

/// A journal of the records `a` and `bb`.
const TWO: &[u8] = b"SSEJRNL1\x01\0\0\0\x01a\x01\0\0\0\x02bb\0";

/// A disk with these bytes, all of them durable.
pub(crate) fn disk_of(alloc: Global, bytes: &[u8]) -> Result<MemDisk, DeviceFault> {
    let mut disk = MemDisk::new(alloc, Vec::new(alloc));
    disk.write_at(0, bytes)?;
    disk.sync()?;
    Ok(disk)
}

/// Places of the journal `TWO` where a record is read, and which of the calls of the disk fails then, from 1; 0 is none.
const READS: [(u64, u64); 8] = [
    (8, 0),
    (14, 0),
    (21, 0),
    (22, 0),
    (9, 0),
    (20, 0),
    (8, 1),
    (8, 2),
];

/// What is answered at each, and what is in the buffer then.
const ANSWERED: &str = "\
8: 61, then 14
14: 6262, then 21
21: , the end
22: , the end
9: , not a journal at 9
20: , not a journal at 20
8: , the disk failed
8: , the disk failed
";

/// A record read at a place into a buffer that isn't empty, as a line.
fn read(
    alloc: Global,
    journal: &Journal,
    disk: &mut MemDisk,
    at: u64,
) -> Result<String, AllocError> {
    let mut payload = Vec::from_slice(alloc, b"what was there")?;
    let answer = journal.read(disk, at, &mut payload);
    let bytes = hex::encode(alloc, &payload)?;
    match answer {
        Ok(Some(next)) => format!(in alloc; "{at}: {bytes}, then {next}\n"),
        Ok(None) => format!(in alloc; "{at}: {bytes}, the end\n"),
        Err(fault) => format!(in alloc; "{at}: {bytes}, {fault}\n"),
    }
}

/// The lines of all reads.
fn reads(alloc: Global, journal: &Journal, disk: &mut MemDisk) -> Result<String, AllocError> {
    let mut lines = String::new(alloc);
    for (at, fails) in READS {
        if fails > 0 {
            disk.fail_after(fails);
        }
        lines.push_str(read(alloc, journal, disk, at)?.as_str())?;
    }
    Ok(lines)
}

/// Each kind of place, and each of the two calls of a read failing.
#[test]
fn a_place_gives_its_record_the_end_or_a_refusal(rt: HostRuntime) -> Result<(), Fail> {
    let mut disk = disk_of(rt.alloc(), TWO)?;
    let journal = Journal::start(rt.alloc(), &mut disk)?;
    assert_eq!(rt; (journal.first(), journal.records()), (8, 2));
    let lines = reads(rt.alloc(), &journal, &mut disk)?;
    assert_eq!(rt; lines.as_str(), ANSWERED);
    Ok(())
}
