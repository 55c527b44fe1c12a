ghost use Rattle.std.specs.Prelude.{◌≤◌, Some};
ghost use Rattle.outside_memory_disk.specs.MemDisk.{file_of};
ghost use Rattle.sse_server.specs.StoreView.{IsWithin};

use crate::frames::{HELLO, UPDATES};
use crate::journal_reads::disk_of;
use keyed_fn::Toy;
use outside_memory_disk::MemDisk;
use server_core::Answer;
use server_tables::SortedTables;
use sse_frames::read_frame;
use sse_server::{Store, StoreAnswer};
use std::alloc::{AllocError, Global};
use std::test::Fail;

/// The journal of frames: each with its length stands behind the byte 1, and the byte 0 is the last.
fn journal_of(alloc: Global, frames: &[&[u8]]) -> Result<Vec<u8>, AllocError> {
    let mut file = b"SSEJRNL1".to_vec(alloc)?;
    for frame in frames {
        file.push(1)?;
        file.extend_from_slice(frame)?;
    }
    file.push(0)?;
    Ok(file)
}

/// A store with its disk.
#[derive(Drop)]
struct Stored {
    store: Store<SortedTables>,
    disk: MemDisk,
    ghost within: { IsWithin store.journal (Some (file_of disk)) },
}

impl Stored {
    /// Starts a store on a disk.
    fn start(alloc: Global, disk: MemDisk) -> Result<Stored, Fail> {
        let mut disk = disk;
        let store = Store::start(alloc, SortedTables::new(alloc), &mut disk)?;
        Ok(Stored { store, disk })
    }

    /// Hands it a frame. The number of the frame that it expects next, where it tells that.
    fn tell(&mut self, bytes: &[u8]) -> Option<u32> {
        let Ok(Some((frame, _))) = read_frame(bytes) else {
            return None;
        };
        match self.store.handle(&Toy, &mut self.disk, &frame, &mut [0; 2]) {
            StoreAnswer::Answered(Answer::Next(next)) => Some(next),
            _ => None,
        }
    }
}

/// How many frames a store has taken that is started on a disk. It is then sent all frames of `UPDATES`, and has them all.
fn restarted(alloc: Global, disk: MemDisk) -> Result<Option<u32>, Fail> {
    let wanted = journal_of(alloc, &UPDATES)?;
    let mut stored = Stored::start(alloc, disk)?;
    let taken = stored.tell(HELLO);
    for frame in UPDATES {
        stored.tell(frame);
    }
    let has_all = stored.disk.bytes() == wanted.as_slice();
    drop(stored);
    Ok(if has_all { taken } else { None })
}

/// What starting a store on a disk comes to.
fn start(alloc: Global, disk: &mut MemDisk) -> Result<String, AllocError> {
    match Store::start(alloc, SortedTables::new(alloc), disk) {
        Ok(_) => String::from_str(alloc, "started"),
        Err(fault) => format!(in alloc; "{fault}"),
    }
}

/// The journal of two frames, behind which stands one that was never acknowledged.
fn two_and_one(alloc: Global) -> Result<Vec<u8>, AllocError> {
    let (two, _) = UPDATES.split_at(2);
    let mut file = journal_of(alloc, two)?;
    file.extend_from_slice(UPDATES[2])?;
    Ok(file)
}

/// A start on that journal where this call fails, and what a restart has of each of the images 0 to 3.
fn start_failing(alloc: Global, fails: u64) -> Result<String, Fail>
    requires { 1 ≤ fails }
{
    let mut disk = disk_of(alloc, &two_and_one(alloc)?)?;
    disk.fail_after(fails);
    let mut line = start(alloc, &mut disk)?;
    for pick in 0..4 {
        let taken = restarted(alloc, disk.image(pick)?)?.unwrap_or(99);
        line.push_str(format!(in alloc; ", {taken}")?.as_str())?;
    }
    Ok(line)
}

/// Such a start makes twelve calls: eight, and two for each record. Each of them fails in turn, and then none, and a crash
/// leaves each of four images: a restart has the two frames.
#[test]
fn a_crash_in_a_start_leaves_the_frames(rt: HostRuntime) -> Result<(), Fail> {
    for fails in 1..13 {
        let line = start_failing(rt.alloc(), fails)?;
        assert_eq!(rt; line.as_str(), "the disk failed, 2, 2, 2, 2");
    }
    let line = start_failing(rt.alloc(), 13)?;
    assert_eq!(rt; line.as_str(), "started, 2, 2, 2, 2");
    Ok(())
}
