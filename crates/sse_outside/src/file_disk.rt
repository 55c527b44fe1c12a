ghost use Rattle.std.specs.Prelude.{◌≡◌, ◌+◌, ◌^◌, ◌<◌, ◌≤◌, length, None, IfOk, OnOk};
ghost use Rattle.std.specs.Io.{ReadsAtMost};
ghost use Rattle.sse_outside.specs.Causes.{HasCause};

use crate::std_source::{MOST_BYTES, room_left};
use crate::{DeviceFault, Disk, Failed};
use std::fs::File;
use std::io::ErrorKind;
use std::os::unix::fs::FileExt;

/// A disk over a file of the operating system, open for reading and writing. It tells nothing to contracts but its
/// count of faults: not what the file holds, and of what a crash may leave it rules nothing out.
///
/// Every error is a fault. A call that a signal interrupts is tried again, up to 2^64 - 1 times. A write whose end
/// would pass 2^63 is a fault, and the file isn't asked. A cut to more than the length, which `Disk` doesn't allow,
/// lengthens the file by zeros.
#[derive(Drop)]
pub struct FileDisk {
    file: File,
    faults: u64,
}

impl FileDisk {
    /// A disk over `file`. Nobody else should write to it as long as the disk is used.
    pub fn new(file: File) -> FileDisk
        ensures faults { ⟦<FileDisk as Disk>⟧.faults result ≡ 0 }
    {
        FileDisk { file, faults: 0 }
    }

    /// Hands an answer on, and counts a fault where it is one.
    fn noted<T>(&mut self, answer: Result<T, Failed>) -> Result<T, Failed>
        ensures same { result ≡ answer }
        ensures cause { HasCause self.old.faults self.new.faults result }
    {
        if answer.is_err() {
            self.faults = self.faults.saturating_add(1);
        }
        answer
    }
}

impl Disk for FileDisk {
    ghost content = { λ _. None };

    ghost images = { λ _ _. Unit {0} };

    ghost moment = { λ _. 0 };

    ghost left_since = { λ _ _ _. Unit {0} };

    ghost faults = { λ s. s.faults };

    ghost reads_as_image = { λ _. tt };

    ghost counts_now = { λ _ _ _ _ _. tt };

    ghost only_now = { λ _ _ _. tt };

    fn len(&mut self) -> Result<u64, Failed> {
        let answer = len_of(&self.file);
        self.noted(answer)
    }

    fn read_at(&mut self, at: u64, out: &mut [u8]) -> Result<usize, Failed> {
        let answer = read_full(&self.file, at, out);
        self.noted(answer)
    }

    fn write_at(&mut self, at: u64, bytes: &[u8]) -> Result<(), DeviceFault> {
        let answer = write_full(&self.file, at, bytes);
        self.noted(answer)?;
        Ok(())
    }

    fn cut(&mut self, len: u64) -> Result<(), DeviceFault> {
        let answer = self.file.set_len(len).map_err(|_| Failed);
        self.noted(answer)?;
        Ok(())
    }

    fn sync(&mut self) -> Result<(), DeviceFault> {
        let answer = self.file.sync_data().map_err(|_| Failed);
        self.noted(answer)?;
        Ok(())
    }
}

/// The length that the system tells, if it is no more than a disk may have.
fn len_of(file: &File) -> Result<u64, Failed>
    ensures bound { IfOk result (λ n. n ≤ 2 ^ 63) }
{
    match file.metadata() {
        Ok(metadata) if metadata.len() <= MOST_BYTES => Ok(metadata.len()),
        _ => Err(Failed),
    }
}

/// Reads from byte `at` on until `out` is full or the file ends, and no byte after the first 2^63. A read that a signal
/// interrupts is tried again; it fails at every other error.
pub fn read_full<F: FileExt>(file: &F, at: u64, out: &mut [u8]) -> Result<usize, Failed>
    ensures bound { ReadsAtMost result out.new }
{
    let (room, _) = out.split_at_mut(room_left(at, out.len()));
    let mut done = 0;
    for _ in 0..u64::MAX {
        if done == room.len() {
            return Ok(done);
        }
        match file.read_at(&mut room[done..], at + done as u64) {
            Ok(0) => return Ok(done),
            Ok(count) => done += count,
            Err(error) if error.kind() == ErrorKind::Interrupted => continue,
            Err(_) => return Err(Failed),
        }
    }
    Err(Failed)
}

/// Writes all of `bytes` from byte `at` on, where they end within the first 2^63; else it fails, and the file isn't asked.
pub fn write_full<F: FileExt>(file: &F, at: u64, bytes: &[u8]) -> Result<(), Failed>
    requires { at + length bytes.now < 2 ^ 64 }
    ensures limit { OnOk result (at + length bytes.now ≤ 2 ^ 63) }
{
    if at + bytes.len() as u64 > MOST_BYTES {
        return Err(Failed);
    }
    file.write_all_at(bytes, at).map_err(|_| Failed)
}
