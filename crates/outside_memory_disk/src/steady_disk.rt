ghost use Rattle.std.specs.Prelude.{◌≡◌, ◌≢◌, ◌+◌, ◌^◌, ◌<◌, ◌≤◌, [], ◌∷◌, ◌++◌, length, take, drop, Some, Err, IfOk, OnOk, OnErr, IsOk};
ghost use Rattle.std.specs.Io.{ReadsAtMost};
ghost use Rattle.sse_outside.specs.Images.{overwritten, Torn, Shortened, Follows, NoOther, Only, Elapses};
ghost use Rattle.sse_outside.specs.Changes.{Wrote, CutTo, Synced};
ghost use Rattle.sse_outside.proofs.DiskLaws.{reads_now, counts_now, only_now};

use crate::recorded::Recorded;
use sse_outside::{DeviceFault, Disk, Failed};
use std::alloc::Global;

/// A disk in memory that never fails: its count of faults is 0. It keeps a record of its writes, cuts and syncs, with
/// the bytes written, and a crash may leave each of them done in part.
///
/// A call that memory is wanting for, or a write whose end would pass 2^63, answers `NoMemory` and changes nothing.
#[derive(Drop)]
pub struct SteadyDisk {
    file: Recorded,
}

impl SteadyDisk {
    ghost use Rattle.outside_memory_disk.specs.SteadyDisk.{began_of, changes_on};

    /// An empty disk.
    pub fn new(alloc: Global) -> SteadyDisk
        ensures content { ⟦<SteadyDisk as Disk>⟧.content result ≡ Some [] }
        ensures began { began_of result ≡ [] }
        ensures none { changes_on result ≡ [] }
    {
        SteadyDisk {
            file: Recorded::new(alloc),
        }
    }
}

impl Disk for SteadyDisk {
    ghost use Rattle.outside_memory_disk.specs.SteadyDisk.{began_of, changes_on, file_of, images_of, moment_of, left_since_of};

    ghost content = { λ s. Some (file_of s) };

    ghost images = { images_of };

    ghost moment = { moment_of };

    ghost left_since = { left_since_of };

    ghost faults = { λ _. 0 };

    ghost reads_as_image = { λ s. reads_now (began_of s) (changes_on s) (file_of s) s.file.replayed };

    ghost counts_now = { λ s. counts_now (began_of s) (changes_on s) };

    ghost only_now = { λ s. only_now (began_of s) (changes_on s) };

    fn len(&mut self) -> Result<u64, Failed>
        ensures ok { IsOk result }
        ensures size { IfOk result (λ n. n ≡ length (file_of self.old)) }
        ensures within { length (file_of self.old) ≤ 2 ^ 63 }
        ensures same { self.new ≡ self.old }
    {
        Ok(self.file.bytes().len() as u64)
    }

    fn read_at(&mut self, at: u64, out: &mut [u8]) -> Result<usize, Failed>
        ensures ok { IsOk result }
        ensures bound { ReadsAtMost result out.new }
        ensures bytes { IfOk result (λ n. take n out.new ≡ take (length out.new) (drop at (file_of self.old))) }
        ensures within { length (file_of self.old) ≤ 2 ^ 63 }
        ensures same { self.new ≡ self.old }
    {
        Ok(self.file.read(at, out))
    }

    // Promise P111, also here; clauses: made, made_none, never
    fn write_at(&mut self, at: u64, bytes: &[u8]) -> Result<(), DeviceFault>
        requires within { at ≤ length (file_of self.old) }
        requires fits { at + length bytes.now < 2 ^ 64 }

        // What is recorded.
        ensures never { result ≢ Err DeviceFault.Failed }
        ensures began { began_of self.new ≡ began_of self.old }
        ensures made { OnOk result (changes_on self.new ≡ changes_on self.old ++ Wrote at bytes.now ∷ []) }
        ensures made_none { OnErr result (changes_on self.new ≡ changes_on self.old) }
        ensures file_err { OnErr result (file_of self.new ≡ file_of self.old) }

        // As of every disk.
        ensures limit { OnOk result (at + length bytes.now ≤ 2 ^ 63) }
        ensures written { OnOk result (file_of self.new ≡ overwritten at bytes.now (file_of self.old)) }
        ensures torn { Follows (Torn at (length bytes.now)) (images_of self.old) (images_of self.new) }
        ensures time { Elapses (moment_of self.old) (moment_of self.new) (left_since_of self.old) (left_since_of self.new) (images_of self.new) }
    {
        if at > (1 << 63) - bytes.len() as u64 {
            return Err(DeviceFault::NoMemory);
        }
        self.file.write(at, bytes)?;
        Ok(())
    }

    // Promise P111, also here; clauses: made, made_none, never
    fn cut(&mut self, len: u64) -> Result<(), DeviceFault>
        requires within { len ≤ length (file_of self.old) }

        // What is recorded.
        ensures never { result ≢ Err DeviceFault.Failed }
        ensures began { began_of self.new ≡ began_of self.old }
        ensures made { OnOk result (changes_on self.new ≡ changes_on self.old ++ CutTo len ∷ []) }
        ensures made_none { OnErr result (changes_on self.new ≡ changes_on self.old) }
        ensures file_err { OnErr result (file_of self.new ≡ file_of self.old) }

        // As of every disk.
        ensures shortened { OnOk result (file_of self.new ≡ take len (file_of self.old)) }
        ensures torn { Follows (Shortened len) (images_of self.old) (images_of self.new) }
        ensures time { Elapses (moment_of self.old) (moment_of self.new) (left_since_of self.old) (left_since_of self.new) (images_of self.new) }
    {
        self.file.cut(len)?;
        Ok(())
    }

    // Promise P111, also here; clauses: made, made_none, never
    fn sync(&mut self) -> Result<(), DeviceFault>
        // What is recorded.
        ensures never { result ≢ Err DeviceFault.Failed }
        ensures began { began_of self.new ≡ began_of self.old }
        ensures made { OnOk result (changes_on self.new ≡ changes_on self.old ++ Synced ∷ []) }
        ensures made_none { OnErr result (changes_on self.new ≡ changes_on self.old) }
        ensures file { file_of self.new ≡ file_of self.old }

        // As of every disk.
        ensures durable { OnOk result (Only (file_of self.old) (images_of self.new)) }
        ensures images_kept { NoOther (images_of self.old) (images_of self.new) }
        ensures time { Elapses (moment_of self.old) (moment_of self.new) (left_since_of self.old) (left_since_of self.new) (images_of self.new) }
    {
        self.file.sync()?;
        Ok(())
    }
}
