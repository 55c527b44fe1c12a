ghost use Rattle.std.specs.Prelude.{◌≡◌, ◌+◌, ◌-◌, ◌^◌, ◌<◌, ◌≤◌, min, [], ◌∷◌, ◌++◌, length, take, drop, ◌↔◌, IsErr, IsTrue, Some, None, IfOk, OnOk, OnErr, IsErrOf};
ghost use Rattle.std.specs.Io.{ReadsAtMost};
ghost use Rattle.sse_outside.specs.Causes.{Rose, HasCause};
ghost use Rattle.sse_outside.specs.Images.{overwritten, Torn, Shortened, Follows, NoOther, Only, Elapses};
ghost use Rattle.sse_outside.specs.Changes.{Wrote, FailedToWrite, CutTo, FailedToCut, Synced};
ghost use Rattle.sse_outside.proofs.DiskLaws.{reads_now, counts_now, only_now};

use crate::recorded::Recorded;
use sse_outside::{DeviceFault, Disk, Failed, FailingCalls};
use std::alloc::{AllocError, Global};

/// A disk in memory, of which some calls fail. It keeps a record of its writes, cuts and syncs, with the bytes
/// written.
///
/// A write or cut that fails leaves the file as it reads and is recorded, so that a crash may leave it done in part. A
/// call that memory is wanting for, or a write whose end would pass 2^63, answers `NoMemory`, changes nothing and
/// isn't counted.
#[derive(Drop)]
pub struct MemDisk {
    file: Recorded,
    calls: FailingCalls,
    one_more: Option<u64>,
}

impl MemDisk {
    ghost use Rattle.outside_memory_disk.specs.Picked.{image_picked};
    ghost use Rattle.outside_memory_disk.specs.MemDisk.{began_of, changes_on, file_of, images_of, fails_of, fail_more_of, next_call_of, faults_of, WillFail};

    /// An empty disk, whose calls of the numbers in `fails`, counted from 0, answer `Failed`.
    pub fn new(alloc: Global, fails: Vec<u64>) -> MemDisk
        ensures began { began_of result ≡ [] }
        ensures none { changes_on result ≡ [] }
        ensures file { file_of result ≡ [] }
        ensures fails { fails_of result ≡ fails.items }
        ensures fail_more { fail_more_of result ≡ None }
        ensures first { next_call_of result ≡ 0 }
        ensures faults { faults_of result ≡ 0 }
    {
        MemDisk {
            file: Recorded::new(alloc),
            calls: FailingCalls::new(fails),
            one_more: None,
        }
    }

    /// How many calls were counted, also those that failed.
    pub fn calls(&self) -> u64
        ensures { result ≡ next_call_of self.now }
    {
        self.calls.call
    }

    /// The bytes of the file, as a read gives them.
    pub fn bytes(&self) -> &[u8]
        ensures { result.now ≡ file_of self.now }
    {
        self.file.bytes()
    }

    // Promise P111, also here; clauses: began, image, file, none
    /// What a crash at this moment may leave: one image for each number, on a disk of which no call fails.
    ///
    /// From the last sync that succeeded on, each call that changed the file, or failed in that, takes one digit of
    /// `pick` to the base 4, the lowest first: 0 leaves nothing of it, 1 all, 2 half of its bytes, 3 other bytes. The
    /// error is want of memory, or an image of more than 2^63 bytes.
    pub fn image(&self, pick: u64) -> Result<MemDisk, AllocError>
        ensures began { IfOk result (λ d. began_of d ≡ image_picked pick (began_of self.now) (changes_on self.now)) }
        ensures image { IfOk result (λ d. images_of self.now (began_of d)) }
        ensures none { IfOk result (λ d. changes_on d ≡ []) }
        ensures file { IfOk result (λ d. file_of d ≡ began_of d) }
        ensures fails { IfOk result (λ d. fails_of d ≡ []) }
        ensures fail_more { IfOk result (λ d. fail_more_of d ≡ None) }
        ensures first { IfOk result (λ d. next_call_of d ≡ 0) }
        ensures faults { IfOk result (λ d. faults_of d ≡ 0) }
    {
        Ok(MemDisk {
            file: self.file.image(pick)?,
            calls: FailingCalls::new(Vec::new(self.file.alloc())),
            one_more: None,
        })
    }

    // Promise P111, also here; clauses: fail_more
    /// Makes the call with this number from now, counted from 1, fail too, in place of what an earlier `fail_after`
    /// set.
    pub fn fail_after(&mut self, call: u64)
        requires { 1 ≤ call }
        ensures fail_more { fail_more_of self.new ≡ Some (min (next_call_of self.old + (call - 1)) (2 ^ 64 - 1)) }
        ensures began { began_of self.new ≡ began_of self.old }
        ensures changes { changes_on self.new ≡ changes_on self.old }
        ensures file { file_of self.new ≡ file_of self.old }
        ensures fails { fails_of self.new ≡ fails_of self.old }
        ensures next { next_call_of self.new ≡ next_call_of self.old }
        ensures faults { faults_of self.new ≡ faults_of self.old }
    {
        self.one_more = Some(self.calls.call.saturating_add(call - 1));
    }

    /// Whether the next call fails.
    fn next_fails(&self) -> bool
        ensures { IsTrue result ↔ WillFail self.now }
    {
        self.one_more == Some(self.calls.call) || self.calls.next_fails()
    }
}

impl Disk for MemDisk {
    ghost use Rattle.outside_memory_disk.specs.MemDisk.{began_of, changes_on, file_of, images_of, moment_of, left_since_of, fails_of, fail_more_of, next_call_of, faults_of, WillFail};

    ghost content = { λ s. Some (file_of s) };

    ghost images = { images_of };

    ghost moment = { moment_of };

    ghost left_since = { left_since_of };

    ghost faults = { faults_of };

    ghost reads_as_image = { λ s. reads_now (began_of s) (changes_on s) (file_of s) s.file.replayed };

    ghost counts_now = { λ s. counts_now (began_of s) (changes_on s) };

    ghost only_now = { λ s. only_now (began_of s) (changes_on s) };

    // Promise P111, also here; clauses: fails, made
    fn len(&mut self) -> Result<u64, Failed>
        // Which calls fail, and what stays.
        ensures fails { IsErr result ↔ WillFail self.old }
        ensures same_list { fails_of self.new ≡ fails_of self.old }
        ensures same_more { fail_more_of self.new ≡ fail_more_of self.old }
        ensures counted { next_call_of self.new ≡ min (next_call_of self.old + 1) (2 ^ 64 - 1) }
        ensures began { began_of self.new ≡ began_of self.old }
        ensures made { changes_on self.new ≡ changes_on self.old }

        // As of every disk.
        ensures bound { IfOk result (λ n. n ≤ 2 ^ 63) }
        ensures size { IfOk result (λ n. n ≡ length (file_of self.old)) }
        ensures within { length (file_of self.old) ≤ 2 ^ 63 }
        ensures kept { file_of self.new ≡ file_of self.old }
        ensures cause { HasCause (faults_of self.old) (faults_of self.new) result }
    {
        if self.next_fails() {
            self.calls.fail();
            return Err(Failed);
        }
        self.calls.pass();
        Ok(self.file.bytes().len() as u64)
    }

    // Promise P111, also here; clauses: fails, made
    fn read_at(&mut self, at: u64, out: &mut [u8]) -> Result<usize, Failed>
        // Which calls fail, and what stays.
        ensures fails { IsErr result ↔ WillFail self.old }
        ensures same_list { fails_of self.new ≡ fails_of self.old }
        ensures same_more { fail_more_of self.new ≡ fail_more_of self.old }
        ensures counted { next_call_of self.new ≡ min (next_call_of self.old + 1) (2 ^ 64 - 1) }
        ensures began { began_of self.new ≡ began_of self.old }
        ensures made { changes_on self.new ≡ changes_on self.old }

        // As of every disk.
        ensures bound { ReadsAtMost result out.new }
        ensures bytes { IfOk result (λ n. take n out.new ≡ take (length out.new) (drop at (file_of self.old))) }
        ensures within { length (file_of self.old) ≤ 2 ^ 63 }
        ensures kept { file_of self.new ≡ file_of self.old }
        ensures cause { HasCause (faults_of self.old) (faults_of self.new) result }
    {
        if self.next_fails() {
            self.calls.fail();
            return Err(Failed);
        }
        self.calls.pass();
        Ok(self.file.read(at, out))
    }

    // Promise P111 (caller): A disk in memory records each change as it is, fails at exactly the chosen calls, and its images are possible crash images.
    //   clauses: made, made_failed, made_none, file_err, fails, passes, counted, not_counted; assumes: sizes in bounds
    fn write_at(&mut self, at: u64, bytes: &[u8]) -> Result<(), DeviceFault>
        requires within { at ≤ length (file_of self.old) }
        requires fits { at + length bytes.now < 2 ^ 64 }

        // Which calls fail, and what is recorded.
        ensures fails { IsErrOf result DeviceFault.Failed → WillFail self.old }
        ensures passes { OnOk result (WillFail self.old → ⊥) }
        ensures same_list { fails_of self.new ≡ fails_of self.old }
        ensures same_more { fail_more_of self.new ≡ fail_more_of self.old }
        ensures counted { (IsErrOf result DeviceFault.NoMemory → ⊥) → next_call_of self.new ≡ min (next_call_of self.old + 1) (2 ^ 64 - 1) }
        ensures not_counted { IsErrOf result DeviceFault.NoMemory → next_call_of self.new ≡ next_call_of self.old }
        ensures began { began_of self.new ≡ began_of self.old }
        ensures made { OnOk result (changes_on self.new ≡ changes_on self.old ++ Wrote at bytes.now ∷ []) }
        ensures made_failed { IsErrOf result DeviceFault.Failed → changes_on self.new ≡ changes_on self.old ++ FailedToWrite at bytes.now ∷ [] }
        ensures made_none { IsErrOf result DeviceFault.NoMemory → changes_on self.new ≡ changes_on self.old }
        ensures file_err { OnErr result (file_of self.new ≡ file_of self.old) }

        // As of every disk.
        ensures limit { OnOk result (at + length bytes.now ≤ 2 ^ 63) }
        ensures written { OnOk result (file_of self.new ≡ overwritten at bytes.now (file_of self.old)) }
        ensures torn { Follows (Torn at (length bytes.now)) (images_of self.old) (images_of self.new) }
        ensures time { Elapses (moment_of self.old) (moment_of self.new) (left_since_of self.old) (left_since_of self.new) (images_of self.new) }
        ensures later { faults_of self.old ≤ faults_of self.new }
        ensures failed { IsErrOf result DeviceFault.Failed → Rose (faults_of self.old) (faults_of self.new) }
        ensures steady { OnOk result (faults_of self.new ≡ faults_of self.old) }
        ensures no_memory { IsErrOf result DeviceFault.NoMemory → faults_of self.new ≡ faults_of self.old }
    {
        if at > (1 << 63) - bytes.len() as u64 {
            return Err(DeviceFault::NoMemory);
        }
        if self.next_fails() {
            self.file.fail_write(at, bytes)?;
            self.calls.fail();
            return Err(DeviceFault::Failed);
        }
        self.file.write(at, bytes)?;
        self.calls.pass();
        Ok(())
    }

    // Promise P111, also here; clauses: made, made_failed, made_none, file_err, fails, passes, counted, not_counted
    fn cut(&mut self, len: u64) -> Result<(), DeviceFault>
        requires within { len ≤ length (file_of self.old) }

        // Which calls fail, and what is recorded.
        ensures fails { IsErrOf result DeviceFault.Failed → WillFail self.old }
        ensures passes { OnOk result (WillFail self.old → ⊥) }
        ensures same_list { fails_of self.new ≡ fails_of self.old }
        ensures same_more { fail_more_of self.new ≡ fail_more_of self.old }
        ensures counted { (IsErrOf result DeviceFault.NoMemory → ⊥) → next_call_of self.new ≡ min (next_call_of self.old + 1) (2 ^ 64 - 1) }
        ensures not_counted { IsErrOf result DeviceFault.NoMemory → next_call_of self.new ≡ next_call_of self.old }
        ensures began { began_of self.new ≡ began_of self.old }
        ensures made { OnOk result (changes_on self.new ≡ changes_on self.old ++ CutTo len ∷ []) }
        ensures made_failed { IsErrOf result DeviceFault.Failed → changes_on self.new ≡ changes_on self.old ++ FailedToCut len ∷ [] }
        ensures made_none { IsErrOf result DeviceFault.NoMemory → changes_on self.new ≡ changes_on self.old }
        ensures file_err { OnErr result (file_of self.new ≡ file_of self.old) }

        // As of every disk.
        ensures shortened { OnOk result (file_of self.new ≡ take len (file_of self.old)) }
        ensures torn { Follows (Shortened len) (images_of self.old) (images_of self.new) }
        ensures time { Elapses (moment_of self.old) (moment_of self.new) (left_since_of self.old) (left_since_of self.new) (images_of self.new) }
        ensures later { faults_of self.old ≤ faults_of self.new }
        ensures failed { IsErrOf result DeviceFault.Failed → Rose (faults_of self.old) (faults_of self.new) }
        ensures steady { OnOk result (faults_of self.new ≡ faults_of self.old) }
        ensures no_memory { IsErrOf result DeviceFault.NoMemory → faults_of self.new ≡ faults_of self.old }
    {
        if self.next_fails() {
            self.file.fail_cut(len)?;
            self.calls.fail();
            return Err(DeviceFault::Failed);
        }
        self.file.cut(len)?;
        self.calls.pass();
        Ok(())
    }

    // Promise P111, also here; clauses: made, made_none, file
    fn sync(&mut self) -> Result<(), DeviceFault>
        // Which calls fail, and what is recorded: a sync that fails leaves all as it was.
        ensures fails { IsErrOf result DeviceFault.Failed → WillFail self.old }
        ensures passes { OnOk result (WillFail self.old → ⊥) }
        ensures same_list { fails_of self.new ≡ fails_of self.old }
        ensures same_more { fail_more_of self.new ≡ fail_more_of self.old }
        ensures counted { (IsErrOf result DeviceFault.NoMemory → ⊥) → next_call_of self.new ≡ min (next_call_of self.old + 1) (2 ^ 64 - 1) }
        ensures not_counted { IsErrOf result DeviceFault.NoMemory → next_call_of self.new ≡ next_call_of self.old }
        ensures began { began_of self.new ≡ began_of self.old }
        ensures made { OnOk result (changes_on self.new ≡ changes_on self.old ++ Synced ∷ []) }
        ensures made_none { OnErr result (changes_on self.new ≡ changes_on self.old) }
        ensures file { file_of self.new ≡ file_of self.old }

        // As of every disk.
        ensures durable { OnOk result (Only (file_of self.old) (images_of self.new)) }
        ensures images_kept { NoOther (images_of self.old) (images_of self.new) }
        ensures time { Elapses (moment_of self.old) (moment_of self.new) (left_since_of self.old) (left_since_of self.new) (images_of self.new) }
        ensures later { faults_of self.old ≤ faults_of self.new }
        ensures failed { IsErrOf result DeviceFault.Failed → Rose (faults_of self.old) (faults_of self.new) }
        ensures steady { OnOk result (faults_of self.new ≡ faults_of self.old) }
        ensures no_memory { IsErrOf result DeviceFault.NoMemory → faults_of self.new ≡ faults_of self.old }
    {
        if self.next_fails() {
            self.calls.fail();
            return Err(DeviceFault::Failed);
        }
        self.file.sync()?;
        self.calls.pass();
        Ok(())
    }
}
