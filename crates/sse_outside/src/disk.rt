ghost use Rattle.std.specs.Prelude.{◌≡◌, ℕ, ◌+◌, ◌^◌, ◌<◌, ◌≤◌, List, length, take, drop, is_some, IfOk, OnOk, IfSome, IsErrOf};
ghost use Rattle.std.specs.declared.option.Option.{Option};
ghost use Rattle.std.specs.Option.{option_map};
ghost use Rattle.std.specs.Io.{ReadsAtMost};
ghost use Rattle.sse_outside.specs.Causes.{HasCause, Rose};
ghost use Rattle.sse_outside.specs.Images.{overwritten, Torn, Shortened, Follows, NoOther, Only, Elapses};

use crate::{DeviceFault, Failed};

/// Where bytes are kept from one run to the next: one file of at most 2^63 bytes.
///
/// A disk tells five things to contracts. `content` is the bytes of the file, where it can tell them (a real file
/// can't, and then it is `None`). `images` are the files that may be there after a crash at this moment. `moment`
/// is a number that never falls, and `left_since` are the files that may be there after a crash at any moment from
/// that one on, within a call or between two. `faults` is its count of faults.
///
/// Between two syncs that succeed, a range that was written and what lies after the old end may hold any bytes
/// after a crash, the length lies between those that the file had, a tail that was cut may be there in part with
/// any bytes, and all else stays. After a sync that succeeds a crash leaves what a read gives. A call that answers
/// an error may have done its work in part: the file then reads as one of its images after the call.
pub trait Disk {
    ghost content: { Self → Option (List ℕ) };

    ghost images: { Self → List ℕ → Type 0 };

    ghost moment: { Self → ℕ };

    ghost left_since: { Self → ℕ → List ℕ → Type 0 };

    ghost faults: { Self → ℕ };

    // Promise P108, also here; clauses: cause
    // Promise P110, also here; clauses: size
    /// The number of bytes of the file, at most 2^63. With `Failed` the count of faults rose, and else it stays.
    fn len(&mut self) -> Result<u64, Failed>
        ensures bound { IfOk result (λ n. n ≤ 2 ^ 63) }
        ensures size { IfOk result (λ n. IfSome (content self.old) (λ bytes. n ≡ length bytes)) }
        ensures within { IfSome (content self.old) (λ bytes. length bytes ≤ 2 ^ 63) }
        ensures kept { content self.new ≡ content self.old }
        ensures images_kept { NoOther (images self.old) (images self.new) }
        ensures time { Elapses (moment self.old) (moment self.new) (left_since self.old) (left_since self.new) (images self.new) }
        ensures cause { HasCause (faults self.old) (faults self.new) result };

    // Promise P108, also here; clauses: cause
    // Promise P110, also here; clauses: bytes, kept, images_kept, time
    /// Puts the bytes of the file from byte `at` on, counted from 0, at the front of `out`, as many as there are
    /// and as fit, and answers how many: none where `at` is at or after the end.
    ///
    /// With `Failed` the count of faults rose, and else it stays; what `out` holds after `Failed` is left open.
    fn read_at(&mut self, at: u64, out: &mut [u8]) -> Result<usize, Failed>
        ensures bound { ReadsAtMost result out.new }
        ensures bytes { IfOk result (λ n. IfSome (content self.old)
            (λ bytes. take n out.new ≡ take (length out.new) (drop at bytes))) }
        ensures within { IfSome (content self.old) (λ bytes. length bytes ≤ 2 ^ 63) }
        ensures kept { content self.new ≡ content self.old }
        ensures images_kept { NoOther (images self.old) (images self.new) }
        ensures time { Elapses (moment self.old) (moment self.new) (left_since self.old) (left_since self.new) (images self.new) }
        ensures cause { HasCause (faults self.old) (faults self.new) result };

    // Promise P108, also here; clauses: failed, steady, no_memory
    // Promise P110 (caller): A disk gives back the bytes written and not cut; after a successful sync a crash leaves the file as it reads.
    //   clauses: written, limit, torn, time, told; assumes: observable devices; checks: .ci/journal; not: That a real disk behaves so: `FileDisk` tells only its fault count. The clauses
    //     bound crash images from above, so a disk that tears less meets them.
    /// Writes `bytes` over those from byte `at` on, which is at most the length, and after the end. An end above
    /// 2^63 is refused.
    ///
    /// With `DeviceFault::Failed` the count of faults rose, and with any other answer it stays. The bytes are there
    /// after a crash once a later `sync` succeeds; before, and after an error, any bytes may be in their place.
    fn write_at(&mut self, at: u64, bytes: &[u8]) -> Result<(), DeviceFault>
        requires within { IfSome (content self.old) (λ file. at ≤ length file) }
        requires fits { at + length bytes.now < 2 ^ 64 }
        ensures limit { OnOk result (at + length bytes.now ≤ 2 ^ 63) }
        ensures written { OnOk result (content self.new ≡ option_map (overwritten at bytes.now) (content self.old)) }
        ensures told { is_some (content self.new) ≡ is_some (content self.old) }
        ensures torn { Follows (Torn at (length bytes.now)) (images self.old) (images self.new) }
        ensures time { Elapses (moment self.old) (moment self.new) (left_since self.old) (left_since self.new) (images self.new) }

        // The count of faults.
        ensures later { faults self.old ≤ faults self.new }
        ensures failed { IsErrOf result DeviceFault.Failed → Rose (faults self.old) (faults self.new) }
        ensures steady { OnOk result (faults self.new ≡ faults self.old) }
        ensures no_memory { IsErrOf result DeviceFault.NoMemory → faults self.new ≡ faults self.old };

    // Promise P108, also here; clauses: failed, steady, no_memory
    // Promise P110, also here; clauses: shortened, torn, time
    /// Cuts the file to its first `len` bytes; `len` is at most the length.
    ///
    /// The count of faults is as with `write_at`. What was cut is gone after a crash once a later `sync` succeeds;
    /// before, and after an error, a part of it may be there, with any bytes.
    fn cut(&mut self, len: u64) -> Result<(), DeviceFault>
        requires within { IfSome (content self.old) (λ file. len ≤ length file) }
        ensures shortened { OnOk result (content self.new ≡ option_map (take len) (content self.old)) }
        ensures told { is_some (content self.new) ≡ is_some (content self.old) }
        ensures torn { Follows (Shortened len) (images self.old) (images self.new) }
        ensures time { Elapses (moment self.old) (moment self.new) (left_since self.old) (left_since self.new) (images self.new) }

        // The count of faults.
        ensures later { faults self.old ≤ faults self.new }
        ensures failed { IsErrOf result DeviceFault.Failed → Rose (faults self.old) (faults self.new) }
        ensures steady { OnOk result (faults self.new ≡ faults self.old) }
        ensures no_memory { IsErrOf result DeviceFault.NoMemory → faults self.new ≡ faults self.old };

    // Promise P108, also here; clauses: failed, steady, no_memory
    // Promise P110, also here; clauses: durable, images_kept, time
    /// Makes what was written and cut last: after `Ok` a crash leaves the file as it reads.
    ///
    /// The count of faults is as with `write_at`. After an error nothing more is known to last than before.
    fn sync(&mut self) -> Result<(), DeviceFault>
        ensures durable { OnOk result (IfSome (content self.old) (λ file. Only file (images self.new))) }
        ensures kept { OnOk result (content self.new ≡ content self.old) }
        ensures told { is_some (content self.new) ≡ is_some (content self.old) }
        ensures images_kept { NoOther (images self.old) (images self.new) }
        ensures time { Elapses (moment self.old) (moment self.new) (left_since self.old) (left_since self.new) (images self.new) }

        // The count of faults.
        ensures later { faults self.old ≤ faults self.new }
        ensures failed { IsErrOf result DeviceFault.Failed → Rose (faults self.old) (faults self.new) }
        ensures steady { OnOk result (faults self.new ≡ faults self.old) }
        ensures no_memory { IsErrOf result DeviceFault.NoMemory → faults self.new ≡ faults self.old };

    // Promise P110, also here
    /// A crash at this moment may leave the file as it reads.
    ghost reads_as_image: { (disk : Self) → IfSome (content disk) (images disk) };

    // Promise P110, also here
    /// This moment is one of those since an earlier one.
    ghost counts_now: { (disk : Self) (t : ℕ) (c : List ℕ) → t ≤ moment disk → images disk c → left_since disk t c };

    // Promise P110, also here
    /// Since this moment there is no other yet.
    ghost only_now: { (disk : Self) (c : List ℕ) → left_since disk (moment disk) c → images disk c };
}
