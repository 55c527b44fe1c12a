ghost use Rattle.std.specs.Prelude.{◌≡◌, ◌+◌, ◌^◌, ◌≤◌, [], ◌∷◌, ◌++◌, length, take, drop, IfOk, OnOk, OnErr, vec_capacity};
ghost use Rattle.std.specs.Counts.{IsPrefixLen};
ghost use Rattle.sse_outside.specs.Images.{overwritten, Torn, Shortened, Follows, NoOther, Only, Elapses};
ghost use Rattle.sse_outside.specs.Changes.{file_behind, Wrote, FailedToWrite, CutTo, FailedToCut, Synced};
ghost use Rattle.outside_memory_disk.specs.DiskCalls.{change_of, changes_of};

use crate::disk_call::DiskCall;
use crate::torn_calls::tear;
use sse_outside::hand_out;
use std::alloc::{AllocError, Global};

/// A file in memory with the record of the calls that changed it.
#[derive(Drop)]
pub struct Recorded {
    alloc: Global,
    first: Vec<u8>,
    bytes: Vec<u8>,
    calls: Vec<DiskCall>,
    ghost in_limit: { length bytes.items ≤ 2 ^ 63 },
    ghost replayed: { bytes.items ≡ file_behind first.items (changes_of calls.items) },
}

/// Puts bytes over those at a place, where there is room.
pub(crate) fn overwrite(file: &mut Vec<u8>, at: usize, bytes: &[u8])
    requires within { at ≤ length file.old.items }
    requires room { length file.old.items + length bytes.now ≤ vec_capacity file.old }
    ensures { file.new.items ≡ overwritten at bytes.now file.old.items }
{
    let over = bytes.len().min(file.len() - at);
    let (inside, behind) = bytes.split_at(over);
    file[at..at + over].copy_from_slice(inside);
    let _ = file.extend_from_slice(behind);
}

/// Records a call.
fn note(calls: &mut Vec<DiskCall>, call: DiskCall) -> Result<(), AllocError>
    ensures ok { OnOk result (changes_of calls.new.items ≡ changes_of calls.old.items ++ change_of call ∷ []) }
    ensures err { OnErr result (changes_of calls.new.items ≡ changes_of calls.old.items) }
{
    calls.push(call)?;
    Ok(())
}

impl Recorded {
    ghost use Rattle.outside_memory_disk.specs.Picked.{image_picked};
    ghost use Rattle.outside_memory_disk.specs.Recorded.{first_of, made_of, bytes_of, images_of, moment_of, left_since_of};

    /// An empty file, all of it durable.
    pub fn new(alloc: Global) -> Recorded
        ensures first { first_of result ≡ [] }
        ensures none { made_of result ≡ [] }
        ensures bytes { bytes_of result ≡ [] }
    {
        Recorded {
            alloc,
            first: Vec::new(alloc),
            bytes: Vec::new(alloc),
            calls: Vec::new(alloc),
        }
    }

    pub fn write(&mut self, at: u64, bytes: &[u8]) -> Result<(), AllocError>
        requires within { at ≤ length (bytes_of self.old) }
        requires limit { at + length bytes.now ≤ 2 ^ 63 }
        ensures first { first_of self.new ≡ first_of self.old }
        ensures made { OnOk result (made_of self.new ≡ made_of self.old ++ Wrote at bytes.now ∷ []) }
        ensures err { OnErr result (made_of self.new ≡ made_of self.old) }
        ensures bytes { OnOk result (bytes_of self.new ≡ overwritten at bytes.now (bytes_of self.old)) }
        ensures bytes_err { OnErr result (bytes_of self.new ≡ bytes_of self.old) }
        ensures torn { Follows (Torn at (length bytes.now)) (images_of self.old) (images_of self.new) }
        ensures time { Elapses (moment_of self.old) (moment_of self.new) (left_since_of self.old) (left_since_of self.new) (images_of self.new) }
    {
        let kept = bytes.to_vec(self.alloc)?;
        self.bytes.reserve(bytes.len())?;
        note(&mut self.calls, DiskCall::Wrote { at, bytes: kept })?;
        overwrite(&mut self.bytes, at as usize, bytes);
        Ok(())
    }

    /// A write that fails: it is recorded, and the file reads as before.
    pub fn fail_write(&mut self, at: u64, bytes: &[u8]) -> Result<(), AllocError>
        ensures first { first_of self.new ≡ first_of self.old }
        ensures made { OnOk result (made_of self.new ≡ made_of self.old ++ FailedToWrite at bytes.now ∷ []) }
        ensures err { OnErr result (made_of self.new ≡ made_of self.old) }
        ensures bytes { bytes_of self.new ≡ bytes_of self.old }
        ensures torn { Follows (Torn at (length bytes.now)) (images_of self.old) (images_of self.new) }
        ensures time { Elapses (moment_of self.old) (moment_of self.new) (left_since_of self.old) (left_since_of self.new) (images_of self.new) }
    {
        let kept = bytes.to_vec(self.alloc)?;
        note(&mut self.calls, DiskCall::FailedToWrite { at, bytes: kept })?;
        Ok(())
    }

    pub fn cut(&mut self, len: u64) -> Result<(), AllocError>
        requires within { len ≤ length (bytes_of self.old) }
        ensures first { first_of self.new ≡ first_of self.old }
        ensures made { OnOk result (made_of self.new ≡ made_of self.old ++ CutTo len ∷ []) }
        ensures err { OnErr result (made_of self.new ≡ made_of self.old) }
        ensures bytes { OnOk result (bytes_of self.new ≡ take len (bytes_of self.old)) }
        ensures bytes_err { OnErr result (bytes_of self.new ≡ bytes_of self.old) }
        ensures torn { Follows (Shortened len) (images_of self.old) (images_of self.new) }
        ensures time { Elapses (moment_of self.old) (moment_of self.new) (left_since_of self.old) (left_since_of self.new) (images_of self.new) }
    {
        note(&mut self.calls, DiskCall::CutTo { len })?;
        self.bytes.truncate(len as usize);
        Ok(())
    }

    /// A cut that fails: it is recorded, and the file reads as before.
    pub fn fail_cut(&mut self, len: u64) -> Result<(), AllocError>
        ensures first { first_of self.new ≡ first_of self.old }
        ensures made { OnOk result (made_of self.new ≡ made_of self.old ++ FailedToCut len ∷ []) }
        ensures err { OnErr result (made_of self.new ≡ made_of self.old) }
        ensures bytes { bytes_of self.new ≡ bytes_of self.old }
        ensures torn { Follows (Shortened len) (images_of self.old) (images_of self.new) }
        ensures time { Elapses (moment_of self.old) (moment_of self.new) (left_since_of self.old) (left_since_of self.new) (images_of self.new) }
    {
        note(&mut self.calls, DiskCall::FailedToCut { len })?;
        Ok(())
    }

    pub fn sync(&mut self) -> Result<(), AllocError>
        ensures first { first_of self.new ≡ first_of self.old }
        ensures made { OnOk result (made_of self.new ≡ made_of self.old ++ Synced ∷ []) }
        ensures err { OnErr result (made_of self.new ≡ made_of self.old) }
        ensures bytes { bytes_of self.new ≡ bytes_of self.old }
        ensures durable { OnOk result (Only (bytes_of self.old) (images_of self.new)) }
        ensures images_kept { NoOther (images_of self.old) (images_of self.new) }
        ensures time { Elapses (moment_of self.old) (moment_of self.new) (left_since_of self.old) (left_since_of self.new) (images_of self.new) }
    {
        note(&mut self.calls, DiskCall::Synced)?;
        Ok(())
    }

    /// The bytes from a place on, as many as there are and as fit.
    pub fn read(&self, at: u64, out: &mut [u8]) -> usize
        ensures bound { IsPrefixLen result out.new }
        ensures front { take result out.new ≡ take (length out.new) (drop at (bytes_of self.now)) }
    {
        let at = at as usize;
        if at >= self.bytes.len() {
            return 0;
        }
        hand_out(&self.bytes, at, out)
    }

    /// What a crash may leave, by the number of the image, all of it durable.
    pub fn image(&self, pick: u64) -> Result<Recorded, AllocError>
        ensures first { IfOk result (λ made. first_of made ≡ image_picked pick (first_of self.now) (made_of self.now)) }
        ensures none { IfOk result (λ made. made_of made ≡ []) }
        ensures bytes { IfOk result (λ made. bytes_of made ≡ first_of made) }
    {
        let bytes = self.image_bytes(pick)?;
        if bytes.len() as u64 > 1 << 63 {
            return Err(AllocError);
        }
        Ok(Recorded {
            alloc: self.alloc,
            first: bytes.to_vec(self.alloc)?,
            bytes,
            calls: Vec::new(self.alloc),
        })
    }

    /// The bytes of the image of a number.
    fn image_bytes(&self, pick: u64) -> Result<Vec<u8>, AllocError>
        ensures { IfOk result (λ image. image.items ≡ image_picked pick (first_of self.now) (made_of self.now)) }
    {
        let mut file = self.first.to_vec(self.alloc)?;
        let mut image = self.first.to_vec(self.alloc)?;
        let mut rest = pick;
        for call in &self.calls {
            rest = tear(self.alloc, &mut file, &mut image, pick, rest, call)?;
        }
        Ok(image)
    }

    pub fn alloc(&self) -> Global
        ensures { result ≡ self.now.alloc }
    {
        self.alloc
    }

    pub fn bytes(&self) -> &[u8]
        ensures same { result.now ≡ bytes_of self.now }
        ensures limit { length result.now ≤ 2 ^ 63 }
    {
        &self.bytes
    }
}
