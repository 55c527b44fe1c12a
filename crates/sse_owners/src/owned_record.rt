ghost use Rattle.std.specs.Prelude.{◌≡◌, ◌≢◌, ℕ, ◌+◌, ◌≤◌, List, [], ◌∷◌, ◌++◌, length, drop, None, Some, Err, IsErrOf, IfErr, IfSome, OnOk, OnErr};
ghost use Rattle.std.specs.Int.{w64, to_be_bytes};
ghost use Rattle.sse_outside.specs.Causes.{Rose};
ghost use Rattle.sse_frames.specs.Frames.{InGrammar};
ghost use Rattle.sse_frames.specs.FrameViews.{frame_view};
ghost use Rattle.sse_frames.specs.Sizes.{HasSizes};
ghost use Rattle.sse_journal.specs.AnyMoment.{LeavesOnly};
ghost use Rattle.sse_journal.specs.Files.{IsPayload, GivesWithOrWithout};
ghost use Rattle.sse_journal.specs.JournalView.{end_of, records_of, room_of, broken_by, IsJournalOf};
ghost use Rattle.sse_server.specs.StoreView.{IsWithin};
ghost use Rattle.sse_owners.specs.Owned.{owned, record_of};

use sse_frames::{Frame, write_frame};
use sse_journal::{AppendFault, Journal};
use sse_outside::{DeviceFault, Disk};
use std::alloc::AllocError;

/// Appends the record of an owner's frame, unless the journal is broken: then it answers why, and touches nothing.
pub(crate) fn keep<D: Disk>(
    journal: &mut Journal,
    spelled: &mut Vec<u8>,
    disk: &mut D,
    owner: u64,
    frame: &Frame<'_>,
) -> Result<(), DeviceFault>
    requires grammar { InGrammar (frame_view frame.now) }
    requires sizes { HasSizes frame.now }
    requires within { IsWithin journal.old (D.content disk.old) }
    ensures added { OnOk result ((payloads : List (List ℕ)) → IsJournalOf payloads journal.old (D.content disk.old) (D.images disk.old) →
        IsJournalOf (payloads ++ record_of (owned owner (frame_view frame.now)) ∷ []) journal.new (D.content disk.new) (D.images disk.new)) }
    ensures any_moment { (payloads : List (List ℕ)) → broken_by journal.old ≡ None → IsJournalOf payloads journal.old (D.content disk.old) (D.images disk.old) →
        LeavesOnly D.moment D.left_since disk.old disk.new (GivesWithOrWithout payloads (record_of (owned owner (frame_view frame.now)))) }
    ensures kept { OnErr result (broken_by journal.new ≡ None → (disk.new ≡ disk.old) × ((payloads : List (List ℕ)) → IsJournalOf payloads journal.old (D.content disk.old) (D.images disk.old) →
        IsJournalOf payloads journal.new (D.content disk.old) (D.images disk.old))) }
    ensures counted { OnOk result (records_of journal.new ≡ records_of journal.old + 1) }
    ensures within_after { IsWithin journal.new (D.content disk.new) }

    // Whether it is broken.
    ensures whole { OnOk result ((broken_by journal.old ≡ None) × (broken_by journal.new ≡ None)) }
    ensures broken { IfSome (broken_by journal.old) (λ why. (result ≡ Err why) × (journal.new ≡ journal.old) × (disk.new ≡ disk.old)) }
    ensures breaks { IfErr result (λ fault. IfSome (broken_by journal.new) (λ why. fault ≡ why)) }
    ensures failed_breaks { IsErrOf result DeviceFault.Failed → broken_by journal.new ≡ Some DeviceFault.Failed }

    // The count of faults.
    ensures later { D.faults disk.old ≤ D.faults disk.new }
    ensures failed { IsErrOf result DeviceFault.Failed → broken_by journal.old ≡ None → Rose (D.faults disk.old) (D.faults disk.new) }
    ensures steady { result ≢ Err DeviceFault.Failed → D.faults disk.new ≡ D.faults disk.old }
{
    match journal.broken() {
        Some(why) => Err(why),
        None => append_record(journal, spelled, disk, owner, frame),
    }
}

/// Appends the record of an owner's frame to a journal that isn't broken.
fn append_record<D: Disk>(
    journal: &mut Journal,
    spelled: &mut Vec<u8>,
    disk: &mut D,
    owner: u64,
    frame: &Frame<'_>,
) -> Result<(), DeviceFault>
    requires grammar { InGrammar (frame_view frame.now) }
    requires sizes { HasSizes frame.now }
    requires whole { broken_by journal.old ≡ None }
    requires within { IfSome (D.content disk.old) (λ bytes. end_of journal.old + 1 ≤ length bytes) }
    ensures added { OnOk result ((payloads : List (List ℕ)) → IsJournalOf payloads journal.old (D.content disk.old) (D.images disk.old) →
        IsJournalOf (payloads ++ record_of (owned owner (frame_view frame.now)) ∷ []) journal.new (D.content disk.new) (D.images disk.new)) }
    ensures any_moment { (payloads : List (List ℕ)) → IsJournalOf payloads journal.old (D.content disk.old) (D.images disk.old) →
        LeavesOnly D.moment D.left_since disk.old disk.new (GivesWithOrWithout payloads (record_of (owned owner (frame_view frame.now)))) }
    ensures kept { OnErr result (broken_by journal.new ≡ None → (disk.new ≡ disk.old) × ((payloads : List (List ℕ)) → IsJournalOf payloads journal.old (D.content disk.old) (D.images disk.old) →
        IsJournalOf payloads journal.new (D.content disk.old) (D.images disk.old))) }
    ensures counted { OnOk result (records_of journal.new ≡ records_of journal.old + 1) }
    ensures within_after { IsWithin journal.new (D.content disk.new) }
    ensures whole { OnOk result (broken_by journal.new ≡ None) }
    ensures breaks { IfErr result (λ fault. IfSome (broken_by journal.new) (λ why. fault ≡ why)) }
    ensures failed_breaks { IsErrOf result DeviceFault.Failed → broken_by journal.new ≡ Some DeviceFault.Failed }
    ensures later { D.faults disk.old ≤ D.faults disk.new }
    ensures failed { IsErrOf result DeviceFault.Failed → Rose (D.faults disk.old) (D.faults disk.new) }
    ensures steady { result ≢ Err DeviceFault.Failed → D.faults disk.new ≡ D.faults disk.old }
{
    if prepare(journal, spelled, owner, frame).is_err() {
        return Err(DeviceFault::NoMemory);
    }
    match journal.append(disk, spelled) {
        Ok(()) => Ok(()),
        Err(AppendFault::NoMemory) => Err(DeviceFault::NoMemory),
        Err(AppendFault::DiskFault) => Err(DeviceFault::Failed),
        // Not of a journal that isn't broken.
        Err(AppendFault::Broken) => Err(DeviceFault::Failed),
    }
}

/// Spells the record into a buffer, and takes the memory for it.
#[tactic(auto, using(crate::proofs::OwnedBodies::record_most, crate::proofs::OwnedBodies::payload_is))]
fn prepare(
    journal: &mut Journal,
    spelled: &mut Vec<u8>,
    owner: u64,
    frame: &Frame<'_>,
) -> Result<(), AllocError>
    requires grammar { InGrammar (frame_view frame.now) }
    requires sizes { HasSizes frame.now }
    ensures record { OnOk result (spelled.new.items ≡ record_of (owned owner (frame_view frame.now))) }
    ensures payload { OnOk result (IsPayload spelled.new.items) }
    ensures room { OnOk result (length spelled.new.items + 5 ≤ room_of journal.new) }
    ensures end { end_of journal.new ≡ end_of journal.old }
    ensures records { records_of journal.new ≡ records_of journal.old }
    ensures broken { broken_by journal.new ≡ broken_by journal.old }
{
    spell(spelled, owner, frame)?;
    let size = size_of(spelled);
    journal.reserve(size)
}

/// Spells the record of an owner's frame into a buffer: the owner's number, and then the body.
fn spell(spelled: &mut Vec<u8>, owner: u64, frame: &Frame<'_>) -> Result<(), AllocError>
    requires grammar { InGrammar (frame_view frame.now) }
    requires sizes { HasSizes frame.now }
    ensures record { OnOk result (spelled.new.items ≡ record_of (owned owner (frame_view frame.now))) }
{
    spelled.clear();
    // Room for the number, whose last four bytes take the place of the frame's length.
    spelled.extend_from_slice(&[0; 4])?;
    write_frame(frame, spelled)?;
    put_number(spelled, owner);
    Ok(())
}

/// Puts a number in place of the first eight bytes.
fn put_number(bytes: &mut [u8], number: u64)
    requires { 8 ≤ length bytes.old }
    ensures { bytes.new ≡ to_be_bytes w64 number ++ drop 8 bytes.old }
{
    let (front, _) = bytes.split_at_mut(8);
    front.copy_from_slice(&number.to_be_bytes());
}

/// How many bytes the record has.
fn size_of(bytes: &[u8]) -> u32
    requires { length bytes.now ≤ 541713 }
    ensures { result ≡ length bytes.now }
{
    bytes.len() as u32
}
