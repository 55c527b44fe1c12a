ghost use Rattle.std.specs.Prelude.{◌≡◌, ◌≢◌, ℕ, ◌+◌, ◌≤◌, List, [], ◌∷◌, ◌++◌, length, drop, None, Some, Err, IsErrOf, IfSome, IfErr, OnOk, OnErr};
ghost use Rattle.sse_outside.specs.Causes.{Rose};
ghost use Rattle.sse_frames.specs.Frames.{InGrammar, body_of};
ghost use Rattle.sse_frames.specs.FrameViews.{frame_view};
ghost use Rattle.sse_frames.specs.Sizes.{HasSizes};
ghost use Rattle.sse_journal.specs.Files.{IsPayload, GivesWithOrWithout};
ghost use Rattle.sse_journal.specs.AnyMoment.{LeavesOnly};
ghost use Rattle.sse_journal.specs.JournalView.{end_of, records_of, room_of, broken_by, IsJournalOf};
ghost use Rattle.sse_server.specs.StoreView.{IsWithin};

use sse_frames::{Frame, write_frame};
use sse_journal::{AppendFault, Journal};
use sse_outside::{DeviceFault, Disk};
use std::alloc::AllocError;

/// Appends the body of a frame as a record, unless the journal is broken: then it answers why, and touches nothing.
pub(crate) fn keep<D: Disk>(
    journal: &mut Journal,
    spelled: &mut Vec<u8>,
    disk: &mut D,
    frame: &Frame<'_>,
) -> Result<(), DeviceFault>
    requires grammar { InGrammar (frame_view frame.now) }
    requires sizes { HasSizes frame.now }
    requires within { IsWithin journal.old (D.content disk.old) }
    ensures added { OnOk result ((payloads : List (List ℕ)) → IsJournalOf payloads journal.old (D.content disk.old) (D.images disk.old) →
        IsJournalOf (payloads ++ body_of (frame_view frame.now) ∷ []) journal.new (D.content disk.new) (D.images disk.new)) }
    ensures any_moment { (payloads : List (List ℕ)) → broken_by journal.old ≡ None → IsJournalOf payloads journal.old (D.content disk.old) (D.images disk.old) →
        LeavesOnly D.moment D.left_since disk.old disk.new (GivesWithOrWithout payloads (body_of (frame_view frame.now))) }
    ensures kept { OnErr result (broken_by journal.new ≡ None → (disk.new ≡ disk.old) × ((payloads : List (List ℕ)) → IsJournalOf payloads journal.old (D.content disk.old) (D.images disk.old) →
        IsJournalOf payloads journal.new (D.content disk.old) (D.images disk.old))) }
    ensures counted { OnOk result (records_of journal.new ≡ records_of journal.old + 1) }
    ensures within_after { IsWithin journal.new (D.content disk.new) }

    // Whether it is broken.
    ensures whole { OnOk result ((broken_by journal.old ≡ None) × (broken_by journal.new ≡ None)) }
    ensures broken { IfSome (broken_by journal.old) (λ why. (result ≡ Err why) × (journal.new ≡ journal.old) × (disk.new ≡ disk.old)) }
    ensures breaks { IfErr result (λ fault. IfSome (broken_by journal.new) (λ why. fault ≡ why)) }
    ensures failed_breaks { IsErrOf result DeviceFault.Failed → broken_by journal.new ≡ Some DeviceFault.Failed }

    // The count of faults.
    ensures later { D.faults disk.old ≤ D.faults disk.new }
    ensures failed { IsErrOf result DeviceFault.Failed → broken_by journal.old ≡ None → Rose (D.faults disk.old) (D.faults disk.new) }
    ensures steady { result ≢ Err DeviceFault.Failed → D.faults disk.new ≡ D.faults disk.old }
{
    match journal.broken() {
        Some(why) => Err(why),
        None => append_body(journal, spelled, disk, frame),
    }
}

/// Appends the body of a frame to a journal that isn't broken.
fn append_body<D: Disk>(
    journal: &mut Journal,
    spelled: &mut Vec<u8>,
    disk: &mut D,
    frame: &Frame<'_>,
) -> Result<(), DeviceFault>
    requires grammar { InGrammar (frame_view frame.now) }
    requires sizes { HasSizes frame.now }
    requires whole { broken_by journal.old ≡ None }
    requires within { IfSome (D.content disk.old) (λ bytes. end_of journal.old + 1 ≤ length bytes) }
    ensures added { OnOk result ((payloads : List (List ℕ)) → IsJournalOf payloads journal.old (D.content disk.old) (D.images disk.old) →
        IsJournalOf (payloads ++ body_of (frame_view frame.now) ∷ []) journal.new (D.content disk.new) (D.images disk.new)) }
    ensures any_moment { (payloads : List (List ℕ)) → IsJournalOf payloads journal.old (D.content disk.old) (D.images disk.old) →
        LeavesOnly D.moment D.left_since disk.old disk.new (GivesWithOrWithout payloads (body_of (frame_view frame.now))) }
    ensures kept { OnErr result (broken_by journal.new ≡ None → (disk.new ≡ disk.old) × ((payloads : List (List ℕ)) → IsJournalOf payloads journal.old (D.content disk.old) (D.images disk.old) →
        IsJournalOf payloads journal.new (D.content disk.old) (D.images disk.old))) }
    ensures counted { OnOk result (records_of journal.new ≡ records_of journal.old + 1) }
    ensures within_after { IsWithin journal.new (D.content disk.new) }
    ensures whole { OnOk result (broken_by journal.new ≡ None) }
    ensures breaks { IfErr result (λ fault. IfSome (broken_by journal.new) (λ why. fault ≡ why)) }
    ensures failed_breaks { IsErrOf result DeviceFault.Failed → broken_by journal.new ≡ Some DeviceFault.Failed }
    ensures later { D.faults disk.old ≤ D.faults disk.new }
    ensures failed { IsErrOf result DeviceFault.Failed → Rose (D.faults disk.old) (D.faults disk.new) }
    ensures steady { result ≢ Err DeviceFault.Failed → D.faults disk.new ≡ D.faults disk.old }
{
    if spell(journal, spelled, frame).is_err() {
        return Err(DeviceFault::NoMemory);
    }
    let (_, body) = spelled.split_at(4);
    match journal.append(disk, body) {
        Ok(()) => Ok(()),
        Err(AppendFault::NoMemory) => Err(DeviceFault::NoMemory),
        Err(AppendFault::DiskFault) => Err(DeviceFault::Failed),
        // Not of a journal that isn't broken.
        Err(AppendFault::Broken) => Err(DeviceFault::Failed),
    }
}

/// Spells a frame into a buffer, its body after the four bytes of its length, and takes the memory for it as a record.
fn spell(journal: &mut Journal, spelled: &mut Vec<u8>, frame: &Frame<'_>) -> Result<(), AllocError>
    requires grammar { InGrammar (frame_view frame.now) }
    requires sizes { HasSizes frame.now }
    ensures long { OnOk result (4 ≤ length spelled.new.items) }
    ensures body { OnOk result (drop 4 spelled.new.items ≡ body_of (frame_view frame.now)) }
    ensures payload { OnOk result (IsPayload (drop 4 spelled.new.items)) }
    ensures room { OnOk result (length (drop 4 spelled.new.items) + 5 ≤ room_of journal.new) }
    ensures end { end_of journal.new ≡ end_of journal.old }
    ensures records { records_of journal.new ≡ records_of journal.old }
    ensures broken { broken_by journal.new ≡ broken_by journal.old }
{
    spelled.clear();
    write_frame(frame, spelled)?;
    journal.reserve(spelled.len() as u32)
}
