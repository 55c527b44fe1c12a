ghost use Rattle.std.specs.Prelude.{◌≡◌, ◌≢◌, ◌⊎◌, ℕ, ◌+◌, ◌<◌, ◌≤◌, List, [], length, get_or, Err, IsErr, IsErrOf, IfSome, IfOk, OnOk};
ghost use Rattle.sse_outside.specs.Causes.{Rose};
ghost use Rattle.sse_outside.specs.Images.{NoOther};
ghost use Rattle.sse_frames.specs.Frames.{FrameText, InGrammar, body_of};
ghost use Rattle.sse_frames.specs.FrameViews.{frame_view};
ghost use Rattle.sse_journal.specs.AnyMoment.{LeavesOnly};
ghost use Rattle.sse_journal.specs.JournalView.{end_of, IsJournalOf};
ghost use Rattle.sse_journal.specs.Reads.{place_of};
ghost use Rattle.server_core.specs.State.{at_first};
ghost use Rattle.server_core.specs.Step.{taken};
ghost use Rattle.sse_server.specs.Taken.{IsTaken};
ghost use Rattle.sse_server.specs.Records.{CanTake, IsBadRecord, IsReplayed, TakesRecord, TakesNext};

use crate::OpenFault;
use server_core::{Refuse, Server};
use server_tables::Tables;
use sse_frames::{Frame, read_body};
use sse_journal::Journal;
use sse_outside::Disk;

/// Has a server that has taken nothing take the frames whose bodies are the records of a journal, from the first to the
/// last.
pub(crate) fn replay<T: Tables, D: Disk>(
    server: &mut Server<T>,
    journal: &Journal,
    disk: &mut D,
    body: &mut Vec<u8>,
) -> Result<(), OpenFault>
    requires first { server.old.state ≡ at_first }
    ensures replayed { OnOk result ((payloads : List (List ℕ)) → IsJournalOf payloads journal.now (D.content disk.old) (D.images disk.old) → IsReplayed payloads server.new.state) }
    ensures bad { (number : ℕ) → result ≡ Err (OpenFault.BadRecord number) → (payloads : List (List ℕ)) → IsJournalOf payloads journal.now (D.content disk.old) (D.images disk.old) → IsBadRecord payloads number }
    ensures never { (place : ℕ) → result ≡ Err (OpenFault.NotAJournal place) → (payloads : List (List ℕ)) → IsJournalOf payloads journal.now (D.content disk.old) (D.images disk.old) → ⊥ }

    // The disk stays.
    ensures kept { D.content disk.new ≡ D.content disk.old }
    ensures images_kept { NoOther (D.images disk.old) (D.images disk.new) }
    ensures quiet { LeavesOnly D.moment D.left_since disk.old disk.new (D.images disk.old) }

    // The count of faults.
    ensures later { D.faults disk.old ≤ D.faults disk.new }
    ensures failed { IsErrOf result OpenFault.DiskFault → Rose (D.faults disk.old) (D.faults disk.new) }
    ensures steady { result ≢ Err OpenFault.DiskFault → D.faults disk.new ≡ D.faults disk.old }
{
    let mut at = journal.first();
    let mut number = 0;
    'records: loop {
        match take_next(server, journal, disk, at, number, body) {
            Ok(Some(next)) => {
                at = next;
                number += 1;
            }
            Ok(None) => return Ok(()),
            Err(fault) => return Err(fault),
        }
    }
}

/// Reads the record at a place, and has the server take the frame whose body it is; nothing at the end of the journal.
fn take_next<T: Tables, D: Disk>(
    server: &mut Server<T>,
    journal: &Journal,
    disk: &mut D,
    at: u64,
    number: u64,
    body: &mut Vec<u8>,
) -> Result<Option<u64>, OpenFault>
    ensures taken { IfOk result (λ next. (payloads : List (List ℕ)) → IsJournalOf payloads journal.now (D.content disk.old) (D.images disk.old) →
        number ≤ length payloads → at ≡ place_of payloads number → TakesNext payloads number next server.old.state server.new.state) }
    ensures bad { (k : ℕ) → result ≡ Err (OpenFault.BadRecord k) → (k ≡ number) × ((payloads : List (List ℕ)) → IsJournalOf payloads journal.now (D.content disk.old) (D.images disk.old) →
        number ≤ length payloads → at ≡ place_of payloads number → (number < length payloads) × ((frame : FrameText) → IsTaken server.old.state frame → get_or payloads number [] ≢ body_of frame)) }
    ensures never { (place : ℕ) → result ≡ Err (OpenFault.NotAJournal place) → (payloads : List (List ℕ)) → IsJournalOf payloads journal.now (D.content disk.old) (D.images disk.old) →
        number ≤ length payloads → at ≡ place_of payloads number → ⊥ }
    ensures before_end { IfOk result (λ next. IfSome next (λ place. at < end_of journal.now)) }
    ensures goes_on { IfOk result (λ next. IfSome next (λ place. at + 5 ≤ place)) }
    ensures kept { D.content disk.new ≡ D.content disk.old }
    ensures images_kept { NoOther (D.images disk.old) (D.images disk.new) }
    ensures quiet { LeavesOnly D.moment D.left_since disk.old disk.new (D.images disk.old) }
    ensures later { D.faults disk.old ≤ D.faults disk.new }
    ensures failed { IsErrOf result OpenFault.DiskFault → Rose (D.faults disk.old) (D.faults disk.new) }
    ensures steady { result ≢ Err OpenFault.DiskFault → D.faults disk.new ≡ D.faults disk.old }
{
    match journal.read(disk, at, body) {
        Ok(Some(next)) => match take_record(server, body, number) {
            Ok(()) => Ok(Some(next)),
            Err(fault) => Err(fault),
        },
        Ok(None) => Ok(None),
        Err(fault) => Err(OpenFault::from(fault)),
    }
}

/// Has the server take the frame whose body the bytes of record `number` are. `NoMemory` only for a record that it would take:
/// a bad one is named first.
fn take_record<T: Tables>(server: &mut Server<T>, body: &[u8], number: u64) -> Result<(), OpenFault>
    ensures taken { OnOk result (TakesRecord server.old.state body.now server.new.state) }
    ensures bad { (k : ℕ) → result ≡ Err (OpenFault.BadRecord k) → (k ≡ number) × ((frame : FrameText) → IsTaken server.old.state frame → body.now ≢ body_of frame) }
    ensures no_memory { result ≡ Err OpenFault.NoMemory → CanTake server.old.state body.now }
    ensures known { IsErr result → (result ≡ Err OpenFault.NoMemory) ⊎ (result ≡ Err (OpenFault.BadRecord number)) }
{
    match read_body(body) {
        Ok(frame) => take_frame(server, &frame, number),
        Err(_) => Err(OpenFault::BadRecord(number)),
    }
}

/// Has the server take a frame, that of record `number`.
fn take_frame<T: Tables>(
    server: &mut Server<T>,
    frame: &Frame<'_>,
    number: u64,
) -> Result<(), OpenFault>
    requires { InGrammar (frame_view frame.now) }
    ensures taken { OnOk result (IsTaken server.old.state (frame_view frame.now)) }
    ensures state { OnOk result (server.new.state ≡ taken server.old.state (frame_view frame.now)) }
    ensures bad { (k : ℕ) → result ≡ Err (OpenFault.BadRecord k) → (k ≡ number) × (IsTaken server.old.state (frame_view frame.now) → ⊥) }
    ensures no_memory { result ≡ Err OpenFault.NoMemory → IsTaken server.old.state (frame_view frame.now) }
    ensures known { IsErr result → (result ≡ Err OpenFault.NoMemory) ⊎ (result ≡ Err (OpenFault.BadRecord number)) }
{
    if frame.update_number().is_none() {
        return Err(OpenFault::BadRecord(number));
    }
    match server.prepare(frame) {
        Ok(()) => {
            server.apply(frame);
            Ok(())
        }
        Err(Refuse::NoMemory) => Err(OpenFault::NoMemory),
        Err(_) => Err(OpenFault::BadRecord(number)),
    }
}
