ghost use Rattle.std.specs.Prelude.{◌≡◌, ◌≢◌, ◌⊎◌, ℕ, ◌+◌, ◌^◌, ◌<◌, ◌≤◌, List, [], ◌++◌, length, map, get_or, slice_set, Err, IsErr, IsErrOf, IfSome, IfNone, IfOk, OnOk};
ghost use Rattle.std.specs.Int.{w64, to_be_bytes};
ghost use Rattle.std.specs.List.Sorted.{IsStrictlyIncreasing};
ghost use Rattle.sse_outside.specs.Causes.{Rose};
ghost use Rattle.sse_outside.specs.Images.{NoOther};
ghost use Rattle.sse_frames.specs.Frames.{FrameText, InGrammar, body_of};
ghost use Rattle.sse_frames.specs.FrameViews.{frame_view};
ghost use Rattle.sse_journal.specs.AnyMoment.{LeavesOnly};
ghost use Rattle.sse_journal.specs.JournalView.{end_of, IsJournalOf};
ghost use Rattle.sse_journal.specs.Reads.{place_of};
ghost use Rattle.server_core.specs.State.{at_first};
ghost use Rattle.server_core.specs.Step.{taken};
ghost use Rattle.sse_server.specs.Taken.{IsTaken};
ghost use Rattle.sse_server.specs.Records.{CanTake, TakesRecord};
ghost use Rattle.sse_owners.specs.Owned.{states_of};
ghost use Rattle.sse_owners.specs.OwnedRecords.{CanTakeOwned, IsBadOwned, AreReplayed, TakesOwned, TakesNextOwned};

use crate::rising::place_of;
use server_core::{Refuse, Server};
use server_tables::Tables;
use sse_frames::{Frame, read_body};
use sse_journal::Journal;
use sse_outside::Disk;
use sse_server::OpenFault;

/// Has servers that have taken nothing take the frames of their owners that the records of a journal are, from the first to the
/// last. The owners' numbers rise.
pub(crate) fn replay<T: Tables, D: Disk>(
    numbers: &[u64],
    servers: &mut [Server<T>],
    journal: &Journal,
    disk: &mut D,
    payload: &mut Vec<u8>,
) -> Result<(), OpenFault>
    requires rising { IsStrictlyIncreasing numbers.now }
    requires first { map (λ server. server.state) servers.old ≡ states_of numbers.now [] }
    ensures replayed { OnOk result ((payloads : List (List ℕ)) → IsJournalOf payloads journal.now (D.content disk.old) (D.images disk.old) → AreReplayed numbers.now payloads (map (λ server. server.state) servers.new)) }
    ensures long { length servers.new ≡ length servers.old }
    ensures bad { (number : ℕ) → result ≡ Err (OpenFault.BadRecord number) → (payloads : List (List ℕ)) → IsJournalOf payloads journal.now (D.content disk.old) (D.images disk.old) → IsBadOwned numbers.now payloads number }
    ensures never { (place : ℕ) → result ≡ Err (OpenFault.NotAJournal place) → (payloads : List (List ℕ)) → IsJournalOf payloads journal.now (D.content disk.old) (D.images disk.old) → ⊥ }

    // The disk stays.
    ensures kept { D.content disk.new ≡ D.content disk.old }
    ensures images_kept { NoOther (D.images disk.old) (D.images disk.new) }
    ensures quiet { LeavesOnly D.moment D.left_since disk.old disk.new (D.images disk.old) }

    // The count of faults.
    ensures later { D.faults disk.old ≤ D.faults disk.new }
    ensures failed { IsErrOf result OpenFault.DiskFault → Rose (D.faults disk.old) (D.faults disk.new) }
    ensures steady { result ≢ Err OpenFault.DiskFault → D.faults disk.new ≡ D.faults disk.old }
{
    let mut at = journal.first();
    let mut number = 0;
    'records: loop {
        match take_next(numbers, servers, journal, disk, at, number, payload) {
            Ok(Some(next)) => {
                at = next;
                number += 1;
            }
            Ok(None) => return Ok(()),
            Err(fault) => return Err(fault),
        }
    }
}

/// Reads the record at a place, and has its owner's server take the frame; nothing at the end of the journal.
fn take_next<T: Tables, D: Disk>(
    numbers: &[u64],
    servers: &mut [Server<T>],
    journal: &Journal,
    disk: &mut D,
    at: u64,
    number: u64,
    payload: &mut Vec<u8>,
) -> Result<Option<u64>, OpenFault>
    requires rising { IsStrictlyIncreasing numbers.now }
    requires one_each { length servers.old ≡ length numbers.now }
    ensures taken { IfOk result (λ next. (payloads : List (List ℕ)) → IsJournalOf payloads journal.now (D.content disk.old) (D.images disk.old) →
        number ≤ length payloads → at ≡ place_of payloads number → TakesNextOwned numbers.now payloads number next (map (λ server. server.state) servers.old) (map (λ server. server.state) servers.new)) }
    ensures bad { (k : ℕ) → result ≡ Err (OpenFault.BadRecord k) → (k ≡ number) × ((payloads : List (List ℕ)) → IsJournalOf payloads journal.now (D.content disk.old) (D.images disk.old) →
        number ≤ length payloads → at ≡ place_of payloads number → (number < length payloads) × (CanTakeOwned numbers.now (map (λ server. server.state) servers.old) (get_or payloads number []) → ⊥)) }
    ensures never { (place : ℕ) → result ≡ Err (OpenFault.NotAJournal place) → (payloads : List (List ℕ)) → IsJournalOf payloads journal.now (D.content disk.old) (D.images disk.old) →
        number ≤ length payloads → at ≡ place_of payloads number → ⊥ }
    ensures long { length servers.new ≡ length servers.old }
    ensures before_end { IfOk result (λ next. IfSome next (λ place. at < end_of journal.now)) }
    ensures goes_on { IfOk result (λ next. IfSome next (λ place. at + 5 ≤ place)) }
    ensures kept { D.content disk.new ≡ D.content disk.old }
    ensures images_kept { NoOther (D.images disk.old) (D.images disk.new) }
    ensures quiet { LeavesOnly D.moment D.left_since disk.old disk.new (D.images disk.old) }
    ensures later { D.faults disk.old ≤ D.faults disk.new }
    ensures failed { IsErrOf result OpenFault.DiskFault → Rose (D.faults disk.old) (D.faults disk.new) }
    ensures steady { result ≢ Err OpenFault.DiskFault → D.faults disk.new ≡ D.faults disk.old }
{
    match journal.read(disk, at, payload) {
        Ok(Some(next)) => match take_record(numbers, servers, payload, number) {
            Ok(()) => Ok(Some(next)),
            Err(fault) => Err(fault),
        },
        Ok(None) => Ok(None),
        Err(fault) => Err(OpenFault::from(fault)),
    }
}

/// Has the server of the owner in the front of a record take the frame whose body follows.
fn take_record<T: Tables>(
    numbers: &[u64],
    servers: &mut [Server<T>],
    payload: &[u8],
    number: u64,
) -> Result<(), OpenFault>
    requires rising { IsStrictlyIncreasing numbers.now }
    requires one_each { length servers.old ≡ length numbers.now }
    ensures taken { OnOk result (TakesOwned numbers.now (map (λ server. server.state) servers.old) payload.now (map (λ server. server.state) servers.new)) }
    ensures bad { (k : ℕ) → result ≡ Err (OpenFault.BadRecord k) → (k ≡ number) × (CanTakeOwned numbers.now (map (λ server. server.state) servers.old) payload.now → ⊥) }
    ensures long { length servers.new ≡ length servers.old }
    ensures known { IsErr result → (result ≡ Err OpenFault.NoMemory) ⊎ (result ≡ Err (OpenFault.BadRecord number)) }
{
    match owner_and_body(payload) {
        Some((owner, body)) => take_owned(numbers, servers, owner, body, number),
        None => Err(OpenFault::BadRecord(number)),
    }
}

/// The owner's number in front of a record, and the bytes after it; none of fewer than eight bytes.
fn owner_and_body(payload: &[u8]) -> Option<(u64, &[u8])>
    ensures some { IfSome result (λ parts. payload.now ≡ to_be_bytes w64 parts.0 ++ parts.1.now) }
    ensures short { IfSome result (λ parts. parts.0 < 2 ^ 64) }
    ensures none { IfNone result (length payload.now < 8) }
{
    match payload.split_first_chunk::<8>() {
        Some((owner, body)) => Some((number_of(owner), body)),
        None => None,
    }
}

/// The number that these bytes spell.
fn number_of(bytes: &[u8; 8]) -> u64
    ensures number { to_be_bytes w64 result ≡ bytes.now }
    ensures short { result < 2 ^ 64 }
{
    u64::from_be_bytes(*bytes)
}

/// Has the server of this owner, if it is one of them, take the frame whose body these bytes of record `number` are. `NoMemory`
/// only for a record that it would take: a bad one is named first.
fn take_owned<T: Tables>(
    numbers: &[u64],
    servers: &mut [Server<T>],
    owner: u64,
    body: &[u8],
    number: u64,
) -> Result<(), OpenFault>
    requires rising { IsStrictlyIncreasing numbers.now }
    requires one_each { length servers.old ≡ length numbers.now }
    requires short { owner < 2 ^ 64 }
    ensures taken { OnOk result (TakesOwned numbers.now (map (λ server. server.state) servers.old) (to_be_bytes w64 owner ++ body.now) (map (λ server. server.state) servers.new)) }
    ensures bad { (k : ℕ) → result ≡ Err (OpenFault.BadRecord k) → (k ≡ number) × (CanTakeOwned numbers.now (map (λ server. server.state) servers.old) (to_be_bytes w64 owner ++ body.now) → ⊥) }
    ensures long { length servers.new ≡ length servers.old }
    ensures known { IsErr result → (result ≡ Err OpenFault.NoMemory) ⊎ (result ≡ Err (OpenFault.BadRecord number)) }
{
    match place_of(numbers, owner) {
        Some(place) => take_body_at(servers, place, body, number),
        None => Err(OpenFault::BadRecord(number)),
    }
}

/// Has the server at a place take the frame whose body these bytes of record `number` are. The others stay.
fn take_body_at<T: Tables>(
    servers: &mut [Server<T>],
    place: usize,
    body: &[u8],
    number: u64,
) -> Result<(), OpenFault>
    requires { place < length servers.old }
    ensures taken { OnOk result (TakesRecord (get_or (map (λ server. server.state) servers.old) place at_first) body.now (get_or (map (λ server. server.state) servers.new) place at_first)) }
    ensures states { map (λ server. server.state) servers.new ≡ slice_set (map (λ server. server.state) servers.old) place (get_or (map (λ server. server.state) servers.new) place at_first) }
    ensures bad { (k : ℕ) → result ≡ Err (OpenFault.BadRecord k) → (k ≡ number) × ((frame : FrameText) → IsTaken (get_or (map (λ server. server.state) servers.old) place at_first) frame → body.now ≢ body_of frame) }
    ensures long { length servers.new ≡ length servers.old }
    ensures known { IsErr result → (result ≡ Err OpenFault.NoMemory) ⊎ (result ≡ Err (OpenFault.BadRecord number)) }
{
    let server = &mut servers[place];
    take_body(server, body, number)
}

/// Has a server take the frame whose body these bytes of record `number` are.
fn take_body<T: Tables>(server: &mut Server<T>, body: &[u8], number: u64) -> Result<(), OpenFault>
    ensures taken { OnOk result (TakesRecord server.old.state body.now server.new.state) }
    ensures bad { (k : ℕ) → result ≡ Err (OpenFault.BadRecord k) → (k ≡ number) × ((frame : FrameText) → IsTaken server.old.state frame → body.now ≢ body_of frame) }
    ensures no_memory { result ≡ Err OpenFault.NoMemory → CanTake server.old.state body.now }
    ensures known { IsErr result → (result ≡ Err OpenFault.NoMemory) ⊎ (result ≡ Err (OpenFault.BadRecord number)) }
{
    match read_body(body) {
        Ok(frame) => take_frame(server, &frame, number),
        Err(_) => Err(OpenFault::BadRecord(number)),
    }
}

/// Has a server take a frame, that of record `number`.
fn take_frame<T: Tables>(
    server: &mut Server<T>,
    frame: &Frame<'_>,
    number: u64,
) -> Result<(), OpenFault>
    requires { InGrammar (frame_view frame.now) }
    ensures taken { OnOk result (IsTaken server.old.state (frame_view frame.now)) }
    ensures state { OnOk result (server.new.state ≡ taken server.old.state (frame_view frame.now)) }
    ensures bad { (k : ℕ) → result ≡ Err (OpenFault.BadRecord k) → (k ≡ number) × (IsTaken server.old.state (frame_view frame.now) → ⊥) }
    ensures no_memory { result ≡ Err OpenFault.NoMemory → IsTaken server.old.state (frame_view frame.now) }
    ensures known { IsErr result → (result ≡ Err OpenFault.NoMemory) ⊎ (result ≡ Err (OpenFault.BadRecord number)) }
{
    if frame.update_number().is_none() {
        return Err(OpenFault::BadRecord(number));
    }
    match server.prepare(frame) {
        Ok(()) => {
            server.apply(frame);
            Ok(())
        }
        Err(Refuse::NoMemory) => Err(OpenFault::NoMemory),
        Err(_) => Err(OpenFault::BadRecord(number)),
    }
}
