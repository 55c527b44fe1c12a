ghost use Rattle.std.specs.Prelude.{◌≡◌, ◌≢◌, ◌⊎◌, ℕ, ◌+◌, ◌<◌, ◌≤◌, List, [], length, get_or, Err, IsErr, IfSome, IfOk, OnOk};
ghost use Rattle.sse_journal.specs.JournalView.{end_of, IsJournalOf};
ghost use Rattle.sse_journal.specs.Reads.{place_of};
ghost use Rattle.vault_server.specs.VaultFrames.{InVault, VaultFrameText, vault_body};
ghost use Rattle.vault_server.specs.VaultState.{IsVaultTaken, empty_vault, vault_taken};
ghost use Rattle.vault_server.specs.VaultRecords.{IsBadRecord, IsReplayed, TakesNext, TakesRecord};
ghost use Rattle.vault_server.specs.VaultStarts.{CountsStart, IsNextPlace, OnlyReads};
ghost use Rattle.vault_server.specs.VaultViews.{frame_view};

use crate::slots::Vault;
use crate::{VaultFrame, VaultOpenFault, read_vault_frame};
use sse_journal::Journal;
use sse_outside::Disk;

/// Has a vault that holds nothing take the frames whose bodies are the records of a journal, from the first to the
/// last.
pub(crate) fn replay<D: Disk>(
    vault: &mut Vault,
    journal: &Journal,
    disk: &mut D,
    body: &mut Vec<u8>,
) -> Result<(), VaultOpenFault>
    requires first { vault.old ≡ empty_vault }
    ensures replayed { OnOk result ((payloads : List (List ℕ)) → IsJournalOf payloads journal.now (D.content disk.old) (D.images disk.old) → IsReplayed payloads vault.new) }
    ensures bad { (number : ℕ) → result ≡ Err (VaultOpenFault.BadRecord number) → (payloads : List (List ℕ)) → IsJournalOf payloads journal.now (D.content disk.old) (D.images disk.old) → IsBadRecord payloads number }
    ensures never { (place : ℕ) → result ≡ Err (VaultOpenFault.NotAJournal place) → (payloads : List (List ℕ)) → IsJournalOf payloads journal.now (D.content disk.old) (D.images disk.old) → ⊥ }
    ensures disk { OnlyReads D.content D.images D.moment D.left_since disk.old disk.new }
    ensures count { CountsStart result (D.faults disk.old) (D.faults disk.new) }
{
    let mut at = journal.first();
    let mut number = 0;
    'records: loop {
        match take_next(vault, journal, disk, at, number, body) {
            Ok(Some(next)) => {
                at = next;
                number += 1;
            }
            Ok(None) => return Ok(()),
            Err(fault) => return Err(fault),
        }
    }
}

/// Reads the record at a place, and has the vault take the frame whose body it is; nothing at the end of the journal.
fn take_next<D: Disk>(
    vault: &mut Vault,
    journal: &Journal,
    disk: &mut D,
    at: u64,
    number: u64,
    body: &mut Vec<u8>,
) -> Result<Option<u64>, VaultOpenFault>
    ensures taken { IfOk result (λ next. (payloads : List (List ℕ)) → IsJournalOf payloads journal.now (D.content disk.old) (D.images disk.old) →
        number ≤ length payloads → at ≡ place_of payloads number → TakesNext payloads number next vault.old vault.new) }
    ensures bad { (k : ℕ) → result ≡ Err (VaultOpenFault.BadRecord k) → (k ≡ number) × ((payloads : List (List ℕ)) → IsJournalOf payloads journal.now (D.content disk.old) (D.images disk.old) →
        number ≤ length payloads → at ≡ place_of payloads number → (number < length payloads) × ((frame : VaultFrameText) → IsVaultTaken vault.old frame → get_or payloads number [] ≢ vault_body frame)) }
    ensures never { (place : ℕ) → result ≡ Err (VaultOpenFault.NotAJournal place) → (payloads : List (List ℕ)) → IsJournalOf payloads journal.now (D.content disk.old) (D.images disk.old) →
        number ≤ length payloads → at ≡ place_of payloads number → ⊥ }
    ensures goes_on { IfOk result (λ next. IfSome next (λ place. IsNextPlace at (end_of journal.now) place)) }
    ensures disk { OnlyReads D.content D.images D.moment D.left_since disk.old disk.new }
    ensures count { CountsStart result (D.faults disk.old) (D.faults disk.new) }
{
    match journal.read(disk, at, body) {
        Ok(Some(next)) => match take_record(vault, body, number) {
            Ok(()) => Ok(Some(next)),
            Err(fault) => Err(fault),
        },
        Ok(None) => Ok(None),
        Err(fault) => Err(VaultOpenFault::from(fault)),
    }
}

/// Has the vault take the frame whose body the bytes of record `number` are.
fn take_record(vault: &mut Vault, body: &[u8], number: u64) -> Result<(), VaultOpenFault>
    ensures taken { OnOk result (TakesRecord vault.old body.now vault.new) }
    ensures bad { (k : ℕ) → result ≡ Err (VaultOpenFault.BadRecord k) → (k ≡ number) × ((frame : VaultFrameText) → IsVaultTaken vault.old frame → body.now ≢ vault_body frame) }
    ensures known { IsErr result → (result ≡ Err VaultOpenFault.NoMemory) ⊎ (result ≡ Err (VaultOpenFault.BadRecord number)) }
{
    match read_vault_frame(body) {
        Ok(frame) => take_frame(vault, &frame, number),
        Err(_) => Err(VaultOpenFault::BadRecord(number)),
    }
}

/// Has the vault take a frame, that of record `number`. `NoMemory` only for a frame that it would take: a bad one is named first.
fn take_frame(vault: &mut Vault, frame: &VaultFrame<'_>, number: u64) -> Result<(), VaultOpenFault>
    requires { InVault (frame_view frame.now) }
    ensures taken { OnOk result (IsVaultTaken vault.old (frame_view frame.now)) }
    ensures state { OnOk result (vault.new ≡ vault_taken vault.old (frame_view frame.now)) }
    ensures bad { (k : ℕ) → result ≡ Err (VaultOpenFault.BadRecord k) → (k ≡ number) × (IsVaultTaken vault.old (frame_view frame.now) → ⊥) }
    ensures known { IsErr result → (result ≡ Err VaultOpenFault.NoMemory) ⊎ (result ≡ Err (VaultOpenFault.BadRecord number)) }
{
    if frame.number().is_none() || vault.refusal(frame).is_some() {
        return Err(VaultOpenFault::BadRecord(number));
    }
    if vault.prepare(frame).is_err() {
        return Err(VaultOpenFault::NoMemory);
    }
    vault.finish(frame);
    Ok(())
}
