ghost use Rattle.std.specs.Prelude.{◌≡◌, ◌≢◌, ◌⊎◌, ℕ, List, ◌+◌, ◌<◌, ◌≤◌, [], length, is_some, option_map, None, Err, IfErr, IfOk, IfSome, IsErr, OnErr, OnOk};
ghost use Rattle.sse_outside.specs.Causes.{Rose};
ghost use Rattle.sse_journal.specs.AnyMoment.{HasSynced, LeavesOnly};
ghost use Rattle.sse_journal.specs.FileRecords.{records_in_file};
ghost use Rattle.sse_journal.specs.Files.{Gives, GivesAs};
ghost use Rattle.sse_journal.specs.Holds.{IsAllOf};
ghost use Rattle.sse_journal.specs.JournalView.{IsJournalFrom, IsJournalOf, broken_by, end_of, records_of};
ghost use Rattle.client_journal.specs.Openings.{GivesSome, HasNoRecord, IsBegun, IsNoJournal, IsOfRecords, IsReopened};
ghost use Rattle.client_journal.specs.Faults.{EndsFor, GoesOn};

use crate::faults::stop_of_start;
use script_run_texts::JournalStop;
use sse_journal::Journal;
use sse_outside::Disk;
use std::alloc::Global;

/// Starts the journal of a disk, as `Journal::start`.
///
/// Errors: `NoJournal` where the file is no journal, `Disk` where the disk failed, `Memory` from the disk.
fn started<D: Disk>(alloc: Global, disk: &mut D) -> Result<Journal, JournalStop>
    ensures started { IfOk result (λ journal. IfSome (D.content disk.old) (λ bytes. IsJournalFrom bytes journal (D.content disk.new) (D.images disk.new))) }
    ensures whole { IfOk result (λ journal. broken_by journal ≡ None) }
    ensures within { IfOk result (λ journal. IfSome (D.content disk.new) (λ bytes. end_of journal + 1 ≤ length bytes)) }
    ensures told { is_some (D.content disk.new) ≡ is_some (D.content disk.old) }
    ensures any_moment { HasSynced D.content D.images D.moment D.left_since disk.old disk.new GivesAs
        ⊎ ((IsErr result) × LeavesOnly D.moment D.left_since disk.old disk.new (D.images disk.old)) }

    // Why it isn't.
    ensures no_journal { result ≡ Err JournalStop.NoJournal → IfSome (D.content disk.old) (λ bytes. IsNoJournal bytes × IsAllOf bytes (D.content disk.new) (D.images disk.new)) }
    ensures no_journal_refused { IfSome (D.content disk.old) (λ bytes. IsNoJournal bytes → EndsFor JournalStop.NoJournal result) }
    ensures accepted { IfSome (D.content disk.old) (λ bytes. (payloads : List (List ℕ)) → Gives payloads bytes → GoesOn result) }

    // Never a stop of another call.
    ensures never_has_records { result ≢ Err JournalStop.HasRecords }
    ensures never_bad_record { (number : ℕ) → result ≢ Err (JournalStop.BadRecord number) }
    ensures never_wrong_key { result ≢ Err JournalStop.WrongKey }

    // The count of faults.
    ensures later { D.faults disk.old ≤ D.faults disk.new }
    ensures failed { result ≡ Err JournalStop.Disk → Rose (D.faults disk.old) (D.faults disk.new) }
    ensures steady { result ≢ Err JournalStop.Disk → D.faults disk.new ≡ D.faults disk.old }
{
    match Journal::start(alloc, disk) {
        Ok(journal) => Ok(journal),
        Err(fault) => Err(stop_of_start(fault)),
    }
}

/// Refuses a journal that has a record.
fn refuse_records(journal: &Journal) -> Result<(), JournalStop>
    ensures none { OnOk result (records_of journal.now ≡ 0) }
    ensures some { OnErr result (0 < records_of journal.now) }
    ensures cause { IfErr result (λ stop. stop ≡ JournalStop.HasRecords) }
{
    if journal.records() != 0 {
        return Err(JournalStop::HasRecords);
    }
    Ok(())
}

/// Refuses a journal that has no record.
fn require_records(journal: &Journal) -> Result<(), JournalStop>
    ensures some { OnOk result (0 < records_of journal.now) }
    ensures none { OnErr result (records_of journal.now ≡ 0) }
    ensures cause { IfErr result (λ stop. stop ≡ JournalStop.NoJournal) }
{
    if journal.records() == 0 {
        return Err(JournalStop::NoJournal);
    }
    Ok(())
}

// Promise P121 (caller): `begin` opens only a file without records, `reopen` only one with records; a refusal keeps the records and names its cause.
//   clauses: begun, holds, no_records, same_records, none, whole, within, told, any_moment, has_records, has_records_refused, no_journal, no_journal_refused, accepted, same_refused,
//     never_bad_record, never_wrong_key, later, failed, steady; assumes: observable devices, disk model; not: That the records are a client's: P122 finds it. A disk fault or out of
//     memory may come in place of each cause, and then nothing is said of the file's records.
/// Begins a journal on a disk that has no record: a file of less than nine bytes becomes one, of any other what stands behind the
/// place of the first record is cut.
///
/// It begins with a sync, as `Journal::start`; from then on a crash at any moment of the call, and after any error, leaves a file that
/// gives the same records. Errors: `HasRecords` exactly where the file gives records; `NoJournal` exactly where it is no journal, which
/// stays as it was; each unless one of the others comes first: `Disk` where the disk failed, with its count of faults risen, and `Memory`
/// from the disk.
pub fn begin<D: Disk>(alloc: Global, disk: &mut D) -> Result<Journal, JournalStop>
    ensures begun { IfOk result (λ journal. IfSome (D.content disk.old) (λ bytes. IsBegun bytes journal (D.content disk.new) (D.images disk.new))) }
    ensures holds { IfOk result (λ journal. IfSome (D.content disk.new) (λ bytes. IsJournalOf [] journal (D.content disk.new) (D.images disk.new))) }
    ensures no_records { OnOk result (IfSome (D.content disk.old) (λ bytes. records_in_file bytes ≡ [])) }
    ensures same_records { OnOk result (option_map records_in_file (D.content disk.new) ≡ option_map records_in_file (D.content disk.old)) }
    ensures none { IfOk result (λ journal. records_of journal ≡ 0) }
    ensures whole { IfOk result (λ journal. broken_by journal ≡ None) }
    ensures within { IfOk result (λ journal. IfSome (D.content disk.new) (λ bytes. end_of journal + 1 ≤ length bytes)) }
    ensures told { is_some (D.content disk.new) ≡ is_some (D.content disk.old) }
    ensures any_moment { HasSynced D.content D.images D.moment D.left_since disk.old disk.new GivesAs
        ⊎ ((IsErr result) × LeavesOnly D.moment D.left_since disk.old disk.new (D.images disk.old)) }

    // Why it doesn't begin.
    ensures has_records { result ≡ Err JournalStop.HasRecords → IfSome (D.content disk.old) (λ bytes. GivesSome bytes) }
    ensures has_records_refused { IfSome (D.content disk.old) (λ bytes. GivesSome bytes → EndsFor JournalStop.HasRecords result) }
    ensures no_journal { result ≡ Err JournalStop.NoJournal → IfSome (D.content disk.old) (λ bytes. IsNoJournal bytes × IsAllOf bytes (D.content disk.new) (D.images disk.new)) }
    ensures no_journal_refused { IfSome (D.content disk.old) (λ bytes. IsNoJournal bytes → EndsFor JournalStop.NoJournal result) }
    ensures accepted { IfSome (D.content disk.old) (λ bytes. Gives [] bytes → GoesOn result) }
    ensures same_refused { OnErr result (result ≢ Err JournalStop.Disk → result ≢ Err JournalStop.Memory → option_map records_in_file (D.content disk.new) ≡ option_map records_in_file (D.content disk.old)) }

    // Never a stop of another call.
    ensures never_bad_record { (number : ℕ) → result ≢ Err (JournalStop.BadRecord number) }
    ensures never_wrong_key { result ≢ Err JournalStop.WrongKey }

    // The count of faults.
    ensures later { D.faults disk.old ≤ D.faults disk.new }
    ensures failed { result ≡ Err JournalStop.Disk → Rose (D.faults disk.old) (D.faults disk.new) }
    ensures steady { result ≢ Err JournalStop.Disk → D.faults disk.new ≡ D.faults disk.old }
{
    let journal = started(alloc, disk)?;
    refuse_records(&journal)?;
    Ok(journal)
}

// Promise P121, also here; clauses: reopened, holds, same_records, some, whole, within, told, any_moment, no_journal, no_journal_refused, no_journal_stays, accepted, same_refused,
//     never_has_records, never_bad_record, never_wrong_key, later, failed, steady
/// Starts the journal of a disk that has records, to go on from them: what stands behind the last one is cut.
///
/// It begins with a sync, as `Journal::start`; from then on a crash at any moment of the call, and after any error, leaves a file that
/// gives the same records. Errors: `NoJournal` exactly where the file is no journal or gives no record, a file of less than nine bytes
/// among these, unless one of the others comes first: `Disk` where the disk failed, with its count of faults risen, and `Memory` from the
/// disk.
pub fn reopen<D: Disk>(alloc: Global, disk: &mut D) -> Result<Journal, JournalStop>
    ensures reopened { IfOk result (λ journal. IfSome (D.content disk.old) (λ bytes. IsReopened bytes journal (D.content disk.new) (D.images disk.new))) }
    ensures holds { IfOk result (λ journal. IfSome (D.content disk.new) (λ bytes. IsOfRecords journal (D.content disk.new) (D.images disk.new))) }
    ensures same_records { OnOk result (option_map records_in_file (D.content disk.new) ≡ option_map records_in_file (D.content disk.old)) }
    ensures some { IfOk result (λ journal. 0 < records_of journal) }
    ensures whole { IfOk result (λ journal. broken_by journal ≡ None) }
    ensures within { IfOk result (λ journal. IfSome (D.content disk.new) (λ bytes. end_of journal + 1 ≤ length bytes)) }
    ensures told { is_some (D.content disk.new) ≡ is_some (D.content disk.old) }
    ensures any_moment { HasSynced D.content D.images D.moment D.left_since disk.old disk.new GivesAs
        ⊎ ((IsErr result) × LeavesOnly D.moment D.left_since disk.old disk.new (D.images disk.old)) }

    // Why it isn't gone on with.
    ensures no_journal { result ≡ Err JournalStop.NoJournal → IfSome (D.content disk.old) (λ bytes. HasNoRecord bytes) }
    ensures no_journal_refused { IfSome (D.content disk.old) (λ bytes. HasNoRecord bytes → EndsFor JournalStop.NoJournal result) }
    ensures accepted { IfSome (D.content disk.old) (λ bytes. GivesSome bytes → GoesOn result) }
    ensures same_refused { OnErr result (result ≢ Err JournalStop.Disk → result ≢ Err JournalStop.Memory → option_map records_in_file (D.content disk.new) ≡ option_map records_in_file (D.content disk.old)) }
    ensures no_journal_stays { result ≡ Err JournalStop.NoJournal → IfSome (D.content disk.old) (λ bytes. IsNoJournal bytes → IsAllOf bytes (D.content disk.new) (D.images disk.new)) }

    // Never a stop of another call.
    ensures never_has_records { result ≢ Err JournalStop.HasRecords }
    ensures never_bad_record { (number : ℕ) → result ≢ Err (JournalStop.BadRecord number) }
    ensures never_wrong_key { result ≢ Err JournalStop.WrongKey }

    // The count of faults.
    ensures later { D.faults disk.old ≤ D.faults disk.new }
    ensures failed { result ≡ Err JournalStop.Disk → Rose (D.faults disk.old) (D.faults disk.new) }
    ensures steady { result ≢ Err JournalStop.Disk → D.faults disk.new ≡ D.faults disk.old }
{
    let journal = started(alloc, disk)?;
    require_records(&journal)?;
    Ok(journal)
}
