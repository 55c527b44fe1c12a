ghost use Rattle.std.specs.Prelude.{◌≡◌, ◌≢◌, ◌<◌, ◌≤◌, ℕ, List, [], Err, IfOk, IfSome};
ghost use Rattle.client_journal.specs.Recordings.{IsRebuiltFrom, TakesAll, TakesNext};
ghost use Rattle.client_journal.specs.Faults.{EndsFor, GoesOn};
ghost use Rattle.client_rebuild.specs.Rebuilds.{Rebuilds};
ghost use Rattle.client_records.specs.Openings.{IsBadRecord, Opens, OpensElsewhere};
ghost use Rattle.client_registry.specs.HashNumbers.{hash_numbers};
ghost use Rattle.client_registry.specs.Epochs.{key_now};
ghost use Rattle.client_registry.specs.Run.{Epochs};
ghost use Rattle.keyed_fn.specs.KeyFormulas.{mark_of, plain_key};
ghost use Rattle.keyed_fn.specs.KeyedFn.{keyed_fn};
ghost use Rattle.sse_journal.specs.AnyMoment.{LeavesOnly};
ghost use Rattle.sse_journal.specs.JournalView.{IsJournalOf, end_of};
ghost use Rattle.sse_outside.specs.Causes.{Rose};
ghost use Rattle.sse_outside.specs.Images.{NoOther};
ghost use Rattle.word_keys.specs.HashNumbers.{numbers_of_key};

use crate::faults::{stop_of_read, stop_of_take};
use client_rebuild::{Rebuild, Rebuilt, WrongKey};
use keyed_fn::Keyed;
use script_run_texts::JournalStop;
use sse_journal::Journal;
use sse_outside::Disk;
use std::alloc::Global;
use word_keys::MasterKey;

/// Reads the record at a place and takes it; gives the next place, and `None` where there is no record more.
fn take_next<D: Disk>(
    alloc: Global,
    journal: &Journal,
    disk: &mut D,
    at: u64,
    buffer: &mut Vec<u8>,
    rebuilt: &mut Rebuild,
) -> Result<Option<u64>, JournalStop>
    ensures takes { (payloads : List (List ℕ)) → Rebuilds payloads rebuilt.old →
        TakesNext (λ all. IsJournalOf all journal.now (D.content disk.old) (D.images disk.old)) payloads at result rebuilt.new }
    ensures on { IfOk result (λ next. IfSome next (λ place. (at < place) × (at < end_of journal.now))) }
    ensures never_has_records { result ≢ Err JournalStop.HasRecords }
    ensures never_wrong_key { result ≢ Err JournalStop.WrongKey }

    // The key stays, and the disk.
    ensures key { rebuilt.new.key ≡ rebuilt.old.key }
    ensures mark { rebuilt.new.mark ≡ rebuilt.old.mark }
    ensures hash_keys { rebuilt.new.hash_keys ≡ rebuilt.old.hash_keys }
    ensures kept { D.content disk.new ≡ D.content disk.old }
    ensures images_kept { NoOther (D.images disk.old) (D.images disk.new) }
    ensures quiet { LeavesOnly D.moment D.left_since disk.old disk.new (D.images disk.old) }

    // The count of faults.
    ensures later { D.faults disk.old ≤ D.faults disk.new }
    ensures failed { result ≡ Err JournalStop.Disk → Rose (D.faults disk.old) (D.faults disk.new) }
    ensures steady { result ≢ Err JournalStop.Disk → D.faults disk.new ≡ D.faults disk.old }
{
    match journal.read(disk, at, buffer) {
        Ok(None) => Ok(None),
        Ok(Some(next)) => match rebuilt.take(alloc, buffer) {
            Ok(()) => Ok(Some(next)),
            Err(fault) => Err(stop_of_take(fault)),
        },
        Err(fault) => Err(stop_of_read(fault)),
    }
}

/// Reads all records, from the first on, and takes each.
fn take_all<D: Disk>(
    alloc: Global,
    journal: &Journal,
    disk: &mut D,
    rebuilt: &mut Rebuild,
) -> Result<(), JournalStop>
    requires none { Rebuilds [] rebuilt.old }
    ensures takes { TakesAll (λ all. IsJournalOf all journal.now (D.content disk.old) (D.images disk.old)) result rebuilt.new }
    ensures never_has_records { result ≢ Err JournalStop.HasRecords }
    ensures never_wrong_key { result ≢ Err JournalStop.WrongKey }

    // The key stays, and the disk.
    ensures key { rebuilt.new.key ≡ rebuilt.old.key }
    ensures mark { rebuilt.new.mark ≡ rebuilt.old.mark }
    ensures hash_keys { rebuilt.new.hash_keys ≡ rebuilt.old.hash_keys }
    ensures kept { D.content disk.new ≡ D.content disk.old }
    ensures images_kept { NoOther (D.images disk.old) (D.images disk.new) }
    ensures quiet { LeavesOnly D.moment D.left_since disk.old disk.new (D.images disk.old) }

    // The count of faults.
    ensures later { D.faults disk.old ≤ D.faults disk.new }
    ensures failed { result ≡ Err JournalStop.Disk → Rose (D.faults disk.old) (D.faults disk.new) }
    ensures steady { result ≢ Err JournalStop.Disk → D.faults disk.new ≡ D.faults disk.old }
{
    let mut buffer = Vec::new(alloc);
    let mut at = journal.first();
    'records: loop {
        match take_next(alloc, journal, disk, at, &mut buffer, rebuilt) {
            Ok(Some(next)) => at = next,
            Ok(None) => return Ok(()),
            Err(fault) => return Err(fault),
        }
    }
}

// Promise P122 (caller): A rebuild takes all records of a journal under the last epoch's key, or names the first bad one or the wrong key.
//   clauses: rebuilt, key, hash_keys, wrong, wrong_refused, bad, bad_refused, accepted, no_journal, never_has_records, holds, kept, images_kept, quiet, later, failed, steady;
//     assumes: observable devices, earlier calls; not: Over a disk that isn't observable: that the records are all of its file, and which error is right.
/// Reads all records of a journal, in their order, and takes each; then compares this key with that of the last epoch. The disk is only
/// read, one record after the other into one buffer.
///
/// Errors: `BadRecord(number)` exactly where the record of this number, from 0, is the first that isn't one or isn't accepted after
/// those before it; else `WrongKey` exactly where the last of the records' epochs has another key; each unless one of the others comes
/// first: `Disk` where the disk failed, with its count of faults risen, and `Memory`, for a record of at most 2^27 bytes or for what it
/// says. `NoJournal` comes only of a disk that doesn't tell its content, where what was read is no record, and `HasRecords` never.
pub fn rebuild<K: Keyed, D: Disk>(
    alloc: Global,
    keyed: &K,
    key: MasterKey,
    journal: &Journal,
    disk: &mut D,
) -> Result<Rebuilt, JournalStop>
    ensures rebuilt { IfOk result (λ rebuilt. IsRebuiltFrom (λ payloads. IsJournalOf payloads journal.now (D.content disk.old) (D.images disk.old)) (mark_of (keyed_fn K.prf K.pad) key) rebuilt) }
    ensures key { IfOk result (λ rebuilt. rebuilt.key ≡ key) }
    ensures hash_keys { IfOk result (λ rebuilt. hash_numbers rebuilt.hash_keys ≡ numbers_of_key (plain_key (keyed_fn K.prf K.pad) key 13)) }

    // Why it isn't, over a disk that tells its content.
    ensures wrong { result ≡ Err JournalStop.WrongKey → (payloads : List (List ℕ)) → IsJournalOf payloads journal.now (D.content disk.old) (D.images disk.old) →
        OpensElsewhere (mark_of (keyed_fn K.prf K.pad) key) payloads }
    ensures wrong_refused { (payloads : List (List ℕ)) → IsJournalOf payloads journal.now (D.content disk.old) (D.images disk.old) →
        OpensElsewhere (mark_of (keyed_fn K.prf K.pad) key) payloads → EndsFor JournalStop.WrongKey result }
    ensures bad { (number : ℕ) → result ≡ Err (JournalStop.BadRecord number) → (payloads : List (List ℕ)) → IsJournalOf payloads journal.now (D.content disk.old) (D.images disk.old) →
        IsBadRecord payloads number }
    ensures bad_refused { (payloads : List (List ℕ)) (number : ℕ) → IsJournalOf payloads journal.now (D.content disk.old) (D.images disk.old) →
        IsBadRecord payloads number → EndsFor (JournalStop.BadRecord number) result }
    ensures accepted { (payloads : List (List ℕ)) (first : List ℕ) (es : Epochs) → IsJournalOf payloads journal.now (D.content disk.old) (D.images disk.old) →
        Opens first payloads es → key_now first es ≡ mark_of (keyed_fn K.prf K.pad) key → GoesOn result }
    ensures no_journal { (payloads : List (List ℕ)) → IsJournalOf payloads journal.now (D.content disk.old) (D.images disk.old) → result ≢ Err JournalStop.NoJournal }
    ensures never_has_records { result ≢ Err JournalStop.HasRecords }

    // The disk stays.
    ensures holds { (payloads : List (List ℕ)) → IsJournalOf payloads journal.now (D.content disk.old) (D.images disk.old) → IsJournalOf payloads journal.now (D.content disk.new) (D.images disk.new) }
    ensures kept { D.content disk.new ≡ D.content disk.old }
    ensures images_kept { NoOther (D.images disk.old) (D.images disk.new) }
    ensures quiet { LeavesOnly D.moment D.left_since disk.old disk.new (D.images disk.old) }

    // The count of faults.
    ensures later { D.faults disk.old ≤ D.faults disk.new }
    ensures failed { result ≡ Err JournalStop.Disk → Rose (D.faults disk.old) (D.faults disk.new) }
    ensures steady { result ≢ Err JournalStop.Disk → D.faults disk.new ≡ D.faults disk.old }
{
    let mut taken = Rebuild::new(alloc, keyed, key);
    match take_all(alloc, journal, disk, &mut taken) {
        Ok(()) => match taken.finish() {
            Ok(rebuilt) => Ok(rebuilt),
            Err(WrongKey) => Err(JournalStop::WrongKey),
        },
        Err(fault) => Err(fault),
    }
}
