ghost use Rattle.std.specs.Prelude.{◌≡◌, ◌≢◌, ℕ, List, [], Err, IfOk};
ghost use Rattle.client_journal.specs.Faults as faults;
ghost use Rattle.client_journal.specs.Faults.{EndsFor, GoesOn};
ghost use Rattle.client_registry.specs.HashNumbers.{hash_numbers};
ghost use Rattle.vault_shelf.specs.ClientRecords.{VaultOpens};
ghost use Rattle.vault_shelf.specs.Shelves as meant;
ghost use Rattle.keyed_fn.specs.KeyFormulas.{mark_of, plain_key};
ghost use Rattle.keyed_fn.specs.KeyedFn.{keyed_fn};
ghost use Rattle.script_run_texts.specs.declared.journal_stop.JournalStop.{JournalStop as Stop};
ghost use Rattle.sse_journal.specs.JournalView.{IsJournalOf, end_of};
ghost use Rattle.vault_client.specs.OnlyRead.{CountsDisk, IsOnlyRead};
ghost use Rattle.vault_client.specs.Recoveries as reads;
ghost use Rattle.vault_client.specs.Recoveries.{AreNone, GoesFurther, Recovers, TakesNext, rebuilt_in};
ghost use Rattle.vault_shelf.specs.Rebuilds.{Rebuilds};
ghost use Rattle.word_keys.specs.HashNumbers.{numbers_of_key};

use keyed_fn::Keyed;
use script_run_texts::JournalStop;
use sse_journal::{Journal, ReadFault};
use sse_outside::Disk;
use std::alloc::Global;
use vault_shelf::{RecordFault, ShelfRebuild};
use word_keys::PreparedMaster;

/// A rebuild after the next record was looked for.
#[derive(Drop)]
enum Step {
    /// There was none: all records were taken.
    All(ShelfRebuild),
    /// It was taken, and the one after it begins at a place.
    Next(ShelfRebuild, u64),
}

/// What ends a run that a record isn't read for.
fn stop_of_read(fault: ReadFault) -> JournalStop
    ensures { result ≡ faults.stop_of_read fault }
{
    match fault {
        ReadFault::DiskFault => JournalStop::Disk,
        ReadFault::NotAJournal(_) => JournalStop::NoJournal,
        ReadFault::NoMemory => JournalStop::Memory,
    }
}

/// What ends a run that a record isn't taken for.
fn stop_of_take(fault: RecordFault) -> JournalStop
    ensures { result ≡ reads.stop_of_take fault }
{
    match fault {
        RecordFault::BadRecord(number) => JournalStop::BadRecord(number),
        RecordFault::WrongKey => JournalStop::WrongKey,
        RecordFault::NoMemory => JournalStop::Memory,
    }
}

/// Reads the record at a place and takes it.
fn take_next<D: Disk>(
    journal: &Journal,
    disk: &mut D,
    at: u64,
    buffer: &mut Vec<u8>,
    rebuilt: ShelfRebuild,
) -> Result<Step, JournalStop>
    ensures takes { (payloads : List (List ℕ)) → Rebuilds payloads rebuilt → TakesNext (λ all. IsJournalOf all journal.now (D.content disk.old) (D.images disk.old)) rebuilt.mark payloads at result }
    ensures further { IfOk result (λ step. GoesFurther at (end_of journal.now) step) }
    ensures mark { IfOk result (λ step. (rebuilt_in step).mark ≡ rebuilt.mark) }
    ensures keys { IfOk result (λ step. (rebuilt_in step).shelf.keys ≡ rebuilt.shelf.keys) }
    ensures reads { IsOnlyRead D.content D.images D.moment D.left_since disk.old disk.new }
    ensures counts { CountsDisk (D.faults disk.old) (D.faults disk.new) result }
{
    match journal.read(disk, at, buffer) {
        Ok(None) => Ok(Step::All(rebuilt)),
        Ok(Some(next)) => match rebuilt.take(buffer) {
            Ok(rebuilt) => Ok(Step::Next(rebuilt, next)),
            Err(fault) => Err(stop_of_take(fault)),
        },
        Err(fault) => Err(stop_of_read(fault)),
    }
}

/// Reads all records, from the first on, and takes each.
fn take_all<D: Disk>(
    alloc: Global,
    journal: &Journal,
    disk: &mut D,
    rebuilt: ShelfRebuild,
) -> Result<ShelfRebuild, JournalStop>
    requires none { Rebuilds [] rebuilt }
    ensures recovers { Recovers (λ all. IsJournalOf all journal.now (D.content disk.old) (D.images disk.old)) rebuilt.mark result }
    ensures mark { IfOk result (λ all. all.mark ≡ rebuilt.mark) }
    ensures keys { IfOk result (λ all. all.shelf.keys ≡ rebuilt.shelf.keys) }
    ensures reads { IsOnlyRead D.content D.images D.moment D.left_since disk.old disk.new }
    ensures counts { CountsDisk (D.faults disk.old) (D.faults disk.new) result }
{
    let mut buffer = Vec::new(alloc);
    let mut at = journal.first();
    let mut rebuilt = rebuilt;
    'records: loop {
        match take_next(journal, disk, at, &mut buffer, rebuilt) {
            Ok(Step::Next(taken, next)) => {
                rebuilt = taken;
                at = next;
            }
            Ok(Step::All(taken)) => return Ok(taken),
            Err(stop) => return Err(stop),
        }
    }
}

// Promise P270 (caller): The records of a vault's journal rebuild the client's shelf under its key, or the first bad one or the wrong key is named.
//   clauses: recovers, accepted, refused, mark, keys, reads, counts; assumes: observable devices, earlier calls; not: Over a disk that isn't observable: that the records are all of its
//     file, and which error is right.
/// Reads all records of a journal, in their order, and takes each as that of the vault's client of this key. The disk is only
/// read, one record after the other into one buffer.
///
/// Errors: `WrongKey` exactly if the first record is the mark of another key; `BadRecord(number)` exactly if the record of this number, from
/// 0, is the first that isn't one or isn't accepted after those before it; each unless one of these comes first: `Disk` if the disk
/// failed, and its count of faults rose, and `Memory` for a record of at most 2^27 bytes or for what it says. `NoJournal` comes only of a
/// disk that doesn't tell its content, if what was read is no record.
pub fn recover<K: Keyed, D: Disk>(
    alloc: Global,
    master: &PreparedMaster<'_, K>,
    journal: &Journal,
    disk: &mut D,
) -> Result<ShelfRebuild, JournalStop>
    ensures recovers { Recovers (λ all. IsJournalOf all journal.now (D.content disk.old) (D.images disk.old)) (mark_of (keyed_fn K.prf K.pad) master.now) result }
    ensures accepted { (payloads : List (List ℕ)) (cs : List meant.VaultCommand) → IsJournalOf payloads journal.now (D.content disk.old) (D.images disk.old) →
        VaultOpens (mark_of (keyed_fn K.prf K.pad) master.now) payloads cs → GoesOn result }
    ensures refused { (payloads : List (List ℕ)) (stop : Stop) → IsJournalOf payloads journal.now (D.content disk.old) (D.images disk.old) →
        AreNone (mark_of (keyed_fn K.prf K.pad) master.now) payloads stop → EndsFor stop result }
    ensures mark { IfOk result (λ all. all.mark ≡ mark_of (keyed_fn K.prf K.pad) master.now) }
    ensures keys { IfOk result (λ all. all.shelf.keys ≡ numbers_of_key (plain_key (keyed_fn K.prf K.pad) master.now 13)) }
    ensures reads { IsOnlyRead D.content D.images D.moment D.left_since disk.old disk.new }
    ensures counts { CountsDisk (D.faults disk.old) (D.faults disk.new) result }
{
    let rebuilt = ShelfRebuild::new(alloc, master.mark(), master.hash_keys());
    take_all(alloc, journal, disk, rebuilt)
}
