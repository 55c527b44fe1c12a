ghost use Rattle.std.specs.Prelude.{◌≡◌, ◌≢◌, ℕ};
ghost use Rattle.client_journal.specs.Faults as faults;

use client_rebuild::RebuildFault;
use script_run_texts::JournalStop;
use sse_journal::{ReadFault, StartFault};

/// What ends a run whose journal isn't started.
pub(crate) fn stop_of_start(fault: StartFault) -> JournalStop
    ensures is { result ≡ faults.stop_of_start fault }
    ensures never_has_records { result ≢ JournalStop.HasRecords }
    ensures never_bad_record { (number : ℕ) → result ≢ JournalStop.BadRecord number }
    ensures never_wrong_key { result ≢ JournalStop.WrongKey }
{
    match fault {
        StartFault::DiskFault => JournalStop::Disk,
        StartFault::NotAJournal(_) => JournalStop::NoJournal,
        StartFault::NoMemory => JournalStop::Memory,
    }
}

/// What ends a run that a record isn't read for.
pub(crate) fn stop_of_read(fault: ReadFault) -> JournalStop
    ensures is { result ≡ faults.stop_of_read fault }
    ensures never_has_records { result ≢ JournalStop.HasRecords }
{
    match fault {
        ReadFault::DiskFault => JournalStop::Disk,
        ReadFault::NotAJournal(_) => JournalStop::NoJournal,
        ReadFault::NoMemory => JournalStop::Memory,
    }
}

/// What ends a run that a record isn't taken for.
pub(crate) fn stop_of_take(fault: RebuildFault) -> JournalStop
    ensures is { result ≡ faults.stop_of_take fault }
    ensures never_has_records { result ≢ JournalStop.HasRecords }
    ensures never_wrong_key { result ≢ JournalStop.WrongKey }
{
    match fault {
        RebuildFault::BadRecord(number) => JournalStop::BadRecord(number),
        RebuildFault::NoMemory => JournalStop::Memory,
    }
}
