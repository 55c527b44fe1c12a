ghost use Rattle.std.specs.Prelude.{◌≡◌};
ghost use Rattle.script_run_texts.specs.Stops.{journal_cause, journal_status};
ghost use Rattle.sse_script.specs.ShownViews.{cause_view};

use sse_script::Cause;

/// What ends a run in the opening of its journal: what the journal is found to hold, or the reading of it.
#[derive(Clone, Copy)]
pub enum JournalStop {
    /// The disk holds no journal, or one without a record, and the run was to go on from its records.
    NoJournal,
    /// The journal has records, and the run was to begin a new one.
    HasRecords,
    /// The record of this number, counted from 0, isn't one that can stand there.
    BadRecord(u64),
    /// The records were kept under another key.
    WrongKey,
    /// The disk failed.
    Disk,
    /// There is no memory for what is read.
    Memory,
}

impl JournalStop {
    // Promise P123, also here; clauses: status
    /// The exit status.
    pub fn status(&self) -> u8
        ensures status { result ≡ journal_status self.now }
    {
        match self {
            JournalStop::NoJournal => 10,
            JournalStop::HasRecords => 10,
            JournalStop::BadRecord(_) => 10,
            JournalStop::WrongKey => 11,
            JournalStop::Disk => 6,
            JournalStop::Memory => 7,
        }
    }

    // Promise P123, also here; clauses: ensures
    /// The cause that the last line of the run tells.
    pub fn cause(&self) -> Cause<'static>
        ensures { cause_view result ≡ journal_cause self.now }
    {
        match self {
            JournalStop::NoJournal => Cause::NoJournal,
            JournalStop::HasRecords => Cause::HasRecords,
            JournalStop::BadRecord(number) => Cause::BadRecord { number: *number },
            JournalStop::WrongKey => Cause::WrongKey,
            JournalStop::Disk => Cause::DiskFault,
            JournalStop::Memory => Cause::NoMemory,
        }
    }
}
