ghost use Rattle.std.specs.Prelude.{◌≡◌};
ghost use Rattle.sse_journal.specs.declared.read_fault.ReadFault.TheVariants as reads;

use sse_outside::Failed;
use std::alloc::AllocError;
use std::error::Error;
use std::fmt;

/// Why a record was not read.
#[derive(Clone, Copy, Debug, PartialEq, Eq)]
pub enum ReadFault {
    /// The disk failed: its count of faults rose in the call.
    DiskFault,
    /// The bytes that were read at this place are no record.
    NotAJournal(u64),
    /// There was no memory for the record.
    NoMemory,
}

impl fmt::Display for ReadFault {
    ghost use Rattle.std.specs.Prelude.{Some};
    ghost use Rattle.sse_journal.specs.Texts.{read_fault_text};

    ghost output = { λ fault. Some (read_fault_text fault) };

    fn fmt<W: fmt::Write>(&self, f: &mut fmt::Formatter<W>) -> fmt::Result {
        match self {
            ReadFault::DiskFault => f.write_str("the disk failed"),
            ReadFault::NotAJournal(place) => write!(f, "not a journal at {place}"),
            ReadFault::NoMemory => f.write_str("out of memory"),
        }
    }
}

impl Error for ReadFault {}

impl From<Failed> for ReadFault {
    ghost from_gives = { λ _ gives. gives ≡ reads.DiskFault };

    fn from(_failed: Failed) -> ReadFault {
        ReadFault::DiskFault
    }
}

impl From<AllocError> for ReadFault {
    ghost from_gives = { λ _ gives. gives ≡ reads.NoMemory };

    fn from(_error: AllocError) -> ReadFault {
        ReadFault::NoMemory
    }
}
