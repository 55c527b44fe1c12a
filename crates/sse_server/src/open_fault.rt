ghost use Rattle.std.specs.Prelude.{◌≡◌};
ghost use Rattle.sse_server.specs.Faults.{of_start, of_read};

use sse_journal::{ReadFault, StartFault};
use std::error::Error;
use std::fmt;

/// Why a store was not started.
#[derive(Clone, Copy, Debug, PartialEq, Eq)]
pub enum OpenFault {
    /// The disk failed: its count of faults rose in the call.
    DiskFault,
    /// The file is not a journal: at this place, counted in bytes from 0, it stops being one.
    NotAJournal(u64),
    /// The record of this number, counted from 0, is not the body of an update frame that the server takes after those
    /// before it.
    BadRecord(u64),
    /// Out of memory.
    NoMemory,
}

impl fmt::Display for OpenFault {
    ghost use Rattle.std.specs.Prelude.{Some};
    ghost use Rattle.sse_server.specs.Texts.{open_fault_text};

    ghost output = { λ fault. Some (open_fault_text fault) };

    fn fmt<W: fmt::Write>(&self, f: &mut fmt::Formatter<W>) -> fmt::Result {
        match self {
            OpenFault::DiskFault => f.write_str("the disk failed"),
            OpenFault::NotAJournal(place) => write!(f, "not a journal at {place}"),
            OpenFault::BadRecord(number) => {
                write!(f, "record {number} is no frame that the server takes")
            }
            OpenFault::NoMemory => f.write_str("out of memory"),
        }
    }
}

impl Error for OpenFault {}

impl From<StartFault> for OpenFault {
    ghost from_gives = { λ fault gives. gives ≡ of_start fault };

    fn from(fault: StartFault) -> OpenFault {
        match fault {
            StartFault::DiskFault => OpenFault::DiskFault,
            StartFault::NotAJournal(place) => OpenFault::NotAJournal(place),
            StartFault::NoMemory => OpenFault::NoMemory,
        }
    }
}

impl From<ReadFault> for OpenFault {
    ghost from_gives = { λ fault gives. gives ≡ of_read fault };

    fn from(fault: ReadFault) -> OpenFault {
        match fault {
            ReadFault::DiskFault => OpenFault::DiskFault,
            ReadFault::NotAJournal(place) => OpenFault::NotAJournal(place),
            ReadFault::NoMemory => OpenFault::NoMemory,
        }
    }
}
