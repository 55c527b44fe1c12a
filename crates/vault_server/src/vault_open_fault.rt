ghost use Rattle.std.specs.Prelude.{◌≡◌};
ghost use Rattle.vault_server.specs.VaultFaults.{of_start, of_read};

use sse_journal::{ReadFault, StartFault};
use std::error::Error;
use std::fmt;

/// Why a vault was not started.
#[derive(Clone, Copy, Debug, PartialEq, Eq)]
pub enum VaultOpenFault {
    /// The disk failed: its count of faults rose in the call.
    DiskFault,
    /// The file is not a journal: at this place, counted in bytes from 0, it stops being one.
    NotAJournal(u64),
    /// The record of this number, counted from 0, is not the body of an update that the vault takes after those before it.
    BadRecord(u64),
    /// Out of memory.
    NoMemory,
}

impl fmt::Display for VaultOpenFault {
    ghost use Rattle.std.specs.Prelude.{Some};
    ghost use Rattle.vault_server.specs.VaultTexts.{open_fault_text};

    ghost output = { λ fault. Some (open_fault_text fault) };

    fn fmt<W: fmt::Write>(&self, f: &mut fmt::Formatter<W>) -> fmt::Result {
        match self {
            VaultOpenFault::DiskFault => f.write_str("the disk failed"),
            VaultOpenFault::NotAJournal(place) => write!(f, "not a journal at {place}"),
            VaultOpenFault::BadRecord(number) => {
                write!(f, "record {number} is no update that the vault takes")
            }
            VaultOpenFault::NoMemory => f.write_str("out of memory"),
        }
    }
}

impl Error for VaultOpenFault {}

impl From<StartFault> for VaultOpenFault {
    ghost from_gives = { λ fault gives. gives ≡ of_start fault };

    fn from(fault: StartFault) -> VaultOpenFault {
        match fault {
            StartFault::DiskFault => VaultOpenFault::DiskFault,
            StartFault::NotAJournal(place) => VaultOpenFault::NotAJournal(place),
            StartFault::NoMemory => VaultOpenFault::NoMemory,
        }
    }
}

impl From<ReadFault> for VaultOpenFault {
    ghost from_gives = { λ fault gives. gives ≡ of_read fault };

    fn from(fault: ReadFault) -> VaultOpenFault {
        match fault {
            ReadFault::DiskFault => VaultOpenFault::DiskFault,
            ReadFault::NotAJournal(place) => VaultOpenFault::NotAJournal(place),
            ReadFault::NoMemory => VaultOpenFault::NoMemory,
        }
    }
}
