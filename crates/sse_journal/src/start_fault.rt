ghost use Rattle.std.specs.Prelude.{◌≡◌};
ghost use Rattle.sse_journal.specs.Faults.{start_fault};
ghost use Rattle.sse_journal.specs.declared.start_fault.StartFault.TheVariants as starts;

use sse_outside::{DeviceFault, Failed};
use std::error::Error;
use std::fmt;

/// Why a journal was not started.
#[derive(Clone, Copy, Debug, PartialEq, Eq)]
pub enum StartFault {
    /// The disk failed: its count of faults rose in the call.
    DiskFault,
    /// The file is not a journal: at this place, counted in bytes from 0, it stops being one.
    NotAJournal(u64),
    /// The disk had no memory for the call.
    NoMemory,
}

impl fmt::Display for StartFault {
    ghost use Rattle.std.specs.Prelude.{Some};
    ghost use Rattle.sse_journal.specs.Texts.{start_fault_text};

    ghost output = { λ fault. Some (start_fault_text fault) };

    fn fmt<W: fmt::Write>(&self, f: &mut fmt::Formatter<W>) -> fmt::Result {
        match self {
            StartFault::DiskFault => f.write_str("the disk failed"),
            StartFault::NotAJournal(place) => write!(f, "not a journal at {place}"),
            StartFault::NoMemory => f.write_str("out of memory"),
        }
    }
}

impl Error for StartFault {}

impl From<DeviceFault> for StartFault {
    ghost from_gives = { λ fault gives. gives ≡ start_fault fault };

    fn from(fault: DeviceFault) -> StartFault {
        match fault {
            DeviceFault::Failed => StartFault::DiskFault,
            DeviceFault::NoMemory => StartFault::NoMemory,
        }
    }
}

impl From<Failed> for StartFault {
    ghost from_gives = { λ _ gives. gives ≡ starts.DiskFault };

    fn from(_failed: Failed) -> StartFault {
        StartFault::DiskFault
    }
}
