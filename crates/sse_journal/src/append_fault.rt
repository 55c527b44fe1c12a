ghost use Rattle.std.specs.Prelude.{◌≡◌};
ghost use Rattle.sse_journal.specs.Faults.{append_fault};

use sse_outside::DeviceFault;
use std::error::Error;
use std::fmt;

/// Why a record was not appended.
#[derive(Clone, Copy, Debug, PartialEq, Eq)]
pub enum AppendFault {
    /// The disk failed: its count of faults rose in the call.
    DiskFault,
    /// The disk had no memory for the call.
    NoMemory,
    /// An earlier append on this journal was refused, so that it has to be started again.
    Broken,
}

impl fmt::Display for AppendFault {
    ghost use Rattle.std.specs.Prelude.{Some};
    ghost use Rattle.sse_journal.specs.Texts.{append_fault_text};

    ghost output = { λ fault. Some (append_fault_text fault) };

    fn fmt<W: fmt::Write>(&self, f: &mut fmt::Formatter<W>) -> fmt::Result {
        match self {
            AppendFault::DiskFault => f.write_str("the disk failed"),
            AppendFault::NoMemory => f.write_str("out of memory"),
            AppendFault::Broken => f.write_str("an earlier append was refused"),
        }
    }
}

impl Error for AppendFault {}

impl From<DeviceFault> for AppendFault {
    ghost from_gives = { λ fault gives. gives ≡ append_fault fault };

    fn from(fault: DeviceFault) -> AppendFault {
        match fault {
            DeviceFault::Failed => AppendFault::DiskFault,
            DeviceFault::NoMemory => AppendFault::NoMemory,
        }
    }
}
