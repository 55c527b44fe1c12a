ghost use Rattle.std.specs.Prelude.{◌≡◌};
ghost use Rattle.sse_outside.specs.declared.device_fault.DeviceFault.TheVariants as variants;

use crate::Failed;
use std::alloc::{AllocError, AllocFailed};
use std::error::Error;
use std::fmt;

/// Why a device did not take bytes.
#[derive(Clone, Copy, Debug, PartialEq, Eq)]
pub enum DeviceFault {
    /// The device refused or failed: its count of faults rose in the call.
    Failed,
    /// There was no memory for the call.
    NoMemory,
}

impl fmt::Display for DeviceFault {
    ghost use Rattle.std.specs.Prelude.{Some};
    ghost use Rattle.sse_outside.specs.Texts.{device_fault_text};

    ghost output = { λ fault. Some (device_fault_text fault) };

    fn fmt<W: fmt::Write>(&self, f: &mut fmt::Formatter<W>) -> fmt::Result {
        match self {
            DeviceFault::Failed => f.write_str("the device failed"),
            DeviceFault::NoMemory => f.write_str("out of memory"),
        }
    }
}

impl Error for DeviceFault {}

impl From<Failed> for DeviceFault {
    ghost from_gives = { λ _ fault. fault ≡ variants.Failed };

    fn from(_failed: Failed) -> DeviceFault {
        DeviceFault::Failed
    }
}

impl From<AllocError> for DeviceFault {
    ghost from_gives = { λ _ fault. fault ≡ variants.NoMemory };

    fn from(_error: AllocError) -> DeviceFault {
        DeviceFault::NoMemory
    }
}

impl<T: Drop> From<AllocFailed<T>> for DeviceFault {
    ghost from_gives = { λ _ fault. fault ≡ variants.NoMemory };

    fn from(_failed: AllocFailed<T>) -> DeviceFault {
        DeviceFault::NoMemory
    }
}
