ghost use Rattle.std.specs.Prelude.{◌≡◌};
ghost use Rattle.sse_script.specs.declared.read_stop.ReadStop.TheVariants as variants;

use sse_outside::Failed;
use std::alloc::{AllocError, AllocFailed};
use std::error::Error;
use std::fmt;

/// Why no further line can be read.
#[derive(Clone, Copy, Debug, PartialEq, Eq)]
pub enum ReadStop {
    /// The source failed: its count of faults rose in the call.
    Failed,
    /// There was no memory for the line.
    NoMemory,
}

impl fmt::Display for ReadStop {
    ghost use Rattle.std.specs.Prelude.{Some};
    ghost use Rattle.sse_script.specs.FaultTexts.{read_stop_text};

    ghost output = { λ stop. Some (read_stop_text stop) };

    fn fmt<W: fmt::Write>(&self, f: &mut fmt::Formatter<W>) -> fmt::Result {
        match self {
            ReadStop::Failed => f.write_str("the script can't be read further"),
            ReadStop::NoMemory => f.write_str("out of memory"),
        }
    }
}

impl Error for ReadStop {}

impl From<Failed> for ReadStop {
    ghost from_gives = { λ _ stop. stop ≡ variants.Failed };

    fn from(_failed: Failed) -> ReadStop {
        ReadStop::Failed
    }
}

impl From<AllocError> for ReadStop {
    ghost from_gives = { λ _ stop. stop ≡ variants.NoMemory };

    fn from(_error: AllocError) -> ReadStop {
        ReadStop::NoMemory
    }
}

impl<T: Drop> From<AllocFailed<T>> for ReadStop {
    ghost from_gives = { λ _ stop. stop ≡ variants.NoMemory };

    fn from(_failed: AllocFailed<T>) -> ReadStop {
        ReadStop::NoMemory
    }
}
