ghost use Rattle.std.specs.Prelude.{◌≡◌};
ghost use Rattle.server_tables.specs.declared.table_fault.TableFault.TheVariants.{NoMemory};

use std::alloc::{AllocError, AllocFailed};
use std::error::Error;
use std::fmt;

/// Why the tables don't take what is put in. They are then as before.
#[derive(Clone, Copy, Debug, PartialEq, Eq)]
pub enum TableFault {
    /// The label or the number is there already.
    Taken,
    /// Out of memory.
    NoMemory,
}

impl fmt::Display for TableFault {
    ghost use Rattle.std.specs.Prelude.{Some};
    ghost use Rattle.server_tables.specs.Texts.{table_fault_text};

    ghost output = { λ fault. Some (table_fault_text fault) };

    fn fmt<W: fmt::Write>(&self, f: &mut fmt::Formatter<W>) -> fmt::Result {
        match self {
            TableFault::Taken => f.write_str("the label or the number is there already"),
            TableFault::NoMemory => f.write_str("out of memory"),
        }
    }
}

impl Error for TableFault {}

impl From<AllocError> for TableFault {
    ghost from_gives = { λ _ e. e ≡ NoMemory };

    fn from(_e: AllocError) -> TableFault {
        TableFault::NoMemory
    }
}

impl<T: Drop> From<AllocFailed<T>> for TableFault {
    ghost from_gives = { λ _ e. e ≡ NoMemory };

    fn from(_e: AllocFailed<T>) -> TableFault {
        TableFault::NoMemory
    }
}
