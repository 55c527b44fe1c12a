ghost use Rattle.std.specs.Prelude.{◌≡◌};

use client_registry::WordFault;
use std::alloc::{AllocError, AllocFailed};

/// Why fields are no query.
#[derive(Clone, Copy, Debug)]
pub enum QueryFault {
    /// There are so many fields, more than 64.
    TooManyFields(u64),
    /// The place, from 0, of the first field that no expression allows there; the end of the fields is a place too.
    BadQuery(u64),
    /// The operand at this position, from 0 and counting operands only, is no word.
    BadWord { position: u32, fault: WordFault },
    /// Out of memory.
    NoMemory,
}

impl From<AllocError> for QueryFault {
    ghost use Rattle.bool_search.specs.declared.fault.QueryFault.TheVariants.{NoMemory};

    ghost from_gives = { λ _ fault. fault ≡ NoMemory };

    fn from(_e: AllocError) -> QueryFault {
        QueryFault::NoMemory
    }
}

impl<T: Drop> From<AllocFailed<T>> for QueryFault {
    ghost use Rattle.bool_search.specs.declared.fault.QueryFault.TheVariants.{NoMemory};

    ghost from_gives = { λ _ fault. fault ≡ NoMemory };

    fn from(_e: AllocFailed<T>) -> QueryFault {
        QueryFault::NoMemory
    }
}
