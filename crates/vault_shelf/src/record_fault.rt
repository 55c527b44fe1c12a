use std::alloc::AllocError;

/// Why a record isn't taken.
#[derive(Clone, Copy, Debug, PartialEq, Eq)]
pub enum RecordFault {
    /// The record of this number, from 0, isn't one, or isn't accepted after those before it.
    BadRecord(u64),
    /// It is the mark of another key.
    WrongKey,
    /// There is no memory for it.
    NoMemory,
}

impl From<AllocError> for RecordFault {
    ghost use Rattle.std.specs.Prelude.{◌≡◌};
    ghost use Rattle.vault_shelf.specs.declared.record_fault.RecordFault.TheVariants as faults;

    ghost from_gives = { λ _ fault. fault ≡ faults.NoMemory };

    fn from(_e: AllocError) -> RecordFault {
        RecordFault::NoMemory
    }
}
