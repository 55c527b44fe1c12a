use std::alloc::AllocError;

/// Why a record isn't taken.
#[derive(Clone, Copy, Debug, PartialEq, Eq)]
pub enum RebuildFault {
    /// The record of this number, from 0, isn't one, or isn't accepted after those before it.
    BadRecord(u64),
    /// There is no memory for it.
    NoMemory,
}

impl From<AllocError> for RebuildFault {
    ghost use Rattle.std.specs.Prelude.{◌≡◌};
    ghost use Rattle.client_rebuild.specs.declared.fault.RebuildFault.TheVariants as faults;

    ghost from_gives = { λ _ fault. fault ≡ faults.NoMemory };

    fn from(_e: AllocError) -> RebuildFault {
        RebuildFault::NoMemory
    }
}

/// The records are those of a client whose last key is another.
#[derive(Clone, Copy, Debug, PartialEq, Eq)]
pub struct WrongKey;
