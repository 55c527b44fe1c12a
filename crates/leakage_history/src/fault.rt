ghost use Rattle.std.specs.Prelude.{◌≡◌};
ghost use Rattle.leakage_history.specs.declared.fault.HistoryFault.TheVariants as faults;

use std::alloc::AllocError;

/// Why a command isn't taken after those of a history.
#[derive(Clone, Copy, Debug)]
pub enum HistoryFault {
    /// A document with this identifier is live already.
    AlreadyLive(u64),
    /// No document with this identifier is live.
    UnknownDocument(u64),
    /// The document's word at this position, from 0, has no counter left: it has had 2^32-1 additions.
    CounterFull(u32),
    /// There is no memory for the command.
    NoMemory,
}

impl From<AllocError> for HistoryFault {
    ghost from_gives = { λ _ fault. fault ≡ faults.NoMemory };

    fn from(_e: AllocError) -> HistoryFault {
        HistoryFault::NoMemory
    }
}
