ghost use Rattle.std.specs.Prelude.{◌≡◌, IsSome, Some};
ghost use Rattle.leakage_history.specs.Renewals.{fault_of_docs, fault_of_size};

use client_registry::{DocsFault, SizeFault};
use std::alloc::AllocError;

/// Why a renewal of the key isn't taken after a history.
#[derive(Clone, Copy, Debug)]
pub enum RenewalFault {
    /// So many documents are live, more than 2^18.
    TooManyDocuments(u64),
    /// The live documents have so many pairs of a word and a document, more than 2^20.
    TooManyPairs(u64),
    /// The list of this word number has `n` identifiers, more than b·B·B.
    ListTooLong { word: u32, n: u64 },
    /// The index would have so many bytes, dummies included, more than 2^28.
    TooManyBytes(u64),
    /// Its update frames would have no numbers.
    HistoryFull,
    /// There is no memory for the renewal.
    NoMemory,
}

impl From<AllocError> for RenewalFault {
    ghost use Rattle.leakage_history.specs.declared.renewal_fault.RenewalFault.TheVariants.{NoMemory};

    ghost from_gives = { λ _ fault. fault ≡ NoMemory };

    fn from(_e: AllocError) -> RenewalFault {
        RenewalFault::NoMemory
    }
}

/// The fault of a size that is refused for another cause than its parameters.
pub(crate) fn of_size(fault: SizeFault) -> RenewalFault
    requires { IsSome (fault_of_size fault) }
    ensures { fault_of_size fault ≡ Some result }
{
    match fault {
        SizeFault::ListTooLong { word, n } => RenewalFault::ListTooLong { word, n },
        SizeFault::TooManyBytes(n) => RenewalFault::TooManyBytes(n),
        SizeFault::BadParameter { .. } => unreachable!(),
    }
}

/// The fault of documents that aren't set up again.
pub(crate) fn of_docs(fault: DocsFault) -> RenewalFault
    requires { IsSome (fault_of_docs fault) }
    ensures { fault_of_docs fault ≡ Some result }
{
    match fault {
        DocsFault::TooManyDocuments(count) => RenewalFault::TooManyDocuments(count),
        DocsFault::TooManyPairs(count) => RenewalFault::TooManyPairs(count),
        DocsFault::NoMemory => RenewalFault::NoMemory,
        DocsFault::AlreadyLive(_) => unreachable!(),
    }
}
