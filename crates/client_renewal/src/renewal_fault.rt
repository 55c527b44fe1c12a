ghost use Rattle.std.specs.Prelude.{◌≡◌, IsSome, Some};
ghost use Rattle.client_renewal.specs.Refusals.{fault_of_docs, fault_of_size};

use client_registry::{DocsFault, SizeFault};
use std::alloc::AllocError;

/// Why a renewal of the master key isn't planned: the first cause that applies, in this order.
#[derive(Clone, Copy, Debug)]
pub enum RenewalFault {
    /// The key has the mark of the key of this epoch, from 0.
    KeyUsed(u64),
    /// So many documents are live, more than 2^18.
    TooManyDocuments(u64),
    /// The live documents have so many pairs of a word and a document, more than 2^20.
    TooManyPairs(u64),
    /// The list of this word number has `n` identifiers, more than b·B·B.
    ListTooLong { word: u32, n: u64 },
    /// The index would have so many bytes, dummies included, more than 2^28.
    TooManyBytes(u64),
    /// The frames would have no numbers: the history would have more than 2^32-1 update frames.
    HistoryFull,
    /// The labels of these two entries are equal. Entries are counted by word number, and then the dummies; `second` is the
    /// least such position, then `first`.
    LabelClash { first: u32, second: u32 },
    /// The places of these two blocks are equal. Blocks are counted over all words, by word number and then by
    /// block number, and then the dummies; `second` is the least such position, then `first`.
    PlaceClash { first: u32, second: u32 },
    /// There is no memory for the renewal.
    NoMemory,
}

/// The fault of a size that is refused for another cause than its parameters.
pub(crate) fn of_size(fault: SizeFault) -> RenewalFault
    requires { IsSome (fault_of_size fault) }
    ensures { fault_of_size fault ≡ Some result }
{
    match fault {
        SizeFault::ListTooLong { word, n } => RenewalFault::ListTooLong { word, n },
        SizeFault::TooManyBytes(n) => RenewalFault::TooManyBytes(n),
        SizeFault::BadParameter { .. } => unreachable!(),
    }
}

/// The fault of documents that aren't set up again.
pub(crate) fn of_docs(fault: DocsFault) -> RenewalFault
    requires { IsSome (fault_of_docs fault) }
    ensures { fault_of_docs fault ≡ Some result }
{
    match fault {
        DocsFault::TooManyDocuments(count) => RenewalFault::TooManyDocuments(count),
        DocsFault::TooManyPairs(count) => RenewalFault::TooManyPairs(count),
        DocsFault::NoMemory => RenewalFault::NoMemory,
        DocsFault::AlreadyLive(_) => unreachable!(),
    }
}

impl From<AllocError> for RenewalFault {
    ghost use Rattle.client_renewal.specs.declared.renewal_fault.RenewalFault.TheVariants.{NoMemory};

    ghost from_gives = { λ _ fault. fault ≡ NoMemory };

    fn from(_e: AllocError) -> RenewalFault {
        RenewalFault::NoMemory
    }
}
