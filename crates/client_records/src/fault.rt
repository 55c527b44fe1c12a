ghost use Rattle.std.specs.Prelude.{◌≡◌};
ghost use Rattle.client_records.specs.declared.fault.ReadFault.TheVariants as read;

use client_registry::{DocFault, DocsFault, WordFault, Zero};
use std::alloc::AllocError;

/// Why bytes aren't read as a record.
#[derive(Clone, Copy, Debug, PartialEq, Eq)]
pub enum ReadFault {
    /// They are no record.
    BadRecord,
    /// There is no memory for what they say.
    NoMemory,
}

impl From<AllocError> for ReadFault {
    ghost from_gives = { λ _ e. e ≡ read.NoMemory };

    fn from(_e: AllocError) -> ReadFault {
        ReadFault::NoMemory
    }
}

impl From<Zero> for ReadFault {
    ghost from_gives = { λ _ e. e ≡ read.BadRecord };

    fn from(_e: Zero) -> ReadFault {
        ReadFault::BadRecord
    }
}

impl From<WordFault> for ReadFault {
    ghost from_gives = { λ _ e. e ≡ read.BadRecord };

    fn from(_e: WordFault) -> ReadFault {
        ReadFault::BadRecord
    }
}

impl From<DocFault> for ReadFault {
    ghost use Rattle.client_records.specs.Faults.{doc_fault};

    ghost from_gives = { λ fault e. e ≡ doc_fault fault };

    fn from(fault: DocFault) -> ReadFault {
        match fault {
            DocFault::NoMemory => ReadFault::NoMemory,
            DocFault::TooManyWords(_) | DocFault::RepeatedWord(_) => ReadFault::BadRecord,
        }
    }
}

impl From<DocsFault> for ReadFault {
    ghost use Rattle.client_records.specs.Faults.{docs_fault};

    ghost from_gives = { λ fault e. e ≡ docs_fault fault };

    fn from(fault: DocsFault) -> ReadFault {
        match fault {
            DocsFault::NoMemory => ReadFault::NoMemory,
            DocsFault::AlreadyLive(_)
            | DocsFault::TooManyDocuments(_)
            | DocsFault::TooManyPairs(_) => ReadFault::BadRecord,
        }
    }
}
