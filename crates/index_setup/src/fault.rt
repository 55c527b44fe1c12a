use client_registry::SizeFault;
use std::alloc::AllocError;
use std::error::Error;
use std::fmt;

/// Why a setup's index can't be built: the first cause that stands, in this order.
#[derive(Debug, Clone, Copy)]
pub enum BuildFault {
    /// A parameter is out of its range: `which` is 0 for b (1 to 64), 1 for B (1 to 256), 2 for Q (a power of two from 1
    /// to 4,096).
    BadParameter { which: u8, value: u64 },
    /// The list of this word number has `n` identifiers, more than b·B·B.
    ListTooLong { word: u32, n: u64 },
    /// The index would have so many bytes, dummies included, more than 2^28.
    TooManyBytes(u64),
    /// The labels of these two entries are equal. Entries are counted by word number, and then the dummies; `second` is the
    /// least such position, then `first`.
    LabelClash { first: u32, second: u32 },
    /// The places of these two blocks are equal. Blocks are counted over all words, by word number and then by
    /// block number, and then the dummies; `second` is the least such position, then `first`.
    PlaceClash { first: u32, second: u32 },
    /// There is no memory for the index.
    NoMemory,
}

impl fmt::Display for BuildFault {
    ghost use Rattle.std.specs.Prelude.{Some};
    ghost use Rattle.index_setup.specs.Texts.{build_fault_text};

    ghost output = { λ fault. Some (build_fault_text fault) };

    fn fmt<W: fmt::Write>(&self, f: &mut fmt::Formatter<W>) -> fmt::Result {
        match self {
            BuildFault::BadParameter { which: 0, value } => write!(f, "b is 1 to 64, not {value}"),
            BuildFault::BadParameter { which: 1, value } => write!(f, "B is 1 to 256, not {value}"),
            BuildFault::BadParameter { value, .. } => {
                write!(f, "Q is a power of two from 1 to 4096, not {value}")
            }
            BuildFault::ListTooLong { word, n } => {
                write!(f, "the list of word {word} has {n} identifiers, over b*B*B")
            }
            BuildFault::TooManyBytes(n) => write!(f, "at most 268435456 bytes fit, not {n}"),
            BuildFault::LabelClash { first, second } => {
                write!(f, "the labels of the words {first} and {second} are equal")
            }
            BuildFault::PlaceClash { first, second } => {
                write!(f, "the places of the blocks {first} and {second} are equal")
            }
            BuildFault::NoMemory => f.write_str("out of memory"),
        }
    }
}

impl Error for BuildFault {}

impl From<SizeFault> for BuildFault {
    ghost use Rattle.index_setup.specs.Refused.{refused_by_size};
    ghost use Rattle.std.specs.Prelude.{◌≡◌};

    ghost from_gives = { λ fault built. built ≡ refused_by_size fault };

    fn from(fault: SizeFault) -> BuildFault {
        match fault {
            SizeFault::BadParameter { which, value } => BuildFault::BadParameter { which, value },
            SizeFault::ListTooLong { word, n } => BuildFault::ListTooLong { word, n },
            SizeFault::TooManyBytes(count) => BuildFault::TooManyBytes(count),
        }
    }
}

impl From<AllocError> for BuildFault {
    ghost use Rattle.index_setup.specs.declared.fault.BuildFault.TheVariants.{NoMemory};
    ghost use Rattle.std.specs.Prelude.{◌≡◌};

    ghost from_gives = { λ _ fault. fault ≡ NoMemory };

    fn from(_e: AllocError) -> BuildFault {
        BuildFault::NoMemory
    }
}
