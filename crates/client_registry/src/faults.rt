ghost use Rattle.std.specs.Prelude.{◌≡◌, Some};
ghost use Rattle.client_registry.specs.Texts as texts;
ghost use Rattle.client_registry.specs.declared.faults.AddFault.TheVariants as adding;
ghost use Rattle.client_registry.specs.declared.faults.DocFault.TheVariants as doc;
ghost use Rattle.client_registry.specs.declared.faults.DocsFault.TheVariants as docs;

use std::alloc::AllocError;
use std::error::Error;
use std::fmt;
use two_level::ShapeFault;

/// Why bytes aren't a word.
#[derive(Clone, Copy, Debug, PartialEq, Eq)]
pub enum WordFault {
    /// There is no byte.
    Empty,
    /// There are so many bytes, more than 64.
    TooLong(u64),
    /// The place, from 0, of the first byte of 00 to 20 or 7f, or of the first ill-formed UTF-8 sequence,
    /// whichever is the lesser.
    BadByte(u64),
}

/// Why words aren't those of a document.
#[derive(Clone, Copy, Debug, PartialEq, Eq)]
pub enum DocFault {
    /// There are so many words, more than 4,096.
    TooManyWords(u64),
    /// The least position, from 0, whose word stands earlier.
    RepeatedWord(u32),
    /// There is no memory for the test.
    NoMemory,
}

/// Why a document isn't taken among those collected.
#[derive(Clone, Copy, Debug, PartialEq, Eq)]
pub enum DocsFault {
    /// A document has this identifier already.
    AlreadyLive(u64),
    /// There would be so many documents, more than 2^18.
    TooManyDocuments(u64),
    /// There would be so many pairs of a word and a document, more than 2^20.
    TooManyPairs(u64),
    /// There is no memory for the document.
    NoMemory,
}

/// Why a document isn't added.
#[derive(Clone, Copy, Debug)]
pub enum AddFault {
    /// A document has this identifier already.
    AlreadyLive(u64),
    /// There is no memory for the document.
    NoMemory,
}

/// No document has this identifier.
#[derive(Clone, Copy, Debug)]
pub struct UnknownDocument(pub u64);

/// Why there is no index of the documents.
#[derive(Clone, Copy, Debug)]
pub enum SizeFault {
    /// A parameter is outside its limits: 0 is b (1 to 64), 1 is B (1 to 256), 2 is Q (a power of two from 1 to 4,096).
    BadParameter { which: u8, value: u64 },
    /// The word of this number is the first whose list, of n identifiers, is too long for the parameters.
    ListTooLong { word: u32, n: u64 },
    /// The index would have so many bytes, more than 2^28.
    TooManyBytes(u64),
}

impl fmt::Display for WordFault {
    ghost output = { λ fault. Some (texts.word_fault_text fault) };

    fn fmt<W: fmt::Write>(&self, f: &mut fmt::Formatter<W>) -> fmt::Result {
        match self {
            WordFault::Empty => f.write_str("a word has at least 1 byte"),
            WordFault::TooLong(n) => write!(f, "a word has at most 64 bytes, not {n}"),
            WordFault::BadByte(place) => write!(f, "no word has the byte at place {place} from 0"),
        }
    }
}

impl Error for WordFault {}

impl fmt::Display for DocFault {
    ghost output = { λ fault. Some (texts.doc_fault_text fault) };

    fn fmt<W: fmt::Write>(&self, f: &mut fmt::Formatter<W>) -> fmt::Result {
        match self {
            DocFault::TooManyWords(n) => write!(f, "a document has at most 4096 words, not {n}"),
            DocFault::RepeatedWord(at) => write!(f, "word {at} from 0 stands earlier too"),
            DocFault::NoMemory => f.write_str("out of memory"),
        }
    }
}

impl Error for DocFault {}

impl fmt::Display for DocsFault {
    ghost output = { λ fault. Some (texts.docs_fault_text fault) };

    fn fmt<W: fmt::Write>(&self, f: &mut fmt::Formatter<W>) -> fmt::Result {
        match self {
            DocsFault::AlreadyLive(id) => write!(f, "document {id} is there already"),
            DocsFault::TooManyDocuments(n) => write!(f, "at most 262144 documents fit, not {n}"),
            DocsFault::TooManyPairs(n) => write!(f, "at most 1048576 pairs fit, not {n}"),
            DocsFault::NoMemory => f.write_str("out of memory"),
        }
    }
}

impl Error for DocsFault {}

impl fmt::Display for AddFault {
    ghost output = { λ fault. Some (texts.add_fault_text fault) };

    fn fmt<W: fmt::Write>(&self, f: &mut fmt::Formatter<W>) -> fmt::Result {
        match self {
            AddFault::AlreadyLive(id) => write!(f, "document {id} is there already"),
            AddFault::NoMemory => f.write_str("out of memory"),
        }
    }
}

impl Error for AddFault {}

impl fmt::Display for UnknownDocument {
    ghost output = { λ unknown. Some (texts.unknown_text unknown.0) };

    fn fmt<W: fmt::Write>(&self, f: &mut fmt::Formatter<W>) -> fmt::Result {
        write!(f, "there is no document {}", self.0)
    }
}

impl Error for UnknownDocument {}

impl fmt::Display for SizeFault {
    ghost output = { λ fault. Some (texts.size_fault_text fault) };

    fn fmt<W: fmt::Write>(&self, f: &mut fmt::Formatter<W>) -> fmt::Result {
        match self {
            SizeFault::BadParameter { which: 0, value } => write!(f, "b is 1 to 64, not {value}"),
            SizeFault::BadParameter { which: 1, value } => write!(f, "B is 1 to 256, not {value}"),
            SizeFault::BadParameter { value, .. } => {
                write!(f, "Q is a power of two from 1 to 4096, not {value}")
            }
            SizeFault::ListTooLong { word, n } => {
                write!(f, "the list of word {word} has {n} identifiers, over b*B*B")
            }
            SizeFault::TooManyBytes(n) => write!(f, "at most 268435456 bytes fit, not {n}"),
        }
    }
}

impl Error for SizeFault {}

impl From<ShapeFault> for SizeFault {
    ghost use Rattle.client_registry.specs.Acceptance.{refused_shape};

    ghost from_gives = { λ fault size. size ≡ refused_shape fault };

    fn from(fault: ShapeFault) -> SizeFault {
        match fault {
            ShapeFault::BadCell(value) => SizeFault::BadParameter { which: 0, value },
            ShapeFault::BadBlock(value) => SizeFault::BadParameter { which: 1, value },
        }
    }
}

impl From<AllocError> for DocFault {
    ghost from_gives = { λ _ e. e ≡ doc.NoMemory };

    fn from(_e: AllocError) -> DocFault {
        DocFault::NoMemory
    }
}

impl From<AllocError> for DocsFault {
    ghost from_gives = { λ _ e. e ≡ docs.NoMemory };

    fn from(_e: AllocError) -> DocsFault {
        DocsFault::NoMemory
    }
}

impl From<AllocError> for AddFault {
    ghost from_gives = { λ _ e. e ≡ adding.NoMemory };

    fn from(_e: AllocError) -> AddFault {
        AddFault::NoMemory
    }
}
