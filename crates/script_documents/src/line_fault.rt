ghost use Rattle.std.specs.Prelude.{◌≡◌, Some};
ghost use Rattle.script_documents.specs.Refused.{word_refused, doc_refused, docs_refused};
ghost use Rattle.script_documents.specs.LineFaults.{fault_refusal};

use client_registry::{DocFault, DocsFault, WordFault, Zero};
use sse_script::Refusal;
use std::alloc::{AllocError, AllocFailed};
use std::error::Error;
use std::fmt;

/// Why a command of the script isn't carried out, found before anything of it is sent.
#[derive(Debug, Drop)]
pub enum LineFault {
    /// The command is refused.
    Refused(Refusal),
    /// There is no memory for the command.
    NoMemory,
}

impl LineFault {
    /// What a fault of the word at this position, from 0, means for its line. It is a refusal in each case.
    pub fn of_word(fault: WordFault, position: u32) -> LineFault
        ensures { fault_refusal result ≡ word_refused position fault }
    {
        match fault {
            // A field has at least one byte, so this word isn't met.
            WordFault::Empty => LineFault::Refused(Refusal::BadByte { position, place: 0 }),
            WordFault::TooLong(n) => LineFault::Refused(Refusal::TooLong { position, n }),
            WordFault::BadByte(place) => LineFault::Refused(Refusal::BadByte { position, place }),
        }
    }
}

impl fmt::Display for LineFault {
    ghost use Rattle.script_documents.specs.Texts.{line_fault_text};

    ghost output = { λ fault. Some (line_fault_text fault) };

    fn fmt<W: fmt::Write>(&self, f: &mut fmt::Formatter<W>) -> fmt::Result {
        match self {
            LineFault::Refused(refusal) => write!(f, "refused: {refusal}"),
            LineFault::NoMemory => f.write_str("out of memory"),
        }
    }
}

impl Error for LineFault {}

impl From<Zero> for LineFault {
    ghost use Rattle.sse_script.specs.declared.refusal.Refusal.TheVariants.{Zero as zero};

    ghost from_gives = { λ _ fault. fault_refusal fault ≡ Some zero };

    fn from(_zero: Zero) -> LineFault {
        LineFault::Refused(Refusal::Zero)
    }
}

impl From<DocFault> for LineFault {
    ghost from_gives = { λ cause fault. fault_refusal fault ≡ doc_refused cause };

    fn from(fault: DocFault) -> LineFault {
        match fault {
            DocFault::TooManyWords(n) => LineFault::Refused(Refusal::TooManyWords { n }),
            DocFault::RepeatedWord(position) => LineFault::Refused(Refusal::RepeatedWord {
                position,
            }),
            DocFault::NoMemory => LineFault::NoMemory,
        }
    }
}

impl From<DocsFault> for LineFault {
    ghost from_gives = { λ cause fault. fault_refusal fault ≡ docs_refused cause };

    fn from(fault: DocsFault) -> LineFault {
        match fault {
            DocsFault::AlreadyLive(id) => LineFault::Refused(Refusal::AlreadyLive { id }),
            DocsFault::TooManyDocuments(n) => LineFault::Refused(Refusal::TooManyDocuments { n }),
            DocsFault::TooManyPairs(n) => LineFault::Refused(Refusal::TooManyPairs { n }),
            DocsFault::NoMemory => LineFault::NoMemory,
        }
    }
}

impl From<AllocError> for LineFault {
    ghost use Rattle.script_documents.specs.declared.line_fault.LineFault.TheVariants.{NoMemory};

    ghost from_gives = { λ _ fault. fault ≡ NoMemory };

    fn from(_e: AllocError) -> LineFault {
        LineFault::NoMemory
    }
}

impl<T: Drop> From<AllocFailed<T>> for LineFault {
    ghost use Rattle.script_documents.specs.declared.line_fault.LineFault.TheVariants.{NoMemory};

    ghost from_gives = { λ _ fault. fault ≡ NoMemory };

    fn from(_e: AllocFailed<T>) -> LineFault {
        LineFault::NoMemory
    }
}
