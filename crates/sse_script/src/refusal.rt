use std::error::Error;
use std::fmt;

/// Why a command is refused; its text is what the printed line has after `refused: `. Positions of words and numbers
/// of words count from 0.
#[derive(Clone, Copy, Debug)]
pub enum Refusal {
    /// There is no setup yet.
    NotSetUp,
    /// There is a setup already.
    SetUpAlready,
    /// The identifier is zero.
    Zero,
    /// The word at this position has `n` bytes, more than 64.
    TooLong { position: u32, n: u64 },
    /// The word at this position has a byte at `place` that no word has there.
    BadByte { position: u32, place: u64 },
    /// A document of `n` words, more than 4,096.
    TooManyWords { n: u64 },
    /// The word at this position stands in the document before.
    RepeatedWord { position: u32 },
    /// A document with this identifier is live.
    AlreadyLive { id: u64 },
    /// No document with this identifier is live.
    UnknownDocument { id: u64 },
    /// A setup of `n` documents, more than 2^18.
    TooManyDocuments { n: u64 },
    /// A setup of `n` pairs of a word and a document, more than 2^20.
    TooManyPairs { n: u64 },
    /// An index of `n` bytes, more than 2^28.
    TooManyBytes { n: u64 },
    /// A parameter of the setup that isn't possible: 0 is b, the identifiers in a cell, 1 is B, those in a block, and 2
    /// is Q, up to a multiple of which words and blocks are filled with dummies.
    BadParameter { which: u8, value: u64 },
    /// The list of the word with this number has `n` identifiers, more than the parameters allow.
    ListTooLong { word: u32, n: u64 },
    /// The word at this position was added as often as its counter can count.
    CounterFull { position: u32 },
    /// There were as many updates as can be numbered.
    HistoryFull,
    /// A query of `n` fields, more than 64.
    TooManyFields { n: u64 },
    /// The field at `place`, from 0, is one that no query has there; the place after the last field is the query's end.
    BadQuery { place: u64 },
    /// The master key is that of this epoch; epochs count from 0.
    KeyUsed { epoch: u64 },
}

impl fmt::Display for Refusal {
    ghost use Rattle.std.specs.Prelude.{Some};
    ghost use Rattle.std.specs.List.{concat};
    ghost use Rattle.sse_script.specs.Texts.{refusal_text};

    ghost output = { λ refusal. Some (concat (refusal_text refusal)) };

    fn fmt<W: fmt::Write>(&self, f: &mut fmt::Formatter<W>) -> fmt::Result {
        match self {
            Refusal::NotSetUp => f.write_str("not set up"),
            Refusal::SetUpAlready => f.write_str("set up already"),
            Refusal::Zero => f.write_str("identifier zero"),
            Refusal::TooLong { position, n } => write!(f, "word {position} is too long: {n}"),
            Refusal::BadByte { position, place } => {
                write!(f, "word {position} has a bad byte at {place}")
            }
            Refusal::TooManyWords { n } => write!(f, "too many words: {n}"),
            Refusal::RepeatedWord { position } => write!(f, "word {position} is repeated"),
            Refusal::AlreadyLive { id } => write!(f, "document {id} is live"),
            Refusal::UnknownDocument { id } => write!(f, "unknown document {id}"),
            Refusal::TooManyDocuments { n } => write!(f, "too many documents: {n}"),
            Refusal::TooManyPairs { n } => write!(f, "too many pairs: {n}"),
            Refusal::TooManyBytes { n } => write!(f, "too many bytes: {n}"),
            Refusal::BadParameter { which: 0, value } => write!(f, "b is {value}"),
            Refusal::BadParameter { which: 1, value } => write!(f, "B is {value}"),
            Refusal::BadParameter { value, .. } => write!(f, "Q is {value}"),
            Refusal::ListTooLong { word, n } => write!(
                f,
                "list of word {word} has {n} identifiers"
            ),
            Refusal::CounterFull { position } => write!(f, "counter of word {position} is full"),
            Refusal::HistoryFull => f.write_str("history is full"),
            Refusal::TooManyFields { n } => write!(f, "query has {n} fields"),
            Refusal::BadQuery { place } => write!(f, "query is wrong at {place}"),
            Refusal::KeyUsed { epoch } => write!(f, "key of epoch {epoch}"),
        }
    }
}

impl Error for Refusal {}
