ghost use Rattle.std.specs.Prelude.{◌≡◌, ◌+◌, ◌-◌, ◌<◌, ◌≤◌, ◌^◌, ◌↔◌, Ok, Err};

use std::alloc::{AllocError, AllocFailed};
use std::error::Error;
use std::fmt;

/// Why an addition or a deletion isn't planned.
#[derive(Clone, Copy, Debug)]
pub enum CommandFault {
    /// A document with this identifier is live already.
    AlreadyLive(u64),
    /// No document with this identifier is live.
    UnknownDocument(u64),
    /// The document's word at this position, from 0, has no counter left: it has had 2^32-1 additions.
    CounterFull(u32),
    /// The command's frame would have no number: the history has had 2^32-1 update frames.
    HistoryFull,
    /// The new entries of the document's words at these positions, from 0, have equal labels.
    LabelClash { first: u32, second: u32 },
    /// The document's words at these positions, from 0, have equal revocation numbers.
    NumberClash { first: u32, second: u32 },
    /// There is no memory for the command.
    NoMemory,
}

/// The history can't have so many update frames.
#[derive(Clone, Copy, Debug, PartialEq, Eq)]
pub struct HistoryFull;

impl fmt::Display for HistoryFull {
    ghost use Rattle.std.specs.Prelude.{Some};
    ghost use Rattle.client_core.specs.Texts.{history_full_text};

    ghost output = { λ _. Some history_full_text };

    fn fmt<W: fmt::Write>(&self, f: &mut fmt::Formatter<W>) -> fmt::Result {
        f.write_str("a history has at most 4294967295 update frames, and this one had them")
    }
}

impl Error for HistoryFull {}

impl fmt::Display for CommandFault {
    ghost use Rattle.std.specs.Prelude.{Some};
    ghost use Rattle.client_core.specs.Texts.{command_fault_text};

    ghost output = { λ fault. Some (command_fault_text fault) };

    fn fmt<W: fmt::Write>(&self, f: &mut fmt::Formatter<W>) -> fmt::Result {
        match self {
            CommandFault::AlreadyLive(id) => write!(f, "document {id} is there already"),
            CommandFault::UnknownDocument(id) => write!(f, "there is no document {id}"),
            CommandFault::CounterFull(at) => {
                write!(f, "word {at} from 0 has had 4294967295 additions")
            }
            CommandFault::HistoryFull => HistoryFull.fmt(f),
            CommandFault::LabelClash { first, second } => {
                write!(f, "the labels of the words {first} and {second} are equal")
            }
            CommandFault::NumberClash { first, second } => {
                write!(f, "the numbers of the words {first} and {second} are equal")
            }
            CommandFault::NoMemory => f.write_str("out of memory"),
        }
    }
}

impl Error for CommandFault {}

// Promise P70 (caller): The number of update frames is their sum; the history is full if and only if that exceeds 2^32-1.
//   clauses: sum, full
/// How many update frames there are after so many more. Error: exactly where there would be more than 2^32-1.
pub fn frames_after(total: u32, more: u32) -> Result<u32, HistoryFull>
    ensures sum { total + more < 2 ^ 32 → result ≡ Ok (total + more) }
    ensures full { 2 ^ 32 ≤ total + more → result ≡ Err (record {}) }
{
    match total.checked_add(more) {
        Some(sum) => Ok(sum),
        None => Err(HistoryFull),
    }
}

impl From<HistoryFull> for CommandFault {
    ghost use Rattle.client_core.specs.declared.command_fault.CommandFault.TheVariants as faults;

    ghost from_gives = { λ _ fault. fault ≡ faults.HistoryFull };

    fn from(_full: HistoryFull) -> CommandFault {
        CommandFault::HistoryFull
    }
}

impl From<AllocError> for CommandFault {
    ghost use Rattle.client_core.specs.declared.command_fault.CommandFault.TheVariants.{NoMemory};

    ghost from_gives = { λ _ fault. fault ≡ NoMemory };

    fn from(_e: AllocError) -> CommandFault {
        CommandFault::NoMemory
    }
}

impl<T: Drop> From<AllocFailed<T>> for CommandFault {
    ghost use Rattle.client_core.specs.declared.command_fault.CommandFault.TheVariants.{NoMemory};

    ghost from_gives = { λ _ fault. fault ≡ NoMemory };

    fn from(_e: AllocFailed<T>) -> CommandFault {
        CommandFault::NoMemory
    }
}
