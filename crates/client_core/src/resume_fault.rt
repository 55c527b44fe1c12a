ghost use Rattle.std.specs.Prelude.{◌≡◌, IsSome, Some};
ghost use Rattle.client_core.specs.ResumeFaults.{setup_fault, update_fault};

use crate::command_fault::CommandFault;
use client_renewal::RenewalFault;
use std::alloc::AllocError;

/// Why a client doesn't go on from the last record of its journal.
#[derive(Clone, Copy, Debug)]
pub enum ResumeFault {
    /// The server expects the update frame `got`, which is none of those from `low` to `high`: the first frame of the last
    /// command, and the one behind its last.
    PeerElsewhere { low: u32, high: u32, got: u32 },
    /// Two labels of the last command are equal: of entries of a setup, or of words of an added document, from 0.
    LabelClash { first: u32, second: u32 },
    /// The places of two blocks of a setup are equal, from 0.
    PlaceClash { first: u32, second: u32 },
    /// The revocation numbers of two words of the last command's document are equal, from 0.
    NumberClash { first: u32, second: u32 },
    /// There is no memory for the client.
    NoMemory,
}

impl From<AllocError> for ResumeFault {
    ghost use Rattle.client_core.specs.declared.resume_fault.ResumeFault.TheVariants.{NoMemory};

    ghost from_gives = { λ _ fault. fault ≡ NoMemory };

    fn from(_e: AllocError) -> ResumeFault {
        ResumeFault::NoMemory
    }
}

/// The fault of an accepted setup that is planned again.
pub(crate) fn of_setup(fault: RenewalFault) -> ResumeFault
    requires { IsSome (setup_fault fault) }
    ensures { setup_fault fault ≡ Some result }
{
    match fault {
        RenewalFault::LabelClash { first, second } => ResumeFault::LabelClash { first, second },
        RenewalFault::PlaceClash { first, second } => ResumeFault::PlaceClash { first, second },
        RenewalFault::NoMemory => ResumeFault::NoMemory,
        RenewalFault::KeyUsed(_)
        | RenewalFault::TooManyDocuments(_)
        | RenewalFault::TooManyPairs(_)
        | RenewalFault::ListTooLong { .. }
        | RenewalFault::TooManyBytes(_)
        | RenewalFault::HistoryFull => unreachable!(),
    }
}

/// The fault of an accepted update that is planned again.
pub(crate) fn of_update(fault: CommandFault) -> ResumeFault
    requires { IsSome (update_fault fault) }
    ensures { update_fault fault ≡ Some result }
{
    match fault {
        CommandFault::LabelClash { first, second } => ResumeFault::LabelClash { first, second },
        CommandFault::NumberClash { first, second } => ResumeFault::NumberClash { first, second },
        CommandFault::NoMemory => ResumeFault::NoMemory,
        CommandFault::AlreadyLive(_)
        | CommandFault::UnknownDocument(_)
        | CommandFault::CounterFull(_)
        | CommandFault::HistoryFull => unreachable!(),
    }
}
