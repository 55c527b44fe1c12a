ghost use Rattle.std.specs.Prelude.{◌≡◌};

use sse_server::OpenFault;
use std::error::Error;
use std::fmt;

/// Why the servers of many owners were not started.
#[derive(Clone, Copy, Debug, PartialEq, Eq)]
pub enum OwnersFault {
    /// The number at this place, counted from 0, isn't above the one before it.
    NotRising(usize),
    /// The journal was not opened. A bad record is one that is no frame of these owners that its owner's server takes after
    /// those before it.
    Open(OpenFault),
}

impl fmt::Display for OwnersFault {
    ghost use Rattle.std.specs.Prelude.{Some};
    ghost use Rattle.sse_owners.specs.Texts.{owners_fault_text};

    ghost output = { λ fault. Some (owners_fault_text fault) };

    fn fmt<W: fmt::Write>(&self, f: &mut fmt::Formatter<W>) -> fmt::Result {
        match self {
            OwnersFault::NotRising(place) => {
                write!(f, "owner {place} is not above the one before")
            }
            OwnersFault::Open(fault) => write!(f, "{fault}"),
        }
    }
}

impl Error for OwnersFault {}

impl From<OpenFault> for OwnersFault {
    ghost use Rattle.sse_owners.specs.declared.owners_fault.OwnersFault.TheVariants as owners;

    ghost from_gives = { λ cause fault. fault ≡ owners.Open cause };

    fn from(fault: OpenFault) -> OwnersFault {
        OwnersFault::Open(fault)
    }
}
