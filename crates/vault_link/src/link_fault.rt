ghost use Rattle.std.specs.Prelude.{◌≡◌};
ghost use Rattle.vault_link.specs.declared.link_fault.LinkFault.TheVariants.{NoMemory};

use std::alloc::AllocError;
use std::error::Error;
use std::fmt;

/// Why a link did not carry a frame and its reply.
#[derive(Clone, Copy, Debug, PartialEq, Eq)]
pub enum LinkFault {
    /// The link is cut: its count of faults rose in the call. Whether the server took the frame isn't known.
    Cut,
    /// There was no memory for the link's own record, and the call changed nothing.
    NoMemory,
}

impl fmt::Display for LinkFault {
    ghost use Rattle.std.specs.Prelude.{Some};
    ghost use Rattle.vault_link.specs.Texts.{link_fault_text};

    ghost output = { λ fault. Some (link_fault_text fault) };

    fn fmt<W: fmt::Write>(&self, f: &mut fmt::Formatter<W>) -> fmt::Result {
        match self {
            LinkFault::Cut => f.write_str("the link is cut"),
            LinkFault::NoMemory => f.write_str("out of memory"),
        }
    }
}

impl Error for LinkFault {}

impl From<AllocError> for LinkFault {
    ghost from_gives = { λ _ e. e ≡ NoMemory };

    fn from(_e: AllocError) -> LinkFault {
        LinkFault::NoMemory
    }
}
