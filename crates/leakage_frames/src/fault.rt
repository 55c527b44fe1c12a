ghost use Rattle.std.specs.Prelude.{◌≡◌};
ghost use Rattle.leakage_frames.specs.declared.fault.SimFault.TheVariants.{NoMemory};

use std::alloc::AllocError;
use std::error::Error;
use std::fmt;

/// Why nothing is simulated of an item.
#[derive(Clone, Copy, Debug, PartialEq, Eq)]
pub enum SimFault {
    /// The item of this command, counted from 0, names a command, a place or a draw that isn't there. It is the first such item.
    BadLeak(u64),
    /// There is no memory for what passes or for what is kept of the item.
    NoMemory,
}

impl fmt::Display for SimFault {
    ghost use Rattle.std.specs.Prelude.{Some};
    ghost use Rattle.leakage_frames.specs.Texts.{sim_fault_text};

    ghost output = { λ fault. Some (sim_fault_text fault) };

    fn fmt<W: fmt::Write>(&self, f: &mut fmt::Formatter<W>) -> fmt::Result {
        match self {
            SimFault::BadLeak(command) => write!(
                f,
                "the leakage of command {command} from 0 names a command, a place or a draw that is not there"
            ),
            SimFault::NoMemory => f.write_str("out of memory"),
        }
    }
}

impl Error for SimFault {}

impl From<AllocError> for SimFault {
    ghost from_gives = { λ _ fault. fault ≡ NoMemory };

    fn from(_e: AllocError) -> SimFault {
        SimFault::NoMemory
    }
}
