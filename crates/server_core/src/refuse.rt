ghost use Rattle.std.specs.Prelude.{◌≡◌};
ghost use Rattle.server_core.specs.declared.refuse.Refuse.TheVariants.{NoMemory};

use std::alloc::AllocError;
use std::error::Error;
use std::fmt;

/// Why an update frame isn't taken: the first of these causes that stands.
#[derive(Clone, Copy, Debug)]
pub enum Refuse {
    /// The server expects another number, which this is.
    Number(u32),
    /// The frame isn't one for the server's stage.
    OutOfPlace,
    /// A label of the dictionary (`what` 1), a label of the additions (2) or a revocation number (3) of the
    /// frame collides with what the server holds; `place` counts from 0 in the frame's list.
    Clash { what: u8, place: u32 },
    /// Out of memory.
    NoMemory,
}

impl fmt::Display for Refuse {
    ghost use Rattle.std.specs.Prelude.{Some};
    ghost use Rattle.server_core.specs.Texts.{refuse_text};

    ghost output = { λ refuse. Some (refuse_text refuse) };

    fn fmt<W: fmt::Write>(&self, f: &mut fmt::Formatter<W>) -> fmt::Result {
        match self {
            Refuse::Number(next) => write!(f, "the next update frame has number {next}"),
            Refuse::OutOfPlace => f.write_str("the frame is not one for the server's stage"),
            Refuse::Clash { what: 1, place } => {
                write!(f, "the server holds the label of entry {place} from 0")
            }
            Refuse::Clash { what: 2, place } => {
                write!(f, "the server holds the label of addition {place} from 0")
            }
            Refuse::Clash { place, .. } => {
                write!(
                    f,
                    "revocation number {place} from 0 is there already, or is not there"
                )
            }
            Refuse::NoMemory => f.write_str("out of memory"),
        }
    }
}

impl Error for Refuse {}

impl From<AllocError> for Refuse {
    ghost from_gives = { λ _ e. e ≡ NoMemory };

    fn from(_e: AllocError) -> Refuse {
        Refuse::NoMemory
    }
}
