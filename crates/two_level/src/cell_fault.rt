use list_packing::HoleInBlock;
use std::error::Error;
use std::fmt;

/// Why the bytes of a cell or a block in the clear have no such form: the first cause that stands, in this order.
#[derive(Clone, Copy, Debug, PartialEq, Eq)]
pub enum CellFault {
    /// The cell begins with this byte, which is no kind: not 0, 1 or 2.
    BadKind(u8),
    /// A number stands after a zero, first at this place; places count numbers from 0.
    Hole(u64),
    /// A pointer lies above the number of blocks, first at this place.
    BadPointer(u64),
}

impl fmt::Display for CellFault {
    ghost use Rattle.std.specs.Prelude.{Some};
    ghost use Rattle.two_level.specs.Texts.{cell_fault_text};

    ghost output = { λ fault. Some (cell_fault_text fault) };

    fn fmt<W: fmt::Write>(&self, f: &mut fmt::Formatter<W>) -> fmt::Result {
        match self {
            CellFault::BadKind(byte) => write!(f, "the kind of a cell is 0, 1 or 2, not {byte}"),
            CellFault::Hole(place) => write!(
                f,
                "a number stands behind a zero, at place {place} from 0"
            ),
            CellFault::BadPointer(place) => write!(
                f,
                "the pointer at place {place} from 0 is above the number of blocks"
            ),
        }
    }
}

impl Error for CellFault {}

impl From<HoleInBlock> for CellFault {
    ghost use Rattle.std.specs.Prelude.{◌≡◌};
    ghost use Rattle.two_level.specs.declared.cell_fault.CellFault.TheVariants.{Hole};

    ghost from_gives = { λ hole fault. fault ≡ Hole hole.0 };

    fn from(hole: HoleInBlock) -> CellFault {
        CellFault::Hole(hole.0)
    }
}
