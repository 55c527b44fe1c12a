use std::error::Error;
use std::fmt;

/// Why two numbers are no parameters of a layout: the first cause that stands, in this order.
#[derive(Clone, Copy, Debug, PartialEq, Eq)]
pub enum ShapeFault {
    /// So many numbers in a cell, not 1 to 64.
    BadCell(u64),
    /// So many numbers in a block, not 1 to 256.
    BadBlock(u64),
}

impl fmt::Display for ShapeFault {
    ghost use Rattle.std.specs.Prelude.{Some};
    ghost use Rattle.two_level.specs.ShapeFault.{shape_fault_text};

    ghost output = { λ fault. Some (shape_fault_text fault) };

    fn fmt<W: fmt::Write>(&self, f: &mut fmt::Formatter<W>) -> fmt::Result {
        match self {
            ShapeFault::BadCell(n) => write!(f, "b is 1 to 64, not {n}"),
            ShapeFault::BadBlock(n) => write!(f, "B is 1 to 256, not {n}"),
        }
    }
}

impl Error for ShapeFault {}
