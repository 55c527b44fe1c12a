use std::error::Error;
use std::fmt;

/// A number stands after a zero; here is its place among the block's numbers, from 0. It is the first such one.
#[derive(Clone, Copy, Debug, PartialEq, Eq)]
pub struct HoleInBlock(pub u64);

impl fmt::Display for HoleInBlock {
    ghost use Rattle.std.specs.Prelude.{◌++◌, Some, codes, decimal};

    ghost output = { λ hole. Some (codes "a number stands behind a zero, at place " ++ decimal hole.0 ++ codes " from 0") };

    fn fmt<W: fmt::Write>(&self, f: &mut fmt::Formatter<W>) -> fmt::Result {
        write!(
            f,
            "a number stands behind a zero, at place {} from 0",
            self.0
        )
    }
}

impl Error for HoleInBlock {}
