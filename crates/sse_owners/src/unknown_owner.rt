use std::error::Error;
use std::fmt;

/// No owner has this number.
#[derive(Clone, Copy, Debug, PartialEq, Eq)]
pub struct UnknownOwner;

impl fmt::Display for UnknownOwner {
    ghost use Rattle.std.specs.Prelude.{Some, codes};

    ghost output = { λ _. Some (codes "no owner has this number") };

    fn fmt<W: fmt::Write>(&self, f: &mut fmt::Formatter<W>) -> fmt::Result {
        f.write_str("no owner has this number")
    }
}

impl Error for UnknownOwner {}
