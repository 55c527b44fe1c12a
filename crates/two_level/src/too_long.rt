use std::error::Error;
use std::fmt;

/// The list has more identifiers than two levels of blocks can hold; here is how many.
#[derive(Clone, Copy, Debug, PartialEq, Eq)]
pub struct ListTooLong(pub u64);

impl fmt::Display for ListTooLong {
    ghost use Rattle.std.specs.Prelude.{◌++◌, Some, codes, decimal};

    ghost output = { λ list. Some (codes "a list of " ++ decimal list.0 ++ codes " identifiers is longer than two levels of blocks can hold") };

    fn fmt<W: fmt::Write>(&self, f: &mut fmt::Formatter<W>) -> fmt::Result {
        write!(
            f,
            "a list of {} identifiers is longer than two levels of blocks can hold",
            self.0
        )
    }
}

impl Error for ListTooLong {}
