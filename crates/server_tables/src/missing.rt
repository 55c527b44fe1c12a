use std::error::Error;
use std::fmt;

/// The label or the number that is to be taken out isn't there. Nothing has changed.
#[derive(Clone, Copy, Debug, PartialEq, Eq)]
pub struct Missing;

impl fmt::Display for Missing {
    ghost use Rattle.std.specs.Prelude.{Some, codes};

    ghost output = { λ _. Some (codes "the label or the number is not there") };

    fn fmt<W: fmt::Write>(&self, f: &mut fmt::Formatter<W>) -> fmt::Result {
        f.write_str("the label or the number is not there")
    }
}

impl Error for Missing {}
