use std::error::Error;
use std::fmt;

/// A line that isn't in the grammar of scripts, with its number; lines count from 1.
#[derive(Clone, Copy, Debug, PartialEq, Eq)]
pub struct BadLine(pub u64);

impl fmt::Display for BadLine {
    ghost use Rattle.std.specs.Prelude.{Some};
    ghost use Rattle.sse_script.specs.FaultTexts.{bad_line_text};

    ghost output = { λ bad. Some (bad_line_text bad.0) };

    fn fmt<W: fmt::Write>(&self, f: &mut fmt::Formatter<W>) -> fmt::Result {
        write!(f, "line {} is not one of a script", self.0)
    }
}

impl Error for BadLine {}
