use std::error::Error;
use std::fmt;

/// Why a search gives no list.
#[derive(Clone, Copy, Debug)]
pub enum WalkFault {
    /// The setup isn't whole.
    OutOfPlace,
    /// What stands under the word's labels is no list: a cell of an unknown kind, a pointer to no block, a number after
    /// a zero, or an addition that is zero.
    BadList,
}

impl fmt::Display for WalkFault {
    ghost use Rattle.std.specs.Prelude.{Some};
    ghost use Rattle.server_core.specs.Texts.{walk_fault_text};

    ghost output = { λ fault. Some (walk_fault_text fault) };

    fn fmt<W: fmt::Write>(&self, f: &mut fmt::Formatter<W>) -> fmt::Result {
        match self {
            WalkFault::OutOfPlace => f.write_str("the setup is not whole"),
            WalkFault::BadList => f.write_str("what the token finds is no list"),
        }
    }
}

impl Error for WalkFault {}
