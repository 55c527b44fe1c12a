ghost use Rattle.std.specs.Prelude.{◌≡◌};
ghost use Rattle.server_core.specs.Views.{answer_of};

use crate::{Refuse, Walk};

/// What a server answers to a frame. It isn't shown, as the walk of a search has the word's token.
#[derive(Clone, Copy)]
pub enum Answer {
    /// To Hello: the number of the next update frame.
    Next(u32),
    /// The update frame of this number was taken.
    Took(u32),
    /// The server expects another number, which this is. Nothing has changed.
    Number(u32),
    /// What collides and where, as in `Refuse::Clash`. Nothing has changed.
    Clash { what: u8, place: u32 },
    /// To a search: so many identifiers stand at the front of the page that was lent, and the walk gives the others.
    Found { count: usize, walk: Walk },
    /// To a search: what stands under the word's labels is no list.
    BadList,
    /// To an update frame that brings something to keep: out of memory. Nothing has changed.
    NoMemory,
    /// The frame isn't one for the server's stage. Nothing has changed.
    OutOfPlace,
}

impl From<Refuse> for Answer {
    ghost from_gives = { λ refuse answer. answer ≡ answer_of refuse };

    fn from(refuse: Refuse) -> Answer {
        match refuse {
            Refuse::Number(next) => Answer::Number(next),
            Refuse::OutOfPlace => Answer::OutOfPlace,
            Refuse::Clash { what, place } => Answer::Clash { what, place },
            Refuse::NoMemory => Answer::NoMemory,
        }
    }
}
