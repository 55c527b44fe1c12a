use crate::{Cause, Refusal};

/// What one printed line says. `print` writes the line; specs/Texts.antt has the text of each.
#[derive(Clone, Copy)]
pub enum Shown<'a> {
    /// A setup was carried out, of so many words and blocks.
    SetUp { words: u32, blocks: u32 },
    /// The live documents were set up again under another key, in so many words and blocks.
    Rebuilt { words: u32, blocks: u32 },
    /// A document was added.
    Added { id: u64 },
    /// A document was deleted.
    Deleted { id: u64 },
    /// A search's identifiers, in the order in which they are printed.
    Found { ids: &'a [u64] },
    /// The identifiers that a query chooses, in the order in which they are printed.
    Matched { ids: &'a [u64] },
    /// A run went on from a journal, and sent so many frames again.
    Resumed { frames: u32 },
    /// A command was refused.
    Refused(Refusal),
    /// The run stopped.
    Stopped(Cause<'a>),
}
