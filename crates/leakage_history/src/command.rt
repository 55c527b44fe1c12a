use client_registry::{Doc, DocId, Word};

/// A command after a setup.
#[derive(Drop)]
pub enum Command {
    /// A document becomes live.
    Add(Doc),
    /// The live document of this identifier is no more.
    Delete(DocId),
    /// The live documents with this word are asked for.
    Search(Word),
}
