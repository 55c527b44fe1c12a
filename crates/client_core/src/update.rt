use client_registry::{Doc, DocId};

/// A command after the setup that changes what is live.
#[derive(Drop)]
pub enum Update {
    /// A document becomes live.
    Add(Doc),
    /// The live document of this identifier is no more.
    Delete(DocId),
}
