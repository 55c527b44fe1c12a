use client_registry::{Doc, DocId};

/// The update that a record says.
#[derive(Drop)]
pub enum Update {
    /// This document was added.
    Add(Doc),
    /// The document of this identifier was deleted.
    Delete(DocId),
}
