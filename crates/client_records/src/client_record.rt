use crate::kinds::MARK_LEN;
use client_registry::{Doc, DocId, Docs};

/// A record of a client's journal.
#[derive(Drop)]
pub enum Record {
    /// A setup of these documents under the key of this mark, with `b` numbers in a cell and `big` in a block, filled
    /// up to multiples of `pad`. Whether the three are within their limits isn't said.
    Setup {
        mark: [u8; MARK_LEN],
        docs: Docs,
        b: u16,
        big: u16,
        pad: u16,
    },
    /// This document was added.
    Add(Doc),
    /// The document of this identifier was deleted.
    Delete(DocId),
    /// The key was renewed, under that of this mark.
    Renewal([u8; MARK_LEN]),
}
