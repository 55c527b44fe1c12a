ghost use Rattle.std.specs.Prelude.{◌≡◌, option_map};
ghost use Rattle.client_live_docs.specs.LiveAfter.{added_by, is_touched, command_in};
ghost use Rattle.client_registry.specs.IdNumber.{id_number};

use client_registry::{Doc, DocId};

/// An update that a registry hasn't carried out yet.
#[derive(Clone, Copy)]
pub enum PendingUpdate<'a> {
    /// This document is added; it replaces a live one of its identifier.
    Add(&'a Doc),
    /// The document of this identifier is deleted, if it is live.
    Delete(DocId),
}

/// The document that the update adds, if it is an addition.
pub(crate) fn added<'a>(pending: Option<&PendingUpdate<'a>>) -> Option<&'a Doc>
    ensures { option_map (λ doc. doc.now) result ≡ added_by (command_in pending.entry) }
{
    match pending {
        Some(PendingUpdate::Add(doc)) => Some(doc),
        _ => None,
    }
}

/// Whether the update is of this identifier.
pub(crate) fn is_touched(pending: Option<&PendingUpdate<'_>>, id: DocId) -> bool
    ensures { result ≡ is_touched (command_in pending.entry) (id_number id) }
{
    match pending {
        Some(PendingUpdate::Add(doc)) => id.get() == doc.id().get(),
        Some(PendingUpdate::Delete(gone)) => id.get() == gone.get(),
        None => false,
    }
}
