ghost use Rattle.std.specs.Prelude.{◌≡◌, ◌++◌, ◌∷◌, [], IfOk, None, OnOk, is_some, map, nat_eq, true};
ghost use Rattle.std.specs.List.{IsDistinct};
ghost use Rattle.client_live_docs.specs.LiveAfter.{documents_after, live_after, live_ids, live_refusal, command_in};
ghost use Rattle.client_registry.proofs.LiveListed.{document_live as live_document};
ghost use Rattle.client_registry.specs.DocumentRule.{doc_refusal};
ghost use Rattle.client_registry.specs.Documents.{docs_refusal};
ghost use Rattle.client_registry.specs.HashNumbers.{hash_numbers};
ghost use Rattle.client_registry.specs.IdNumber.{id_number};
ghost use Rattle.client_registry.specs.Live.{in_order};
ghost use Rattle.client_registry.specs.Registered.{facts};
ghost use Rattle.client_registry.specs.WordBytes.{word_bytes};

use crate::copies::{copy_doc, document_of, push_known};
use crate::kept::other_live;
use crate::pending_update::{PendingUpdate, added};
use client_registry::{Doc, DocId, Docs, HashKeys, Registry};
use std::alloc::{AllocError, Global};

/// The documents that are live after the update, by rising identifier, hashed under these keys.
pub(crate) fn collect(
    alloc: Global,
    registry: &Registry,
    pending: Option<&PendingUpdate<'_>>,
    keys: HashKeys,
) -> Result<Docs, AllocError>
    requires different { IsDistinct nat_eq (map (λ k. k.id) registry.now.kept) }
    requires few { live_refusal (documents_after registry.now (command_in pending)) ≡ None }
    ensures documents { IfOk result (λ docs. docs.documents ≡ documents_after registry.now (command_in pending.entry)) }
    ensures keys { IfOk result (λ docs. docs.keys ≡ hash_numbers keys) }
{
    let ids = sorted_ids(alloc, registry, pending)?;
    let mut docs = Docs::new(alloc, keys);
    push_all(alloc, registry, pending, ids.as_slice(), &mut docs)?;
    Ok(docs)
}

/// Their identifiers, rising.
fn sorted_ids(
    alloc: Global,
    registry: &Registry,
    pending: Option<&PendingUpdate<'_>>,
) -> Result<Vec<DocId>, AllocError>
    ensures { IfOk result (λ ids. map id_number ids.items ≡ in_order (live_ids registry.now (command_in pending.entry))) }
{
    let mut ids = found_ids(alloc, registry, pending)?;
    ids.sort_unstable_by_key(
        |id|
            ensures { result ≡ id_number id.now }
        { id.get() },
    );
    Ok(ids)
}

/// Their identifiers, in the order of the registry's entries after the one that the update adds.
fn found_ids(
    alloc: Global,
    registry: &Registry,
    pending: Option<&PendingUpdate<'_>>,
) -> Result<Vec<DocId>, AllocError>
    ensures { IfOk result (λ ids. map id_number ids.items ≡ live_ids registry.now (command_in pending.entry)) }
{
    let mut ids = Vec::new(alloc);
    if let Some(doc) = added(pending) {
        ids.push(doc.id())?;
    }
    for place in 0..registry.ids() {
        let id = registry.id_at(place);
        if other_live(registry, pending, id).is_some() {
            ids.push(id)?;
        }
    }
    Ok(ids)
}

/// Adds the documents of these identifiers, which are all that are live after the update.
fn push_all(
    alloc: Global,
    registry: &Registry,
    pending: Option<&PendingUpdate<'_>>,
    ids: &[DocId],
    docs: &mut Docs,
) -> Result<(), AllocError>
    requires different { IsDistinct nat_eq (map (λ k. k.id) registry.now.kept) }
    requires ids { map id_number ids.now ≡ in_order (live_ids registry.now (command_in pending)) }
    requires few { live_refusal (documents_after registry.now (command_in pending)) ≡ None }
    requires empty { docs.old.documents ≡ [] }
    ensures documents { OnOk result (docs.new.documents ≡ documents_after registry.now (command_in pending.entry)) }
    ensures keys { docs.new.keys ≡ docs.old.keys }
{
    for id in ids {
        push_known(docs, document_live(alloc, registry, pending, *id)?)?;
    }
    Ok(())
}

/// A copy of the document of this identifier that is live after the update.
fn document_live(
    alloc: Global,
    registry: &Registry,
    pending: Option<&PendingUpdate<'_>>,
    id: DocId,
) -> Result<Doc, AllocError>
    requires { is_some (live_after (facts registry.now) (command_in pending) (id_number id)) ≡ true }
    ensures { IfOk result (λ doc. doc ≡ live_document (live_after (facts registry.now) (command_in pending.entry)) (id_number id)) }
{
    if let Some(doc) = added(pending) {
        if doc.id().get() == id.get() {
            return copy_doc(alloc, doc);
        }
    }
    copy_kept(alloc, registry, id)
}

/// A copy of the live document of this identifier that the registry has.
fn copy_kept(alloc: Global, registry: &Registry, id: DocId) -> Result<Doc, AllocError>
    requires { is_some ((facts registry.now).live (id_number id)) ≡ true }
    ensures { IfOk result (λ doc. doc ≡ live_document (facts registry.now).live (id_number id)) }
{
    let kept = registry.get(id).unwrap();
    let mut words = Vec::with_capacity(alloc, kept.numbers.len())?;
    for number in kept.numbers {
        words.push_reserved(*registry.word(*number as usize));
    }
    document_of(alloc, id, words)
}
