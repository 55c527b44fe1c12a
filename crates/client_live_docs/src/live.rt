ghost use Rattle.std.specs.Prelude.{◌≡◌, IfOk, IfSome, IsOkUnless, List, None};
ghost use Rattle.client_live_docs.specs.AreLive.{AreLive};
ghost use Rattle.client_live_docs.specs.LiveAfter.{live_refusal, AreLiveAfter};
ghost use Rattle.client_registry.specs.Document.{Document};
ghost use Rattle.client_registry.specs.Facts.{words_with_id};
ghost use Rattle.client_registry.specs.HashNumbers.{hash_numbers};

use crate::collected::collect;
use crate::copies::copy_docs;
use crate::counted::refusal;
use crate::pending_update::PendingUpdate;
use client_registry::{Docs, DocsFault, HashKeys, Registry};
use std::alloc::{AllocError, Global};

// Promise P207 (caller): The documents of a renewed setup are exactly the live ones, by rising identifier; too many are refused with their whole count.
//   clauses: live, keys, refused, accepted; assumes: earlier calls; not: That an index of them has an accepted size.
/// The documents that are live after the update, or now if there is none: by rising identifier, their words in the order in
/// which they were given. Words and identifiers are hashed under these keys.
///
/// At most 2^18 documents, and 2^20 pairs of a word and a document. Errors, the first that applies:
/// `TooManyDocuments(count)` and `TooManyPairs(count)`, with the count of all that are live. With none of these,
/// `NoMemory` if memory runs out.
pub fn live_docs(
    alloc: Global,
    registry: &Registry,
    pending: Option<&PendingUpdate<'_>>,
    keys: HashKeys,
) -> Result<Docs, DocsFault>
    ensures live { IfOk result (λ docs. AreLiveAfter registry.now pending.entry docs.documents) }
    ensures keys { IfOk result (λ docs. docs.keys ≡ hash_numbers keys) }
    ensures refused { (docs : List Document) → AreLiveAfter registry.now pending.entry docs → IfSome (live_refusal docs) (λ fault. result ≡ Err fault) }
    ensures accepted { (docs : List Document) → AreLiveAfter registry.now pending.entry docs → live_refusal docs ≡ None → IsOkUnless result DocsFault.NoMemory }
{
    if let Some(fault) = refusal(registry, pending) {
        return Err(fault);
    }
    Ok(collect(alloc, registry, pending, keys)?)
}

// Promise P207, also here; clauses: live, keys
/// The documents of a setup that nothing was done after, by rising identifier, as a renewal sets them up again. Words and
/// identifiers are hashed under these keys.
pub fn docs_by_id(alloc: Global, docs: &Docs, keys: HashKeys) -> Result<Docs, AllocError>
    ensures live { IfOk result (λ sorted. AreLive (words_with_id docs.now.documents) sorted.documents) }
    ensures keys { IfOk result (λ sorted. sorted.keys ≡ hash_numbers keys) }
{
    let registry = Registry::from_docs(copy_docs(alloc, docs, keys)?);
    match live_docs(alloc, &registry, None, keys) {
        Ok(sorted) => Ok(sorted),
        Err(DocsFault::NoMemory) => Err(AllocError),
        Err(DocsFault::AlreadyLive(_)) => unreachable!(),
        Err(DocsFault::TooManyDocuments(_)) => unreachable!(),
        Err(DocsFault::TooManyPairs(_)) => unreachable!(),
    }
}
