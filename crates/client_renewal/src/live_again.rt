ghost use Rattle.std.specs.Prelude.{◌≡◌, ◌≢◌, ◌+◌, ◌<◌, ◌^◌, Err, IfOk, IfSome, List, map, nat_eq};
ghost use Rattle.std.specs.List.{IsDistinct};
ghost use Rattle.std.specs.Option.{option_or};
ghost use Rattle.std.specs.Result.{result_err};
ghost use Rattle.client_live_docs.specs.AreLive.{AreLive};
ghost use Rattle.client_registry.specs.Acceptance.{frames_needed, size_refusal};
ghost use Rattle.client_registry.specs.Document.{Document};
ghost use Rattle.client_registry.specs.HashNumbers.{hash_numbers};
ghost use Rattle.client_registry.specs.Registered.{facts};
ghost use Rattle.client_registry.specs.Setup.{setup_with};
ghost use Rattle.client_renewal.specs.Refusals.{key_refusal, live_refusal, refusal_to_send, renewal_refusal};

use crate::key_used::epoch_of;
use crate::past::Past;
use crate::renewal_fault::{RenewalFault, of_docs};
use crate::sizes::refusal_by_size;
use client_live_docs::live_docs;
use client_registry::{Docs, HashKeys, Registry};
use std::alloc::Global;

/// The documents that are live, by rising identifier, to be set up again under a key of this mark after so many update frames.
/// Words and identifiers are hashed under `hash_keys`.
///
/// Errors, the first that applies: `KeyUsed(epoch)`; `TooManyDocuments(count)`; `TooManyPairs(count)`;
/// `ListTooLong { word, n }`; `TooManyBytes(count)`; `HistoryFull`. `NoMemory` may come in place of the documents and of any
/// but the first three.
pub fn renewed_docs(
    alloc: Global,
    registry: &Registry,
    hash_keys: HashKeys,
    mark: &[u8; 16],
    past: &Past,
    frames: u32,
) -> Result<Docs, RenewalFault>
    ensures live { IfOk result (λ docs. AreLive (facts registry.now).live docs.documents) }
    ensures keys { IfOk result (λ docs. docs.keys ≡ hash_numbers hash_keys) }
    ensures refused { (docs : List Document) → AreLive (facts registry.now).live docs → IfSome (option_or (key_refusal past.now.marks.items mark.now) (live_refusal docs)) (λ fault. result ≡ Err fault) }
    ensures fault { (docs : List Document) → AreLive (facts registry.now).live docs → result ≢ Err RenewalFault.NoMemory → result_err result ≡ renewal_refusal past.now.marks.items mark.now frames (setup_with docs past.now.b past.now.big past.now.pad) }
    ensures accepted { IfOk result (λ docs. size_refusal (setup_with docs.documents past.now.b past.now.big past.now.pad) ≡ None) }
    ensures numbers { IfOk result (λ docs. frames + frames_needed (setup_with docs.documents past.now.b past.now.big past.now.pad) < 2 ^ 32) }
{
    match epoch_of(past.marks.as_slice(), mark) {
        Some(epoch) => Err(RenewalFault::KeyUsed(epoch as u64)),
        None => sized_docs(alloc, registry, hash_keys, past, frames),
    }
}

/// The same for a key that no epoch had.
fn sized_docs(
    alloc: Global,
    registry: &Registry,
    hash_keys: HashKeys,
    past: &Past,
    frames: u32,
) -> Result<Docs, RenewalFault>
    ensures live { IfOk result (λ docs. AreLive (facts registry.now).live docs.documents) }
    ensures keys { IfOk result (λ docs. docs.keys ≡ hash_numbers hash_keys) }
    ensures refused { (docs : List Document) → AreLive (facts registry.now).live docs → IfSome (live_refusal docs) (λ fault. result ≡ Err fault) }
    ensures fault { (docs : List Document) → AreLive (facts registry.now).live docs → result ≢ Err RenewalFault.NoMemory → result_err result ≡ option_or (live_refusal docs) (refusal_to_send frames (setup_with docs past.now.b past.now.big past.now.pad)) }
    ensures accepted { IfOk result (λ docs. size_refusal (setup_with docs.documents past.now.b past.now.big past.now.pad) ≡ None) }
    ensures numbers { IfOk result (λ docs. frames + frames_needed (setup_with docs.documents past.now.b past.now.big past.now.pad) < 2 ^ 32) }
{
    let docs = match docs_again(alloc, registry, hash_keys) {
        Ok(docs) => docs,
        Err(fault) => return Err(fault),
    };
    match refusal_by_size(&docs, past, frames) {
        Some(fault) => Err(fault),
        None => Ok(docs),
    }
}

/// The documents that are live, unless they are too many for a setup.
fn docs_again(alloc: Global, registry: &Registry, hash_keys: HashKeys) -> Result<Docs, RenewalFault>
    ensures live { IfOk result (λ docs. AreLive (facts registry.now).live docs.documents) }
    ensures keys { IfOk result (λ docs. docs.keys ≡ hash_numbers hash_keys) }
    ensures refused { (docs : List Document) → AreLive (facts registry.now).live docs → IfSome (live_refusal docs) (λ fault. result ≡ Err fault) }
    ensures fault { (docs : List Document) → AreLive (facts registry.now).live docs → result ≢ Err RenewalFault.NoMemory → result_err result ≡ live_refusal docs }
{
    entries_differ(registry);
    match live_docs(alloc, registry, None, hash_keys) {
        Ok(docs) => Ok(docs),
        Err(fault) => Err(of_docs(fault)),
    }
}

/// A registry has one entry for each identifier.
fn entries_differ(registry: &Registry)
    ensures { IsDistinct nat_eq (map (λ k. k.id) registry.now.kept) }
{
    let _ids = registry.ids();
}
