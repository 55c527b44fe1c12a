ghost use Rattle.std.specs.Prelude.{◌≡◌, ◌≢◌, ℕ, List, None, Some, Err, IfOk, IsOkUnless, bytes_eq};
ghost use Rattle.std.specs.List.{list_any};
ghost use Rattle.client_live_docs.specs.AreLive.{AreLive};
ghost use Rattle.client_live_docs.specs.LiveAfter.{live_refusal};
ghost use Rattle.client_records.specs.Records.{RecordText};
ghost use Rattle.client_registry.specs.Document.{Document};
ghost use Rattle.client_registry.specs.Epochs.{Renews};
ghost use Rattle.client_registry.specs.HashNumbers.{hash_numbers};
ghost use Rattle.client_rebuild.specs.Recalls.{facts_of_last, records_of_last};
ghost use Rattle.client_rebuild.specs.Rebuilds.{TakesLater, said};
ghost use Rattle.client_rebuild.specs.Renewals.{AcceptsRenewal, IsRenewed, fault_of_docs};

use crate::accepted_setup::accepted_setup;
use crate::fault::RebuildFault;
use crate::last::Last;
use crate::recorded_setup::RecordedSetup;
use crate::recorded_update::RecordedUpdate;
use crate::update::Update;
use client_live_docs::{PendingUpdate, docs_by_id, live_docs};
use client_registry::{Docs, DocsFault, HashKeys};
use std::alloc::Global;

/// What the record of a renewal under a key of this mark makes, after others. After an error the last one stands for the same history.
/// The documents of the new epoch are hashed under these keys.
pub(crate) fn take_renewal(
    alloc: Global,
    keys: HashKeys,
    marks: &mut Vec<[u8; 16]>,
    last: Last,
    own: [u8; 16],
) -> (Last, Result<(), RebuildFault>)
    ensures { (text : RecordText) → said text ≡ Some (Renews own) → TakesLater (hash_numbers keys) marks.old.items last text marks.new.items result.0 result.1 }
{
    match renewed(alloc, keys, marks.as_slice(), &last, &own) {
        Ok(setup) => match marks.push(own) {
            Ok(()) => (Last::Setup(setup), Ok(())),
            Err(_) => (last, Err(RebuildFault::NoMemory)),
        },
        Err(fault) => (last, Err(fault)),
    }
}

/// The setup that such a renewal makes of the documents that are live after the last record.
fn renewed(
    alloc: Global,
    keys: HashKeys,
    marks: &[[u8; 16]],
    last: &Last,
    own: &[u8; 16],
) -> Result<RecordedSetup, RebuildFault>
    ensures accepted { IfOk result (λ setup. AcceptsRenewal marks.now last.now own.now) }
    ensures renewed { IfOk result (λ setup. IsRenewed (hash_numbers keys) last.now (Last.Setup setup)) }
    ensures bad { (n : ℕ) → result ≡ Err (RebuildFault.BadRecord n) → (n ≡ records_of_last last.now) × (AcceptsRenewal marks.now last.now own.now → ⊥) }
{
    if is_used(marks, own) {
        return Err(RebuildFault::BadRecord(u64::from(last.records())));
    }
    match live_documents(alloc, keys, last) {
        Ok(docs) => {
            let (b, big, pad) = last.parameters();
            accepted_setup(docs, b, big, pad, last.frames(), last.records())
        }
        Err(fault) => Err(fault_of(fault, last.records())),
    }
}

/// The fault of the record of this number where the live documents are refused.
fn fault_of(fault: DocsFault, number: u32) -> RebuildFault
    ensures { result ≡ fault_of_docs number fault }
{
    match fault {
        DocsFault::AlreadyLive(_) => RebuildFault::BadRecord(u64::from(number)),
        DocsFault::TooManyDocuments(_) => RebuildFault::BadRecord(u64::from(number)),
        DocsFault::TooManyPairs(_) => RebuildFault::BadRecord(u64::from(number)),
        DocsFault::NoMemory => RebuildFault::NoMemory,
    }
}

/// Whether one of these marks is the same.
fn is_used(marks: &[[u8; 16]], own: &[u8; 16]) -> bool
    ensures { result ≡ list_any (bytes_eq own.now) marks.now }
{
    marks.iter().any(|mark| is_same(own, mark))
}

/// Whether two marks are equal.
fn is_same(own: &[u8; 16], mark: &[u8; 16]) -> bool
    ensures { result ≡ bytes_eq own.now mark.now }
{
    own == mark
}

/// The documents that are live after the last record, by rising identifier.
fn live_documents(alloc: Global, keys: HashKeys, last: &Last) -> Result<Docs, DocsFault>
    ensures live { IfOk result (λ docs. AreLive (facts_of_last last.now).live docs.documents) }
    ensures keys { IfOk result (λ docs. docs.keys ≡ hash_numbers keys) }
    ensures accepted { (docs : List Document) → AreLive (facts_of_last last.now).live docs → live_refusal docs ≡ None → IsOkUnless result DocsFault.NoMemory }
{
    match last {
        Last::Setup(setup) => Ok(docs_by_id(alloc, &setup.docs, keys)?),
        Last::Update(update) => live_after_update(alloc, keys, update),
    }
}

/// The same where that is an update, which isn't carried out yet.
fn live_after_update(
    alloc: Global,
    keys: HashKeys,
    last: &RecordedUpdate,
) -> Result<Docs, DocsFault>
    ensures live { IfOk result (λ docs. AreLive (facts_of_last (Last.Update last.now)).live docs.documents) }
    ensures keys { IfOk result (λ docs. docs.keys ≡ hash_numbers keys) }
    ensures accepted { (docs : List Document) → AreLive (facts_of_last (Last.Update last.now)).live docs → live_refusal docs ≡ None → IsOkUnless result DocsFault.NoMemory }
{
    let pending = match &last.update {
        Update::Add(doc) => PendingUpdate::Add(doc),
        Update::Delete(id) => PendingUpdate::Delete(*id),
    };
    live_docs(alloc, &last.registry, Some(&pending), keys)
}
