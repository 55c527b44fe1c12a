ghost use Rattle.std.specs.Prelude.{◌≡◌, ◌≢◌, ◌+◌, [], Err, IfOk, None, Some, nat_lt, if◌then◌else◌};
ghost use Rattle.std.specs.Int.{div_ceil};
ghost use Rattle.std.specs.Result.{result_err};
ghost use Rattle.client_registry.specs.Acceptance.{size_refusal};
ghost use Rattle.client_registry.specs.Epochs.{setup_renewed};
ghost use Rattle.client_registry.specs.Registered.{Represents};
ghost use Rattle.client_registry.specs.Sized.{IsHistory};
ghost use Rattle.leakage_history.specs.HashedRun.{run_of};
ghost use Rattle.leakage_history.specs.Renewals.{IsIndexSize, docs_refusal, index_refusal, renewal_refusal};

use crate::history::History;
use crate::renewal_fault::{RenewalFault, of_docs, of_size};
use client_live_docs::live_docs;
use client_registry::{Docs, Registry, Size, Sizes, size_of};
use std::alloc::{AllocError, Global};

/// The documents that are live in a registry that was told a history.
fn docs_in(alloc: Global, history: &History, registry: &Registry) -> Result<Docs, RenewalFault>
    requires history { IsHistory (run_of history.now) }
    requires told { Represents registry.now history.now.setup history.now.later }
    ensures documents { IfOk result (λ docs. docs.documents ≡ (setup_renewed (run_of history.now)).documents) }
    ensures fault { result ≢ Err RenewalFault.NoMemory → result_err result ≡ docs_refusal (setup_renewed (run_of history.now)) }
{
    match live_docs(alloc, registry, None, history.keys()) {
        Ok(docs) => Ok(docs),
        Err(fault) => Err(of_docs(fault)),
    }
}

/// The documents that are live after a history.
fn docs_of(alloc: Global, history: &History) -> Result<Docs, RenewalFault>
    requires { IsHistory (run_of history.now) }
    ensures documents { IfOk result (λ docs. docs.documents ≡ (setup_renewed (run_of history.now)).documents) }
    ensures fault { result ≢ Err RenewalFault.NoMemory → result_err result ≡ docs_refusal (setup_renewed (run_of history.now)) }
{
    if let Some(registry) = history.registry() {
        return docs_in(alloc, history, registry);
    }
    let registry = history.begun_registry(alloc)?;
    docs_in(alloc, history, &registry)
}

/// The size of an index of these documents with the parameters of a history, whose setup has one; or why there is none that takes
/// so many update frames or fewer. It takes no memory.
fn size_within(docs: &Docs, history: &History, most: u32) -> Result<Size, RenewalFault>
    requires { size_refusal history.now.setup ≡ None }
    ensures size { IfOk result (λ size. IsIndexSize size (record { documents = docs.now.documents; shape = history.now.setup.shape; pad = history.now.setup.pad })) }
    ensures accepted { IfOk result (λ size. size_refusal (record { documents = docs.now.documents; shape = history.now.setup.shape; pad = history.now.setup.pad }) ≡ None) }
    ensures fault { result_err result ≡ index_refusal most (record { documents = docs.now.documents; shape = history.now.setup.shape; pad = history.now.setup.pad }) }
{
    let b = u64::from(history.b());
    let big = u64::from(history.big());
    let pad = u64::from(history.pad());
    match size_of(docs, Sizes { b, big, pad }) {
        Ok(size) => numbered(size, most),
        Err(fault) => Err(of_size(fault)),
    }
}

/// The same size, unless its setup takes more update frames.
fn numbered(size: Size, most: u32) -> Result<Size, RenewalFault>
    ensures same { IfOk result (λ same. same ≡ size) }
    ensures fault { result_err result ≡ (if nat_lt most (2 + div_ceil size.padded_words 1024 + div_ceil size.padded_blocks 256) then Some RenewalFault.HistoryFull else None) }
{
    let needed = 2 + size.padded_words.div_ceil(1024) + size.padded_blocks.div_ceil(256);
    if needed > most {
        return Err(RenewalFault::HistoryFull);
    }
    Ok(size)
}

/// The epoch of these documents alone, with the parameters and the keys of a history.
fn begun(alloc: Global, docs: Docs, history: &History) -> Result<History, AllocError>
    requires { size_refusal (record { documents = docs.documents; shape = history.now.setup.shape; pad = history.now.setup.pad }) ≡ None }
    ensures next { IfOk result (λ next. next ≡ record { setup = record { documents = docs.documents; shape = history.now.setup.shape; pad = history.now.setup.pad }; later = []; keys = history.now.keys }) }
    ensures kept { IfOk result (λ next. IsHistory (run_of next)) }
{
    let (b, big, pad) = (history.b(), history.big(), history.pad());
    let next = History::new(alloc, docs, history.keys(), b, big, pad)?;
    // Its contract says that the documents keep their limits.
    let _commands = next.len();
    Ok(next)
}

/// The epoch of these documents alone and the size of its index, or why there is none that takes so many update frames or fewer.
fn sized(
    alloc: Global,
    docs: Docs,
    history: &History,
    most: u32,
) -> Result<(History, Size), RenewalFault>
    requires { size_refusal history.now.setup ≡ None }
    ensures next { IfOk result (λ r. r.0 ≡ record { setup = record { documents = docs.documents; shape = history.now.setup.shape; pad = history.now.setup.pad }; later = []; keys = history.now.keys }) }
    ensures kept { IfOk result (λ r. IsHistory (run_of r.0)) }
    ensures size { IfOk result (λ r. IsIndexSize r.1 (record { documents = docs.documents; shape = history.now.setup.shape; pad = history.now.setup.pad })) }
    ensures fault { result ≢ Err RenewalFault.NoMemory → result_err result ≡ index_refusal most (record { documents = docs.documents; shape = history.now.setup.shape; pad = history.now.setup.pad }) }
{
    match size_within(&docs, history, most) {
        Ok(size) => Ok((begun(alloc, docs, history)?, size)),
        Err(fault) => Err(fault),
    }
}

/// The epoch that a renewal of the key begins after a history and the size of its index, or why there is none that takes so many
/// update frames or fewer.
pub(crate) fn renewed(
    alloc: Global,
    history: &History,
    most: u32,
) -> Result<(History, Size), RenewalFault>
    requires { IsHistory (run_of history.now) }
    ensures next { IfOk result (λ r. r.0 ≡ record { setup = setup_renewed (run_of history.now); later = []; keys = history.now.keys }) }
    ensures kept { IfOk result (λ r. IsHistory (run_of r.0)) }
    ensures size { IfOk result (λ r. IsIndexSize r.1 (setup_renewed (run_of history.now))) }
    ensures fault { result ≢ Err RenewalFault.NoMemory → result_err result ≡ renewal_refusal most (setup_renewed (run_of history.now)) }
{
    match docs_of(alloc, history) {
        Ok(docs) => sized(alloc, docs, history, most),
        Err(fault) => Err(fault),
    }
}
