ghost use Rattle.std.specs.Prelude.{◌≡◌, ◌+◌, ◌*◌, ◌<◌, ◌≤◌, ◌^◌, ◌++◌, ◌∷◌, [], List, length, map, nat_eq};
ghost use Rattle.std.specs.List.{IsDistinct};
ghost use Rattle.client_live_docs.specs.Counts.{Counts};
ghost use Rattle.client_live_docs.specs.LiveAfter.{documents_after, live_after, live_ids, live_refusal, command_in};
ghost use Rattle.client_registry.proofs.LiveListed.{documents_live};
ghost use Rattle.client_registry.specs.Document.{Document};
ghost use Rattle.client_registry.specs.Registered.{facts};

use crate::kept::other_live;
use crate::pending_update::{PendingUpdate, added};
use client_registry::{DocsFault, MAX_DOCUMENTS, MAX_PAIRS, Registry};

/// How many documents, and how many pairs of a word and a document. The pairs of more documents than a setup takes aren't
/// counted: nobody reads their number, and it might not fit.
#[derive(Drop)]
pub(crate) struct Counted {
    pub(crate) documents: usize,
    pub(crate) pairs: usize,
}

impl Counted {
    /// Counts a document of so many words.
    fn add(&mut self, words: usize)
        requires documents { self.old.documents < 2 ^ 63 }
        requires pairs { self.old.pairs ≤ 4096 * self.old.documents }
        requires few { words ≤ 4096 }
        ensures documents { self.new.documents ≡ self.old.documents + 1 }
        ensures counts { (docs : List Document) (d : Document) → Counts self.old docs → length d.words ≡ words → Counts self.new (docs ++ d ∷ []) }
    {
        self.documents += 1;
        if self.documents <= MAX_DOCUMENTS {
            self.pairs += words;
        }
    }
}

/// Counts the documents that are live after the update.
fn count_live(registry: &Registry, pending: Option<&PendingUpdate<'_>>) -> Counted
    ensures different { IsDistinct nat_eq (map (λ k. k.id) registry.now.kept) }
    ensures counts { Counts result (documents_live (live_after (facts registry.now) (command_in pending.entry)) (live_ids registry.now (command_in pending.entry))) }
{
    let mut counted = Counted {
        documents: 0,
        pairs: 0,
    };
    if let Some(doc) = added(pending) {
        counted.add(doc.words().len());
    }
    for place in 0..registry.ids() {
        if let Some(doc) = other_live(registry, pending, registry.id_at(place)) {
            counted.add(doc.numbers.len());
        }
    }
    counted
}

/// Why the documents that are live after the update make no setup: they are too many.
pub(crate) fn refusal(registry: &Registry, pending: Option<&PendingUpdate<'_>>) -> Option<DocsFault>
    ensures different { IsDistinct nat_eq (map (λ k. k.id) registry.now.kept) }
    ensures fault { result ≡ live_refusal (documents_after registry.now (command_in pending.entry)) }
{
    let counted = count_live(registry, pending);
    if counted.documents > MAX_DOCUMENTS {
        return Some(DocsFault::TooManyDocuments(counted.documents as u64));
    }
    if counted.pairs > MAX_PAIRS {
        return Some(DocsFault::TooManyPairs(counted.pairs as u64));
    }
    None
}
