ghost use Rattle.std.specs.Prelude.{◌≡◌, ◌+◌, ◌<◌, ◌≤◌, [], ◌∷◌, ◌++◌, None, Some, All, length, slice_get, IfSome, OnOk, OnErr, IsOkUnless};

use crate::doc_id::DocId;
use crate::document::Doc;
use crate::faults::DocsFault;
use crate::hash_keys::HashKeys;
use crate::limits::{MAX_DOCUMENTS, MAX_PAIRS};
use crate::listed::Listed;
use crate::numbered::Numbered;
use crate::word::Word;
use crate::word_numbers::count_all;
use crate::word_table::Words;
use indexmap::IndexMap;
use std::alloc::Global;
use std::marker::Model;

/// The documents collected for a setup, in their order, with their words numbered from 0 by first appearance.
///
/// A document is kept as its identifier and the numbers of its words; the bytes of a word stand once, in the table
/// of words. Both tables hash under the keys that [`Docs::new`] is given.
#[derive(Drop)]
pub struct Docs {
    pub(crate) documents: IndexMap<DocId, Listed, HashKeys>,
    pub(crate) words: Words,
    pub(crate) pairs: usize,
}

impl Model for Docs {
    ghost use Rattle.client_registry.specs.Collected.{Collected};

    ghost Value = { Collected };

    ghost use Rattle.client_registry.specs.DocsView.{collected_of, IsIndexed};

    ghost view = { collected_of };

    ghost invariant = { IsIndexed };
}

impl Docs {
    ghost use Rattle.client_registry.specs.Documents.{docs_refusal, is_live, list_lengths, words_of, IsCollected};
    ghost use Rattle.client_registry.specs.DocumentRule.{IsDocument};
    ghost use Rattle.client_registry.specs.HashNumbers.{hash_numbers};
    ghost use Rattle.client_registry.specs.IdNumber.{id_number};
    ghost use Rattle.client_registry.specs.Numbered.{document_by};
    ghost use Rattle.client_registry.specs.WordBytes.{word_bytes};

    // Promise P59 (caller): Documents and registries keep the two hash keys that `Docs::new` received, through every push, addition and deletion.
    //   clauses: keys; assumes: earlier calls; not: That these keys are the master key's (P97 gives those).
    /// No document. Words and identifiers are to be hashed under these keys.
    pub fn new(alloc: Global, keys: HashKeys) -> Docs
        ensures none { result.documents ≡ [] }
        ensures keys { result.keys ≡ hash_numbers keys }
    {
        Docs {
            documents: IndexMap::with_hasher(alloc, keys),
            words: IndexMap::with_hasher(alloc, keys),
            pairs: 0,
        }
    }

    // Promise P58, also here; clauses: ok, err, refused, accepted
    // Promise P59, also here; clauses: keys
    /// Adds a document after the others.
    ///
    /// At most 2^18 documents, and 2^20 pairs of a word and a document. Errors, the first that stands:
    /// `AlreadyLive(id)` where a document has this identifier; `TooManyDocuments(count)` and
    /// `TooManyPairs(count)`, with the count that would result. With none of these, `NoMemory` where there is no
    /// memory. After an error the documents are as before and `doc` is dropped. The keys stay.
    pub fn push(&mut self, doc: Doc) -> Result<(), DocsFault>
        ensures ok { OnOk result (self.new.documents ≡ self.old.documents ++ doc ∷ []) }
        ensures err { OnErr result (self.new ≡ self.old) }
        ensures keys { self.new.keys ≡ self.old.keys }
        ensures refused { IfSome (docs_refusal self.old.documents doc) (λ fault. result ≡ Err fault) }
        ensures accepted { docs_refusal self.old.documents doc ≡ None → IsOkUnless result DocsFault.NoMemory }
    {
        let id = doc.id();
        if self.is_live(id) {
            return Err(DocsFault::AlreadyLive(id.get()));
        }
        let documents = self.len() + 1;
        if documents > MAX_DOCUMENTS {
            return Err(DocsFault::TooManyDocuments(documents as u64));
        }
        let words = doc.into_words();
        let pairs = self.pairs + words.len();
        if pairs > MAX_PAIRS {
            return Err(DocsFault::TooManyPairs(pairs as u64));
        }
        // All memory is taken first, so that nothing fails once something has changed.
        let mut numbers = Vec::with_capacity(*self.words.allocator(), words.len())?;
        self.words.reserve(words.len())?;
        self.documents.reserve(1)?;
        count_all(&mut self.words, words, &mut numbers);
        let live = Some(numbers.len() as u32);
        self.documents.insert(id, Listed { numbers, live }).unwrap();
        self.pairs = pairs;
        Ok(())
    }

    /// How many documents.
    pub fn len(&self) -> usize
        ensures len { result ≡ length self.now.documents }
        ensures valid { IsCollected self.now.documents }
    {
        self.documents.len()
    }

    /// How many different words the documents have: at most 2^20.
    pub fn words(&self) -> usize
        ensures words { result ≡ length (words_of self.now.documents) }
        ensures within { result ≤ MAX_PAIRS }
        ensures valid { IsCollected self.now.documents }
    {
        self.words.len()
    }

    /// The document at place `i`, from 0: its numbers are those of [`Docs::word`].
    pub fn get(&self, i: usize) -> Numbered<'_>
        requires { i < length self.now.documents }
        ensures document { slice_get self.now.documents i ≡ Some (document_by (words_of self.now.documents) result) }
        ensures numbered { All (λ n. n < length (words_of self.now.documents)) result.numbers.now }
        ensures valid { IsDocument (document_by (words_of self.now.documents) result) }
    {
        let (id, listed) = self.documents.get_index(i).unwrap();
        Numbered {
            id: *id,
            numbers: &listed.numbers,
        }
    }

    /// The word of this number, from 0.
    pub fn word(&self, w: usize) -> &Word
        requires { w < length (words_of self.now.documents) }
        ensures { slice_get (words_of self.now.documents) w ≡ Some (word_bytes result.now) }
    {
        self.words.get_index(w).unwrap().0
    }

    /// How many documents hold the word of this number: at least 1.
    pub fn list_len(&self, w: usize) -> u32
        requires { w < length (words_of self.now.documents) }
        ensures length { slice_get (list_lengths self.now.documents) w ≡ Some result }
        ensures some { 1 ≤ result }
        ensures within { result ≤ length self.now.documents }
    {
        *self.words.get_index(w).unwrap().1
    }

    /// Whether a document has this identifier.
    pub fn is_live(&self, id: DocId) -> bool
        ensures { result ≡ is_live self.now.documents (id_number id) }
    {
        self.documents.contains_key(&id)
    }
}
