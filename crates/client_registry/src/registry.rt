ghost use Rattle.std.specs.Prelude.{◌≡◌, ◌<◌, ◌^◌, [], ℕ, All, IfSome, IsNone, bytes_eq, false, is_some, length, map, nat_eq, not, position, option_map, slice_get, slice_index_or, Some, true};
ghost use Rattle.std.specs.List.{IsDistinct};

use crate::collected::Docs;
use crate::doc_id::DocId;
use crate::document::Doc;
use crate::hash_keys::HashKeys;
use crate::listed::Listed;
use crate::numbered::Numbered;
use crate::word::Word;
use crate::word_table::{Words, clear_counts};
use indexmap::IndexMap;
use std::marker::Model;

/// What a client keeps of its documents after the setup, to plan additions and deletions.
///
/// Each word has a number, which never changes, and a counter: how many of its pairs were first listed by an
/// addition. Of each identifier it keeps the numbers of all words that were ever listed with it, and which of them
/// are those of its live document. Nothing is searched here.
#[derive(Drop)]
pub struct Registry {
    pub(crate) documents: IndexMap<DocId, Listed, HashKeys>,
    pub(crate) words: Words,
    /// Memory for the numbers of the next document: as its words are given, and again in order.
    pub(crate) next: Vec<u32>,
    pub(crate) again: Vec<u32>,
    /// No counter is more than this, unless it is 2^32-1: how many documents were added.
    pub(crate) most: u32,
}

impl Model for Registry {
    ghost use Rattle.client_registry.specs.Registered.{Registered};

    ghost Value = { Registered };

    ghost use Rattle.client_registry.specs.RegistryView.{registered_of, IsSound};

    ghost view = { registered_of };

    ghost invariant = { IsSound };
}

impl Registry {
    ghost use Rattle.client_registry.specs.DocumentRule.{IsDocument};
    ghost use Rattle.client_registry.specs.Documents.{words_of, IsCollected};
    ghost use Rattle.client_registry.specs.Facts.{has_counter, has_counters};
    ghost use Rattle.client_registry.specs.IdNumber.{id_number};
    ghost use Rattle.client_registry.specs.Numbered.{document_by, words_by_number};
    ghost use Rattle.client_registry.specs.Registered.{facts, known_words, Represents};
    ghost use Rattle.client_registry.specs.WordBytes.{word_bytes};
    ghost use Rattle.two_level.specs.Shape.{Shape};

    // Promise P59, also here; clauses: keys
    // Promise P60 (caller): A registry gives the live documents, listed pairs and counters of its history, and follows each addition and deletion.
    //   clauses: setup; assumes: earlier calls; not: A new pair of a word at its last counter: `full_counter` reports it.
    /// The registry of a setup of these documents: all of them are live, each word keeps its number, and they are hashed
    /// as before. It takes no memory.
    pub fn from_docs(docs: Docs) -> Registry
        ensures setup { (shape : Shape) (pad : ℕ) → Represents result (record { documents = docs.documents; shape = shape; pad = pad }) [] }
        ensures words { known_words result ≡ words_of docs.documents }
        ensures keys { result.keys ≡ docs.keys }
        ensures valid { IsCollected docs.documents }
    {
        let Docs {
            documents,
            mut words,
            pairs: _,
        } = docs;
        clear_counts(&mut words);
        let alloc = *words.allocator();
        Registry {
            documents,
            words,
            next: Vec::new(alloc),
            again: Vec::new(alloc),
            most: 0,
        }
    }

    // Promise P60, also here; clauses: live, id, numbered, valid
    /// The live document of an identifier, where there is one: its numbers are those of [`Registry::word`].
    pub fn get(&self, id: DocId) -> Option<Numbered<'_>>
        ensures live { option_map (λ doc. words_by_number (known_words self.now) doc.numbers.now) result ≡ (facts self.now).live (id_number id) }
        ensures id { IfSome result (λ doc. id_number doc.id ≡ id_number id) }
        ensures numbered { IfSome result (λ doc. All (λ n. n < length (known_words self.now)) doc.numbers.now) }
        ensures valid { IfSome result (λ doc. IsDocument (document_by (known_words self.now) doc)) }
    {
        let listed = self.documents.get(&id)?;
        let live = listed.live?;
        Some(Numbered {
            id,
            numbers: &listed.numbers[..live as usize],
        })
    }

    /// Whether a document of this identifier is live.
    pub fn is_live(&self, id: DocId) -> bool
        ensures { result ≡ is_some ((facts self.now).live (id_number id)) }
    {
        self.get(id).is_some()
    }

    // Promise P60, also here; clauses: ensures
    /// Whether the pair of a word and an identifier was ever listed.
    pub fn is_listed(&self, word: &Word, id: DocId) -> bool
        ensures { result ≡ (facts self.now).listed (word_bytes word.now) (id_number id) }
    {
        match self.number_of(word) {
            Some(number) => self.is_pair(number, id),
            None => false,
        }
    }

    // Promise P60, also here; clauses: ensures
    /// How many pairs of a word were first listed by an addition, which is the number of the next one: its counter.
    pub fn counter(&self, word: &Word) -> u32
        ensures { result ≡ (facts self.now).counter (word_bytes word.now) }
    {
        self.words.get(word).copied().unwrap_or(0)
    }

    /// How many identifiers have an entry: those of all live documents are among them, and each has one.
    pub fn ids(&self) -> usize
        ensures ids { result ≡ length self.now.kept }
        ensures small { result < 2 ^ 63 }
        ensures different { IsDistinct nat_eq (map (λ k. k.id) self.now.kept) }
    {
        self.documents.len()
    }

    /// The identifier of the entry at this place, from 0.
    pub fn id_at(&self, place: usize) -> DocId
        requires { place < length self.now.kept }
        ensures { slice_get (map (λ k. k.id) self.now.kept) place ≡ Some (id_number result) }
    {
        *self.documents.get_index(place).unwrap().0
    }

    /// How many words have a number.
    pub fn words(&self) -> usize
        ensures { result ≡ length (known_words self.now) }
    {
        self.words.len()
    }

    /// The word of this number, from 0.
    pub fn word(&self, number: usize) -> &Word
        requires { number < length (known_words self.now) }
        ensures { slice_get (known_words self.now) number ≡ Some (word_bytes result.now) }
    {
        self.words.get_index(number).unwrap().0
    }

    /// The number of a word, where it has one.
    pub fn number_of(&self, word: &Word) -> Option<u32>
        ensures number { result ≡ position (bytes_eq (word_bytes word.now)) (known_words self.now) }
        ensures unlisted { IsNone result → (id : ℕ) → (facts self.now).listed (word_bytes word.now) id ≡ false }
    {
        match self.words.get_index_of(word) {
            Some(number) => Some(number as u32),
            None => None,
        }
    }

    /// Whether the pair of the word of this number and an identifier was ever listed.
    pub fn is_pair(&self, number: u32, id: DocId) -> bool
        requires { number < length (known_words self.now) }
        ensures { result ≡ (facts self.now).listed (slice_index_or (known_words self.now) number []) (id_number id) }
    {
        self.is_pair_at(number, id, self.place_of(id))
    }

    /// The place of an identifier's entry, from 0, where it has one.
    pub fn place_of(&self, id: DocId) -> Option<usize>
        ensures { result ≡ position (λ k. nat_eq (id_number id) k.id) self.now.kept }
    {
        self.documents.get_index_of(&id)
    }

    /// [`Registry::is_pair`] of an identifier whose entry stands at this place, so that it isn't looked up again.
    pub fn is_pair_at(&self, number: u32, _id: DocId, entry: Option<usize>) -> bool
        requires number { number < length (known_words self.now) }
        requires entry { entry ≡ position (λ k. nat_eq (id_number _id) k.id) self.now.kept }
        ensures { result ≡ (facts self.now).listed (slice_index_or (known_words self.now) number []) (id_number _id) }
    {
        match entry {
            Some(place) => self.documents.get_index(place).unwrap().1.has(number),
            None => false,
        }
    }

    /// The counter of the word of this number.
    pub fn counter_at(&self, number: usize) -> u32
        requires { number < length (known_words self.now) }
        ensures { result ≡ (facts self.now).counter (slice_index_or (known_words self.now) number []) }
    {
        *self.words.get_index(number).unwrap().1
    }

    /// The least position, from 0, of a word of the document that is at its last counter, 2^32-1, and whose pair with the
    /// document's identifier would be new.
    pub fn full_counter(&self, doc: &Doc) -> Option<u32>
        ensures position { result ≡ position (λ word. not (has_counter (facts self.now) doc.now.id word)) doc.now.words }
        ensures free { IsNone result → has_counters (facts self.now) doc.now ≡ true }
    {
        match self.first_full(doc.words(), doc.id()) {
            Some(position) => Some(position as u32),
            None => None,
        }
    }

    /// The first place of such a word.
    fn first_full(&self, words: &[Word], id: DocId) -> Option<usize>
        ensures first { result ≡ position (λ word. not (has_counter (facts self.now) (id_number id) (word_bytes word))) words.now }
        ensures within { IfSome result (λ place. place < length words.now) }
    {
        words.iter().position(|word| self.is_full(word, id))
    }

    /// Whether the word is at its last counter, and its pair with the identifier would be new.
    fn is_full(&self, word: &Word, id: DocId) -> bool
        ensures { result ≡ not (has_counter (facts self.now) (id_number id) (word_bytes word.now)) }
    {
        if self.most < u32::MAX {
            return false;
        }
        if self.counter(word) < u32::MAX {
            return false;
        }
        !self.is_listed(word, id)
    }
}
