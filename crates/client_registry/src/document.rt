ghost use Rattle.std.specs.Prelude.{◌≡◌, ◌≢◌, ◌<◌, ◌≤◌, None, length, map, vec_len, IfOk, IfSome, IsOkUnless};

use crate::doc_id::DocId;
use crate::faults::DocFault;
use crate::limits::MAX_WORDS;
use crate::word::Word;
use crate::word_mark::marks_differ;
use std::alloc::{AllocError, Global};
use std::collections::BTreeSet;
use std::marker::Model;

/// A document: an identifier, and at most 4,096 different words in the order in which they were given.
#[derive(Drop)]
pub struct Doc {
    id: DocId,
    words: Vec<Word>,
}

impl Model for Doc {
    ghost use Rattle.client_registry.specs.Document.{Document};
    ghost use Rattle.client_registry.specs.DocumentRule.{IsDocument};

    ghost Value = { Document };

    ghost use Rattle.client_registry.specs.DocView.{document_of};

    ghost view = { document_of };

    ghost invariant = { λ d. IsDocument (document_of d) };
}

impl Doc {
    ghost use Rattle.client_registry.specs.WordBytes.{word_bytes};
    ghost use Rattle.client_registry.specs.IdNumber.{id_number};
    ghost use Rattle.client_registry.specs.DocumentRule.{doc_refusal, IsDocument};

    // Promise P58, also here; clauses: ok, many, refused, accepted
    /// The document of this identifier with these words.
    ///
    /// Errors, the first that stands: `TooManyWords(n)` where there are n words, more than 4,096;
    /// `NoMemory` where there is no memory for the test of repeats; `RepeatedWord(position)` at the least
    /// position, from 0, whose word stands earlier. After an error the words are dropped.
    pub fn new(alloc: Global, id: DocId, words: Vec<Word>) -> Result<Doc, DocFault>
        ensures ok { IfOk result (λ doc. doc ≡ record { id = id_number id; words = map word_bytes words.items }) }
        ensures many { MAX_WORDS < vec_len words → result ≡ Err (DocFault.TooManyWords (vec_len words)) }
        ensures refused { result ≢ Err DocFault.NoMemory → IfSome (doc_refusal (map word_bytes words.items)) (λ fault. result ≡ Err fault) }
        ensures accepted { doc_refusal (map word_bytes words.items) ≡ None → IsOkUnless result DocFault.NoMemory }
    {
        if words.len() > MAX_WORDS {
            return Err(DocFault::TooManyWords(words.len() as u64));
        }
        match first_repeat(alloc, words.as_slice())? {
            Some(position) => Err(DocFault::RepeatedWord(position)),
            None => Ok(Doc { id, words }),
        }
    }

    /// The identifier.
    pub fn id(&self) -> DocId
        ensures { id_number result ≡ self.now.id }
    {
        self.id
    }

    /// The words, in the order in which they were given.
    pub fn words(&self) -> &[Word]
        ensures words { map word_bytes result.now ≡ self.now.words }
        ensures few { length self.now.words ≤ MAX_WORDS }
        ensures valid { IsDocument self.now }
    {
        self.words.as_slice()
    }

    /// The words alone, in the order in which they were given.
    pub(crate) fn into_words(self) -> Vec<Word>
        ensures words { map word_bytes result.items ≡ self.words }
        ensures few { vec_len result ≤ MAX_WORDS }
        ensures valid { IsDocument self }
    {
        let Doc { words, .. } = self;
        words
    }
}

ghost use Rattle.client_registry.specs.DocumentRule.{first_repeat as least_repeat};
ghost use Rattle.client_registry.specs.WordBytes.{word_bytes as bytes_of};

/// The least position whose word stands earlier: none where their marks differ.
fn first_repeat(alloc: Global, words: &[Word]) -> Result<Option<u32>, AllocError>
    requires { length words.now ≤ MAX_WORDS }
    ensures { IfOk result (λ position. position ≡ least_repeat (map bytes_of words.now)) }
{
    if marks_differ(alloc, words)? {
        return Ok(None);
    }
    first_in_set(alloc, words)
}

/// The same by the set of the words before it.
fn first_in_set(alloc: Global, words: &[Word]) -> Result<Option<u32>, AllocError>
    requires { length words.now ≤ MAX_WORDS }
    ensures { IfOk result (λ position. position ≡ least_repeat (map bytes_of words.now)) }
{
    let mut seen: BTreeSet<&[u8]> = BTreeSet::new(alloc);
    for (position, word) in words.iter().enumerate() {
        if !seen.insert(word.bytes())? {
            return Ok(Some(position as u32));
        }
    }
    Ok(None)
}
