ghost use Rattle.std.specs.Prelude.{◌≡◌, ◌<◌, ◌++◌, ◌∷◌, [], IfOk, None, OnOk, Some, length, map, slice_get};
ghost use Rattle.client_registry.specs.DocumentRule.{doc_refusal};
ghost use Rattle.client_registry.specs.Documents.{docs_refusal};
ghost use Rattle.client_registry.specs.HashNumbers.{hash_numbers};
ghost use Rattle.client_registry.specs.IdNumber.{id_number};
ghost use Rattle.client_registry.specs.WordBytes.{word_bytes};

use client_registry::{Doc, DocFault, DocId, Docs, DocsFault, HashKeys, Word};
use std::alloc::{AllocError, Global};

// Promise P76, also here; clauses: ensures
/// The same document again.
pub fn copy_doc(alloc: Global, doc: &Doc) -> Result<Doc, AllocError>
    ensures { IfOk result (λ copy. copy ≡ doc.now) }
{
    let mut words = Vec::new(alloc);
    words.extend_from_slice(doc.words())?;
    document_of(alloc, doc.id(), words)
}

// Promise P76, also here; clauses: documents
/// The same documents again, hashed under these keys.
pub fn copy_docs(alloc: Global, docs: &Docs, keys: HashKeys) -> Result<Docs, AllocError>
    ensures documents { IfOk result (λ copy. copy.documents ≡ docs.now.documents) }
    ensures keys { IfOk result (λ copy. copy.keys ≡ hash_numbers keys) }
{
    let mut copy = Docs::new(alloc, keys);
    for i in 0..docs.len() {
        push_known(&mut copy, document_at(alloc, docs, i)?)?;
    }
    Ok(copy)
}

/// The document at this place, from 0.
fn document_at(alloc: Global, docs: &Docs, i: usize) -> Result<Doc, AllocError>
    requires { i < length docs.now.documents }
    ensures { IfOk result (λ doc. slice_get docs.now.documents i ≡ Some doc) }
{
    let kept = docs.get(i);
    let mut words = Vec::new(alloc);
    for number in kept.numbers {
        words.push(*docs.word(*number as usize))?;
    }
    document_of(alloc, kept.id, words)
}

/// The document of this identifier with these words, which are those of a document.
pub(crate) fn document_of(alloc: Global, id: DocId, words: Vec<Word>) -> Result<Doc, AllocError>
    requires { doc_refusal (map word_bytes words.items) ≡ None }
    ensures { IfOk result (λ doc. doc ≡ record { id = id_number id; words = map word_bytes words.items }) }
{
    match Doc::new(alloc, id, words) {
        Ok(doc) => Ok(doc),
        Err(DocFault::NoMemory) => Err(AllocError),
        Err(_) => unreachable!(),
    }
}

/// Adds a document that nothing refuses.
pub(crate) fn push_known(docs: &mut Docs, doc: Doc) -> Result<(), AllocError>
    requires { docs_refusal docs.old.documents doc ≡ None }
    ensures added { OnOk result (docs.new.documents ≡ docs.old.documents ++ doc ∷ []) }
    ensures keys { docs.new.keys ≡ docs.old.keys }
{
    match docs.push(doc) {
        Ok(()) => Ok(()),
        Err(DocsFault::NoMemory) => Err(AllocError),
        Err(_) => unreachable!(),
    }
}
