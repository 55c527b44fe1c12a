ghost use Rattle.std.specs.Prelude.{◌≡◌, ◌≢◌, ◌≤◌, [], ◌∷◌, ◌++◌, None, map, vec_capacity, IfErr, IfOk, OnErr, OnOk};
ghost use Rattle.std.specs.List.{flat_map};
ghost use Rattle.client_registry.specs.DocumentRule.{doc_refusal, IsDocument};
ghost use Rattle.client_registry.specs.Documents.{docs_refusal, IsCollected};
ghost use Rattle.client_registry.specs.HashNumbers.{hash_numbers};
ghost use Rattle.client_registry.specs.IdNumber.{id_number};
ghost use Rattle.client_registry.specs.WordBytes.{word_bytes};
ghost use Rattle.client_records.specs.Records.{word_field, document_field, documents_field};
ghost use Rattle.client_records.specs.ReaderFaults.{IsWord, AreDocuments, AreWords, IsNotInFront, IsNotWhole};
ghost use Rattle.client_records.specs.TakenMemory.{BeginsCounted, BeginsDocument, BeginsDocuments};

use crate::fault::ReadFault;
use crate::unread::Unread;
use client_registry::{Doc, DocId, Docs, HashKeys, Word};
use std::alloc::Global;

/// The word in front.
fn read_word(unread: &mut Unread<'_>) -> Result<Word, ReadFault>
    ensures read { IfOk result (λ word. unread.old ≡ word_field (word_bytes word) ++ unread.new) }
    ensures word { IfOk result (λ word. IsWord (word_bytes word)) }
    ensures none { OnErr result (IsNotInFront word_field IsWord unread.old) }
    ensures cause { IfErr result (λ e. e ≡ ReadFault.BadRecord) }
{
    let len = unread.read_u8()?;
    let bytes = unread.read_bytes(len as usize)?;
    Ok(Word::read(bytes)?)
}

/// So many words in front, put into a vector that has room for them.
fn read_words(
    room: Vec<Word>,
    unread: &mut Unread<'_>,
    count: usize,
) -> Result<Vec<Word>, ReadFault>
    requires empty { room.items ≡ [] }
    requires room { count ≤ vec_capacity room }
    ensures read { IfOk result (λ words. unread.old ≡ flat_map word_field (map word_bytes words.items) ++ unread.new) }
    ensures words { IfOk result (λ words. AreWords count (map word_bytes words.items)) }
    ensures none { result ≡ Err ReadFault.BadRecord → IsNotInFront (flat_map word_field) (AreWords count) unread.old }
    ensures cause { IfErr result (λ e. e ≡ ReadFault.BadRecord) }
{
    let mut words = room;
    for _ in 0..count {
        words.push_reserved(read_word(unread)?);
    }
    Ok(words)
}

/// The document in front. Memory is taken once its identifier and its number of words are read, and then for all words.
fn read_document(alloc: Global, unread: &mut Unread<'_>) -> Result<Doc, ReadFault>
    ensures read { IfOk result (λ doc. unread.old ≡ document_field doc ++ unread.new) }
    ensures valid { IfOk result (λ doc. IsDocument doc) }
    ensures none { result ≡ Err ReadFault.BadRecord → IsNotInFront document_field IsDocument unread.old }
    ensures memory { result ≡ Err ReadFault.NoMemory → BeginsDocument unread.old }
{
    let number = unread.read_u64()?;
    let id = DocId::new(number)?;
    let count = unread.read_u16()?;
    let room = Vec::with_capacity(alloc, count as usize)?;
    let words = read_words(room, unread, count as usize)?;
    let doc = document_of(alloc, id, words)?;
    Ok(doc)
}

/// The document of this identifier with these words. `BadRecord` comes only where they make none.
fn document_of(alloc: Global, id: DocId, words: Vec<Word>) -> Result<Doc, ReadFault>
    ensures ok { IfOk result (λ doc. doc ≡ record { id = id_number id; words = map word_bytes words.items }) }
    ensures valid { IfOk result (λ doc. IsDocument doc) }
    ensures refused { result ≡ Err ReadFault.BadRecord → doc_refusal (map word_bytes words.items) ≢ None }
{
    Ok(Doc::new(alloc, id, words)?)
}

/// The one document that all of the bytes are.
pub(crate) fn read_whole_document(alloc: Global, mut unread: Unread<'_>) -> Result<Doc, ReadFault>
    ensures read { IfOk result (λ doc. unread.entry ≡ document_field doc) }
    ensures valid { IfOk result (λ doc. IsDocument doc) }
    ensures none { result ≡ Err ReadFault.BadRecord → IsNotWhole document_field IsDocument unread.entry }
    ensures memory { result ≡ Err ReadFault.NoMemory → BeginsDocument unread.entry }
{
    let doc = read_document(alloc, &mut unread)?;
    unread.read_end()?;
    Ok(doc)
}

/// So many documents in front, to be hashed under these keys.
fn read_documents(
    alloc: Global,
    keys: HashKeys,
    unread: &mut Unread<'_>,
    count: u32,
) -> Result<Docs, ReadFault>
    ensures read { IfOk result (λ docs. unread.old ≡ flat_map document_field docs.documents ++ unread.new) }
    ensures documents { IfOk result (λ docs. AreDocuments count docs.documents) }
    ensures keys { IfOk result (λ docs. docs.keys ≡ hash_numbers keys) }
    ensures none { result ≡ Err ReadFault.BadRecord → IsNotInFront (flat_map document_field) (AreDocuments count) unread.old }
    ensures memory { result ≡ Err ReadFault.NoMemory → BeginsDocuments count unread.old }
{
    let mut docs = Docs::new(alloc, keys);
    while docs.len() < count as usize {
        let doc = read_document(alloc, unread)?;
        collect(&mut docs, doc)?;
    }
    Ok(docs)
}

/// Adds the document to those of a setup. `BadRecord` comes exactly where it is refused, which is found before memory is taken.
fn collect(docs: &mut Docs, doc: Doc) -> Result<(), ReadFault>
    ensures ok { OnOk result (docs.new.documents ≡ docs.old.documents ++ doc ∷ []) }
    ensures keys { docs.new.keys ≡ docs.old.keys }
    ensures refused { result ≡ Err ReadFault.BadRecord → docs_refusal docs.old.documents doc ≢ None }
    ensures memory { result ≡ Err ReadFault.NoMemory → docs_refusal docs.old.documents doc ≡ None }
{
    docs.push(doc)?;
    Ok(())
}

/// The documents that all of the bytes are, after their count, to be hashed under these keys.
pub(crate) fn read_whole_documents(
    alloc: Global,
    keys: HashKeys,
    mut unread: Unread<'_>,
) -> Result<Docs, ReadFault>
    ensures read { IfOk result (λ docs. unread.entry ≡ documents_field docs.documents) }
    ensures valid { IfOk result (λ docs. IsCollected docs.documents) }
    ensures keys { IfOk result (λ docs. docs.keys ≡ hash_numbers keys) }
    ensures none { result ≡ Err ReadFault.BadRecord → IsNotWhole documents_field IsCollected unread.entry }
    ensures memory { result ≡ Err ReadFault.NoMemory → BeginsCounted unread.entry }
{
    let count = unread.read_u32()?;
    let docs = read_documents(alloc, keys, &mut unread, count)?;
    unread.read_end()?;
    Ok(docs)
}
