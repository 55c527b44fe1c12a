ghost use Rattle.std.specs.Prelude.{◌≡◌, ◌+◌, ◌<◌, ◌≤◌, ◌^◌, length, take, flat_map, sum, IfOk};
ghost use Rattle.client_registry.specs.Documents.{ids_with, list_lengths, words_of, IsCollected};
ghost use Rattle.index_setup.specs.Lists.{lists_among, starts_from, HoldsLists};

use client_registry::Docs;
use std::alloc::{AllocError, Global};

/// For each word, by word number, the identifiers of the documents with that word, in the documents' order: one list
/// after the other. How long each is the documents know, so one pass over them fills all.
pub fn lists_of(alloc: Global, docs: &Docs) -> Result<Vec<u64>, AllocError>
    ensures valid { IfOk result (λ _. IsCollected docs.now.documents) }
    ensures lists { IfOk result (λ ids. ids.items ≡ flat_map (ids_with docs.now.documents) (words_of docs.now.documents)) }
{
    let mut next = starts_of(alloc, docs)?;
    let mut ids = vec![in alloc; 0u64; total_of(docs)]?;
    for i in 0..docs.len() {
        add_document(docs, i, &mut ids, &mut next);
    }
    Ok(ids)
}

/// How many identifiers all lists have.
fn total_of(docs: &Docs) -> usize
    ensures total { result ≡ sum (list_lengths docs.now.documents) }
    ensures most { result ≤ 2 ^ 20 }
{
    let mut sum = 0;
    for w in 0..docs.words() {
        sum += docs.list_len(w) as usize;
    }
    sum
}

/// Where the list of each word begins.
fn starts_of(alloc: Global, docs: &Docs) -> Result<Vec<u32>, AllocError>
    ensures { IfOk result (λ starts. starts.items ≡ starts_from 0 (list_lengths docs.now.documents)) }
{
    let mut starts = Vec::with_capacity(alloc, docs.words())?;
    let mut start = 0;
    for w in 0..docs.words() {
        starts.push(start)?;
        start += docs.list_len(w);
    }
    Ok(starts)
}

/// Puts the identifier of document `i` into the list of each of its words, after those of the documents before it.
/// `next` has for each word where the next identifier goes.
fn add_document(docs: &Docs, i: usize, ids: &mut [u64], next: &mut [u32])
    requires within { i < length docs.now.documents }
    requires most { length ids.old ≤ 2 ^ 20 }
    requires before { HoldsLists (list_lengths docs.now.documents) (lists_among docs.now.documents (take i docs.now.documents)) ids.old next.old }
    ensures { HoldsLists (list_lengths docs.now.documents) (lists_among docs.now.documents (take (i + 1) docs.now.documents)) ids.new next.new }
{
    let doc = docs.get(i);
    let id = doc.id.get();
    for number in doc.numbers {
        let word = *number as usize;
        let at = next[word];
        ids[at as usize] = id;
        next[word] = at + 1;
    }
}
