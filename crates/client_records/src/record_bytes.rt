ghost use Rattle.std.specs.Prelude.{◌≡◌, ◌+◌, ◌<◌, ◌≤◌, ◌++◌, All, length, map, vec_capacity, vec_len};
ghost use Rattle.std.specs.Int.{w16, w64, to_be_bytes};
ghost use Rattle.std.specs.List.{flat_map};
ghost use Rattle.client_registry.specs.Documents.{words_of};
ghost use Rattle.client_registry.specs.IdNumber.{id_number};
ghost use Rattle.client_registry.specs.Numbered.{document_by, words_by_number};
ghost use Rattle.client_registry.specs.WordBytes.{word_bytes};
ghost use Rattle.client_records.specs.Records.{word_field, document_field, documents_field};

use client_registry::{DocId, Docs, MAX_WORDS, Numbered, Word};

/// Appends the bytes, for which there is room.
pub(crate) fn put(out: &mut Vec<u8>, bytes: &[u8])
    requires { vec_len out.old + length bytes.now ≤ vec_capacity out.old }
    ensures items { out.new.items ≡ out.old.items ++ bytes.now }
    ensures len { vec_len out.new ≡ vec_len out.old + length bytes.now }
    ensures room { vec_capacity out.old ≤ vec_capacity out.new }
{
    out.extend_from_slice(bytes).unwrap();
}

/// Appends what stands before the words of a document, where there is room: its identifier, and how many they are.
pub(crate) fn put_head(out: &mut Vec<u8>, id: DocId, words: u16)
    requires { vec_len out.old + 10 ≤ vec_capacity out.old }
    ensures items { out.new.items ≡ out.old.items ++ (to_be_bytes w64 (id_number id) ++ to_be_bytes w16 words) }
    ensures len { vec_len out.new ≡ vec_len out.old + 10 }
    ensures room { vec_capacity out.old ≤ vec_capacity out.new }
{
    put(out, &id.get().to_be_bytes());
    put(out, &words.to_be_bytes());
}

/// Appends a word, for which there is room.
fn put_word(out: &mut Vec<u8>, word: &Word)
    requires { vec_len out.old + length (word_field (word_bytes word.now)) ≤ vec_capacity out.old }
    ensures items { out.new.items ≡ out.old.items ++ word_field (word_bytes word.now) }
    ensures len { vec_len out.new ≡ vec_len out.old + length (word_field (word_bytes word.now)) }
    ensures room { vec_capacity out.old ≤ vec_capacity out.new }
{
    let bytes = word.bytes();
    put(out, &[bytes.len() as u8]);
    put(out, bytes);
}

/// Appends words, for which there is room.
pub(crate) fn put_words(out: &mut Vec<u8>, words: &[Word])
    requires { vec_len out.old + length (flat_map word_field (map word_bytes words.now)) ≤ vec_capacity out.old }
    ensures items { out.new.items ≡ out.old.items ++ flat_map word_field (map word_bytes words.now) }
    ensures room { vec_capacity out.old ≤ vec_capacity out.new }
{
    for word in words {
        put_word(out, word);
    }
}

/// Appends the words of these numbers, for which there is room.
fn put_numbered(out: &mut Vec<u8>, docs: &Docs, numbers: &[u32])
    requires within { All (λ n. n < length (words_of docs.now.documents)) numbers.now }
    requires room { vec_len out.old + length (flat_map word_field (words_by_number (words_of docs.now.documents) numbers.now)) ≤ vec_capacity out.old }
    ensures items { out.new.items ≡ out.old.items ++ flat_map word_field (words_by_number (words_of docs.now.documents) numbers.now) }
    ensures len { vec_len out.new ≡ vec_len out.old + length (flat_map word_field (words_by_number (words_of docs.now.documents) numbers.now)) }
    ensures room { vec_capacity out.old ≤ vec_capacity out.new }
{
    for number in numbers {
        put_word(out, docs.word(*number as usize));
    }
}

/// Appends a document, for which there is room.
fn put_document(out: &mut Vec<u8>, docs: &Docs, doc: Numbered<'_>)
    requires few { length doc.numbers.now ≤ MAX_WORDS }
    requires within { All (λ n. n < length (words_of docs.now.documents)) doc.numbers.now }
    requires room { vec_len out.old + length (document_field (document_by (words_of docs.now.documents) doc)) ≤ vec_capacity out.old }
    ensures items { out.new.items ≡ out.old.items ++ document_field (document_by (words_of docs.now.documents) doc.entry) }
    ensures len { vec_len out.new ≡ vec_len out.old + length (document_field (document_by (words_of docs.now.documents) doc.entry)) }
    ensures room { vec_capacity out.old ≤ vec_capacity out.new }
{
    put_head(out, doc.id, doc.numbers.len() as u16);
    put_numbered(out, docs, doc.numbers);
}

/// Appends the documents of a setup, for which there is room.
pub(crate) fn put_documents(out: &mut Vec<u8>, docs: &Docs)
    requires { vec_len out.old + length (documents_field docs.now.documents) ≤ vec_capacity out.old }
    ensures { out.new.items ≡ out.old.items ++ documents_field docs.now.documents }
{
    let count = docs.len() as u32;
    put(out, &count.to_be_bytes());
    for i in 0..docs.len() {
        put_document(out, docs, docs.get(i));
    }
}
