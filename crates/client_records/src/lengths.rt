ghost use Rattle.std.specs.Prelude.{◌≡◌, ◌+◌, ◌*◌, ◌^◌, ◌<◌, ◌≤◌, All, length, map};
ghost use Rattle.std.specs.List.{flat_map};
ghost use Rattle.client_registry.specs.Documents.{words_of, IsCollected};
ghost use Rattle.client_registry.specs.Numbered.{words_by_number};
ghost use Rattle.client_registry.specs.WordBytes.{word_bytes};
ghost use Rattle.client_records.specs.Records.{word_field, documents_field};

use client_registry::{Docs, MAX_WORDS, Word};

/// How many bytes the words of a document take.
pub(crate) fn words_len(words: &[Word]) -> usize
    requires { length words.now ≤ MAX_WORDS }
    ensures len { result ≡ length (flat_map word_field (map word_bytes words.now)) }
    ensures most { result ≤ 65 * length words.now }
{
    let mut len = 0;
    for word in words {
        len += 1 + word.bytes().len();
    }
    len
}

/// How many bytes the words of these numbers take, which are a document's.
fn numbered_len(docs: &Docs, numbers: &[u32]) -> usize
    requires few { length numbers.now ≤ MAX_WORDS }
    requires within { All (λ n. n < length (words_of docs.now.documents)) numbers.now }
    ensures len { result ≡ length (flat_map word_field (words_by_number (words_of docs.now.documents) numbers.now)) }
    ensures most { result ≤ 65 * length numbers.now }
{
    let mut len = 0;
    for number in numbers {
        len += 1 + docs.word(*number as usize).bytes().len();
    }
    len
}

/// How many bytes the documents of a setup take.
pub(crate) fn documents_len(docs: &Docs) -> usize
    ensures len { result ≡ length (documents_field docs.now.documents) }
    ensures small { result ≤ 2 ^ 40 }
    ensures valid { IsCollected docs.now.documents }
{
    let mut len = 4;
    for i in 0..docs.len() {
        len += 10 + numbered_len(docs, docs.get(i).numbers);
    }
    len
}
