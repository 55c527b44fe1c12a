ghost use Rattle.std.specs.Prelude.{◌≡◌, ◌+◌, ◌<◌, ◌≤◌, ◌^◌, [], All, fold, length, map, Some, slice_get, vec_capacity, vec_len};
ghost use Rattle.indexmap.specs.IndexMap.{hasher_of, spare};
ghost use Rattle.client_registry.specs.Numbered.{words_by_number};
ghost use Rattle.client_registry.specs.Tally.{counted_up, counts_of};
ghost use Rattle.client_registry.specs.WordBytes.{word_bytes};
ghost use Rattle.client_registry.specs.WordTable.{table_words};

use crate::word::Word;
use crate::word_table::Words;

/// The number of a word, for which one document more is counted. A new word goes last.
fn count_up(words: &mut Words, word: Word) -> u32
    requires room { 0 < spare words.old }
    requires few { length words.old.entries < 2 ^ 32 }
    requires small { All (λ e. e.1 + 1 < 2 ^ 32) (counts_of words.old.entries) }
    ensures counted { counts_of words.new.entries ≡ counted_up (counts_of words.old.entries) (word_bytes word) }
    ensures number { slice_get (table_words words.new.entries) result ≡ Some (word_bytes word) }
    ensures spare { spare words.old ≤ spare words.new + 1 }
    ensures hasher { hasher_of words.new ≡ hasher_of words.old }
{
    let (place, counted) = words.insert_full(word, 1).unwrap();
    if let Some(count) = counted {
        words[place] = count + 1;
    }
    place as u32
}

/// Appends the numbers of these words, for each of which one document more is counted.
pub(crate) fn count_all(words: &mut Words, of: Vec<Word>, numbers: &mut Vec<u32>)
    requires room { vec_len of ≤ spare words.old }
    requires few { length words.old.entries + vec_len of < 2 ^ 32 }
    requires small { All (λ e. e.1 + vec_len of < 2 ^ 32) (counts_of words.old.entries) }
    requires empty { numbers.old.items ≡ [] }
    requires capacity { vec_len of ≤ vec_capacity numbers.old }
    ensures counted { counts_of words.new.entries ≡ fold counted_up (counts_of words.old.entries) (map word_bytes of.items) }
    ensures numbers { words_by_number (table_words words.new.entries) numbers.new.items ≡ map word_bytes of.items }
    ensures within { All (λ n. n < length words.new.entries) numbers.new.items }
    ensures hasher { hasher_of words.new ≡ hasher_of words.old }
{
    for word in of {
        numbers.push_reserved(count_up(words, word));
    }
}
