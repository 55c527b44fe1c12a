ghost use Rattle.std.specs.Prelude.{◌≡◌, ◌+◌, ◌-◌, ◌<◌, ◌≤◌, ◌^◌, ◌&&◌, [], All, ℕ, Some, bytes_eq, false, if◌then◌else◌, IfOk, IsOk, length, map, nat_eq, not, OnOk, slice_get, slice_index, true};
ghost use Rattle.indexmap.specs.IndexMap.{hasher_of};
ghost use Rattle.std.specs.List.{list_any, IsDistinct};
ghost use Rattle.std.specs.List.Sorted.{IsNonDecreasing};
ghost use Rattle.std.specs.Map.{values_of};
ghost use Rattle.client_registry.specs.Numbered.{words_by_number};
ghost use Rattle.client_registry.specs.Tally.{counts_of};
ghost use Rattle.client_registry.specs.WordBytes.{word_bytes};
ghost use Rattle.client_registry.specs.WordTable.{table_words, GivesNumbers};

use crate::hash_keys::HashKeys;
use crate::listed::is_among;
use crate::word::Word;
use arrayvec::ArrayVec;
use indexmap::IndexMap;
use std::alloc::AllocError;

/// The word table: each word once, at the place that is its number, with a count: how many documents
/// hold it, at a setup, and after it its counter.
pub(crate) type Words = IndexMap<Word, u32, HashKeys>;

/// Sets all counts to 0.
pub(crate) fn clear_counts(words: &mut Words)
    ensures words { table_words words.new.entries ≡ table_words words.old.entries }
    ensures counts { All (λ e. e.1 ≡ 0) words.new.entries }
    ensures hasher { hasher_of words.new ≡ hasher_of words.old }
{
    for number in 0..words.len() {
        words[number] = 0;
    }
}

/// Gives each of these words a number, where it has none, and appends the numbers of all: new words go last, with the
/// count 0. Error: `NoMemory` where there is no memory for them, or no number of 32 bits; some of them may have a number
/// then.
pub(crate) fn number_all<const N: usize>(
    words: &mut Words,
    of: &[Word],
    numbers: &mut ArrayVec<u32, N>,
) -> Result<(), AllocError>
    requires few { length words.old.entries < 2 ^ 32 }
    requires most { length of.now ≤ N }
    requires small { N ≤ 4096 }
    requires empty { numbers.old.items ≡ [] }
    ensures few { length words.new.entries < 2 ^ 32 }
    ensures more { GivesNumbers (counts_of words.old.entries) (counts_of words.new.entries) }
    ensures differ { IsDistinct bytes_eq (table_words words.old.entries) → IsDistinct bytes_eq (table_words words.new.entries) }
    ensures hasher { hasher_of words.new ≡ hasher_of words.old }
    ensures numbered { OnOk result (All (λ word. list_any (bytes_eq word) (table_words words.new.entries) ≡ true) (map word_bytes of.now)) }
    ensures numbers { OnOk result (words_by_number (table_words words.new.entries) numbers.new.items ≡ map word_bytes of.now) }
    ensures within { OnOk result (All (λ n. n < length words.new.entries) numbers.new.items) }
    ensures succeeds { All (λ word. list_any (bytes_eq word) (table_words words.old.entries) ≡ true) (map word_bytes of.now) → IsOk result }
{
    for word in of {
        numbers.push(number(words, word)?);
    }
    Ok(())
}

/// The number of the word: its own, else the next one, which it is given with the count 0.
fn number(words: &mut Words, word: &Word) -> Result<u32, AllocError>
    requires few { length words.old.entries < 2 ^ 32 }
    ensures few { length words.new.entries < 2 ^ 32 }
    ensures more { GivesNumbers (counts_of words.old.entries) (counts_of words.new.entries) }
    ensures differ { IsDistinct bytes_eq (table_words words.old.entries) → IsDistinct bytes_eq (table_words words.new.entries) }
    ensures hasher { hasher_of words.new ≡ hasher_of words.old }
    ensures numbered { OnOk result (list_any (bytes_eq (word_bytes word.now)) (table_words words.new.entries) ≡ true) }
    ensures number { IfOk result (λ n. slice_get (table_words words.new.entries) n ≡ Some (word_bytes word.now)) }
    ensures succeeds { list_any (bytes_eq (word_bytes word.now)) (table_words words.old.entries) ≡ true → IsOk result }
{
    if let Some(number) = words.get_index_of(word) {
        return Ok(number as u32);
    }
    let next = words.len();
    if next == u32::MAX as usize {
        return Err(AllocError);
    }
    words.insert(*word, 0)?;
    Ok(next as u32)
}

/// Counts one up for each of these numbers that isn't listed. The listed numbers rise.
pub(crate) fn count_new(words: &mut Words, numbers: &[u32], listed: &[u32])
    requires within { All (λ n. n < length words.old.entries) numbers.now }
    requires differ { IsDistinct nat_eq numbers.now }
    requires in_order { IsNonDecreasing listed.now }
    requires counters { All (λ n. list_any (nat_eq n) listed.now ≡ false → slice_index (values_of words.old.entries) n < 2 ^ 32 - 1) numbers.now }
    ensures words { table_words words.new.entries ≡ table_words words.old.entries }
    ensures counts { (n : ℕ) → slice_index (values_of words.new.entries) n ≡ slice_index (values_of words.old.entries) n + (if list_any (nat_eq n) numbers.now && not (list_any (nat_eq n) listed.now) then 1 else 0) }
    ensures hasher { hasher_of words.new ≡ hasher_of words.old }
{
    for number in numbers {
        if !is_among(listed, *number) {
            let count = &mut words[*number as usize];
            *count += 1;
        }
    }
}
