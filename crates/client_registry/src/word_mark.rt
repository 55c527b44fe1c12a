ghost use Rattle.std.specs.Prelude.{◌≡◌, ◌≤◌, IfOk, length, map, nat_eq, None, true};
ghost use Rattle.std.specs.List.{IsDistinct};
ghost use Rattle.std.specs.List.Sorted.{IsStrictlyIncreasing};
ghost use Rattle.client_registry.specs.DocumentRule.{first_repeat};
ghost use Rattle.client_registry.specs.WordBytes.{word_bytes};
ghost use Rattle.client_registry.specs.WordMark.{word_mark};

use crate::limits::MAX_WORDS;
use crate::word::Word;
use arrayvec::ArrayVec;
use std::alloc::{AllocError, Global};

/// The most words whose marks are kept without memory.
const MAX_FEW: usize = 64;

/// Whether the marks of these words differ, so that the words do. Words that differ may have equal marks: whoever
/// writes a document can choose them so.
pub(crate) fn marks_differ(alloc: Global, words: &[Word]) -> Result<bool, AllocError>
    requires { length words.now ≤ MAX_WORDS }
    ensures { IfOk result (λ differ. differ ≡ true → first_repeat (map word_bytes words.now) ≡ None) }
{
    if words.len() <= MAX_FEW {
        return Ok(few_marks_differ(words));
    }
    let mut marks = Vec::with_capacity(alloc, words.len())?;
    for word in words {
        marks.push_reserved(mark(word.bytes()));
    }
    Ok(differ(&mut marks))
}

/// The same of few words. It takes no memory.
fn few_marks_differ(words: &[Word]) -> bool
    requires { length words.now ≤ MAX_FEW }
    ensures { result ≡ true → first_repeat (map word_bytes words.now) ≡ None }
{
    let mut marks: ArrayVec<u64, MAX_FEW> = ArrayVec::new();
    for word in words {
        marks.push(mark(word.bytes()));
    }
    differ(marks.as_mut_slice())
}

/// The mark of these bytes.
fn mark(bytes: &[u8]) -> u64
    ensures { result ≡ word_mark bytes.now }
{
    let mut mark = 0u64;
    for byte in bytes {
        mark = mark
            .wrapping_mul(0x9e37_79b9_7f4a_7c15)
            .wrapping_add(u64::from(*byte));
    }
    mark
}

/// Whether no two of these numbers are equal. They are sorted.
fn differ(numbers: &mut [u64]) -> bool
    ensures { result ≡ true → IsDistinct nat_eq numbers.old }
{
    numbers.sort_unstable();
    rise(numbers)
}

/// Whether each number is less than the next.
fn rise(numbers: &[u64]) -> bool
    ensures { result ≡ true → IsStrictlyIncreasing numbers.now }
{
    for place in 1..numbers.len() {
        if numbers[place] <= numbers[place - 1] {
            return false;
        }
    }
    true
}
