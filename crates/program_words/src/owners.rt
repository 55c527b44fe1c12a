ghost use Rattle.std.specs.Prelude.{◌≡◌, ◌<◌, ◌^◌, IfOk, IfSome, length, map, option_map, string_bytes};
ghost use Rattle.std.specs.List.Sorted.{IsStrictlyIncreasing};
ghost use Rattle.program_words.specs.Owners as owners;

use crate::number::is_numeral;
use std::alloc::{AllocError, Global};

/// How many owners one server has at most.
const MAX_OWNERS: usize = 1024;

// Promise P249, also here; clauses: number
/// The number of an owner that a word writes, from 0 to 2^64-1: decimal, with no sign and no leading zero.
pub fn owner_of(word: &str) -> Option<u64>
    ensures number { result ≡ owners.owner_of word.now }
    ensures short { IfSome result (λ number. number < 2 ^ 64) }
{
    if !is_numeral(word.as_bytes()) {
        return None;
    }
    word.parse().ok()
}

// Promise P249 (caller): Words name owners exactly if they are one to 1,024 decimal numbers below 2^64, each above the one before it.
//   clauses: numbers, rising, some; assumes: enough memory; checks: .ci/tcp
/// The numbers of owners that the words write, from one to 1,024 of them, each above the one before it; none if the words aren't right.
///
/// `AllocError` if there is no memory for the numbers.
pub fn owners_of(alloc: Global, words: &[String]) -> Result<Option<Vec<u64>>, AllocError>
    ensures numbers { IfOk result (λ numbers. option_map (λ v. v.items) numbers ≡ owners.owners_of (map (λ word. string_bytes word) words.now)) }
    ensures rising { IfOk result (λ numbers. IfSome numbers (λ v. IsStrictlyIncreasing v.items)) }
    ensures some { IfOk result (λ numbers. IfSome numbers (λ v. 0 < length v.items)) }
{
    if words.is_empty() || words.len() > MAX_OWNERS {
        return Ok(None);
    }
    match numbers_of(alloc, words)? {
        Some(numbers) => {
            if rises(&numbers) {
                Ok(Some(numbers))
            } else {
                Ok(None)
            }
        }
        None => Ok(None),
    }
}

/// The numbers that all of the words write; none if one of them writes none.
fn numbers_of(alloc: Global, words: &[String]) -> Result<Option<Vec<u64>>, AllocError>
    ensures many { IfOk result (λ numbers. IfSome numbers (λ v. length v.items ≡ length words.now)) }
    ensures numbers { IfOk result (λ numbers. option_map (λ v. v.items) numbers ≡ owners.numbers_of (map (λ word. string_bytes word) words.now)) }
{
    let mut numbers = Vec::with_capacity(alloc, words.len())?;
    for word in words {
        match owner_of(word.as_str()) {
            Some(number) => numbers.push(number)?,
            None => return Ok(None),
        }
    }
    Ok(Some(numbers))
}

/// Whether each number is above the one before it.
fn rises(numbers: &[u64]) -> bool
    ensures { result ≡ owners.rises numbers.now }
{
    match numbers {
        [] => true,
        [first, more @ ..] => rises_above(*first, more),
    }
}

/// The same for the numbers after this one.
fn rises_above(first: u64, numbers: &[u64]) -> bool
    ensures { result ≡ owners.rises_above first numbers.now }
{
    let mut last = first;
    for number in numbers {
        if *number <= last {
            return false;
        }
        last = *number;
    }
    true
}
