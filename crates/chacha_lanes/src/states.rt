//! The states that eight blocks start from (RFC 8439, 2.3).

ghost use Rattle.std.specs.Prelude.{◌≡◌, ℕ, ◌/◌, ◌%◌, ◌^◌, ◌<◌, [], slice_index, slice_index_or};
ghost use Rattle.rand_core.specs.Steps.{u32_at};
ghost use Rattle.rand_chacha.specs.Block.{initial_state};
ghost use Rattle.rand_chacha.specs.ChaCha.{key_of};
ghost use Rattle.rand_chacha.specs.Lanes.{lane};

use rand_core::utils::read_u32;
use std::simd::u32x8;

/// The word in each lane.
#[inline(always)]
fn same(word: u32) -> u32x8
    ensures { (j : ℕ) → j < 8 → slice_index result j ≡ word }
{
    u32x8::splat(word)
}

/// Word `k` of eight keys.
fn key_words(keys: &[[u8; 32]; 8], k: usize) -> u32x8
    requires { k < 8 }
    ensures { (j : ℕ) → j < 8 → slice_index result j ≡ u32_at (slice_index_or keys.now j []) k }
{
    u32x8::from_array([
        read_u32(&keys[0], k),
        read_u32(&keys[1], k),
        read_u32(&keys[2], k),
        read_u32(&keys[3], k),
        read_u32(&keys[4], k),
        read_u32(&keys[5], k),
        read_u32(&keys[6], k),
        read_u32(&keys[7], k),
    ])
}

#[inline(always)]
fn low(n: u64) -> u32
    ensures { result ≡ n % 2 ^ 32 }
{
    (n & 0xffff_ffff) as u32
}

#[inline(always)]
fn high(n: u64) -> u32
    ensures { result ≡ n / 2 ^ 32 }
{
    (n >> 32) as u32
}

/// The low words of eight numbers.
fn low_words(numbers: &[u64; 8]) -> u32x8
    ensures { (j : ℕ) → j < 8 → slice_index result j ≡ slice_index numbers.now j % 2 ^ 32 }
{
    u32x8::from_array([
        low(numbers[0]),
        low(numbers[1]),
        low(numbers[2]),
        low(numbers[3]),
        low(numbers[4]),
        low(numbers[5]),
        low(numbers[6]),
        low(numbers[7]),
    ])
}

/// Their high words.
fn high_words(numbers: &[u64; 8]) -> u32x8
    ensures { (j : ℕ) → j < 8 → slice_index result j ≡ slice_index numbers.now j / 2 ^ 32 }
{
    u32x8::from_array([
        high(numbers[0]),
        high(numbers[1]),
        high(numbers[2]),
        high(numbers[3]),
        high(numbers[4]),
        high(numbers[5]),
        high(numbers[6]),
        high(numbers[7]),
    ])
}

/// The constants, a key, the counter and a nonce, in each lane. The nonce of a number is a word of zeros, the number's low
/// word and its high one.
pub(crate) fn initial_states(keys: &[[u8; 32]; 8], numbers: &[u64; 8], counter: u32) -> [u32x8; 16]
    ensures { (j : ℕ) → j < 8 → lane j result ≡ initial_state (key_of (slice_index_or keys.now j [])) counter (slice_index numbers.now j) }
{
    [
        same(0x6170_7865),
        same(0x3320_646e),
        same(0x7962_2d32),
        same(0x6b20_6574),
        key_words(keys, 0),
        key_words(keys, 1),
        key_words(keys, 2),
        key_words(keys, 3),
        key_words(keys, 4),
        key_words(keys, 5),
        key_words(keys, 6),
        key_words(keys, 7),
        same(counter),
        same(0),
        low_words(numbers),
        high_words(numbers),
    ]
}
