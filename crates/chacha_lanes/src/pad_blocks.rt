ghost use Rattle.std.specs.Prelude.{◌≡◌, ℕ, ◌<◌, [], flat_map, slice_index, slice_index_or};
ghost use Rattle.std.specs.Int.{w32, to_le_bytes};
ghost use Rattle.rand_chacha.specs.Lanes.{lane};
ghost use Rattle.chacha_lanes.specs.Pads.{pad_block, pad_words};

use crate::rounds::{sums, twenty_rounds};
use crate::states::initial_states;
use std::simd::u32x8;

/// The words of this block of eight pads, each pad in its lane.
fn words(keys: &[[u8; 32]; 8], numbers: &[u64; 8], counter: u32) -> [u32x8; 16]
    ensures { (j : ℕ) → j < 8 → lane j result ≡ pad_words (slice_index_or keys.now j []) (slice_index numbers.now j) counter }
{
    let first = initial_states(keys, numbers, counter);
    let last = twenty_rounds(first);
    sums(&last, &first)
}

/// The bytes of the words in a lane, each low byte first.
fn bytes_in(words: &[u32x8; 16], j: usize) -> [u8; 64]
    requires { j < 8 }
    ensures { result ≡ flat_map (to_le_bytes w32) (lane j words.now) }
{
    let mut bytes = [0u8; 64];
    for k in 0..16 {
        let word = words[k].to_array()[j];
        bytes[4 * k..4 * k + 4].copy_from_slice(&word.to_le_bytes());
    }
    bytes
}

// Promise P319 (caller): Eight blocks that are computed side by side are those of the pads of each lane's number under its key.
//   clauses: ensures; assumes: sizes in bounds; not: How long it takes, and that pads look random, which is assumed.
/// Block `counter` of eight pads, each under the key and of the number in its lane: 64 bytes of the pad, from byte
/// `64 * counter` on.
pub fn blocks(keys: &[[u8; 32]; 8], numbers: &[u64; 8], counter: u32) -> [[u8; 64]; 8]
    ensures { (j : ℕ) → j < 8 → slice_index_or result j [] ≡ pad_block (slice_index_or keys.now j []) (slice_index numbers.now j) counter }
{
    let words = words(keys, numbers, counter);
    [
        bytes_in(&words, 0),
        bytes_in(&words, 1),
        bytes_in(&words, 2),
        bytes_in(&words, 3),
        bytes_in(&words, 4),
        bytes_in(&words, 5),
        bytes_in(&words, 6),
        bytes_in(&words, 7),
    ]
}
