ghost use Rattle.std.specs.Prelude.{◌≡◌, ℕ, ◌<◌, ◌≤◌, [], length, slice_index, slice_index_or};
ghost use Rattle.chacha_stream.specs.Pad.{chacha_pad};
ghost use Rattle.chacha_stream.specs.Xored.{xored};

use crate::pad_blocks::blocks;
use chacha_stream::xor;

/// XORs the front of a block into a text.
fn xor_front<const N: usize>(text: &mut [u8; N], block: &[u8; 64])
    requires { N ≤ 64 }
    ensures text { text.new ≡ xored text.old block.now }
    ensures length { length text.old ≡ N }
{
    xor(text, block);
}

// Promise P319, also here; clauses: ensures
/// XORs eight pads of at most a block into eight texts of one length, which encrypts them, or decrypts what it encrypted:
/// each text under the key in its lane, with the pad of its number.
pub fn xor_first_pads<const N: usize>(
    texts: &mut [[u8; N]; 8],
    keys: &[[u8; 32]; 8],
    numbers: &[u64; 8],
)
    requires { N ≤ 64 }
    ensures { (j : ℕ) → j < 8 → slice_index_or texts.new j []
        ≡ xored (slice_index_or texts.old j []) (chacha_pad (slice_index_or keys.now j []) (slice_index numbers.now j) N) }
{
    let pads = blocks(keys, numbers, 0);
    for j in 0..8 {
        xor_front(&mut texts[j], &pads[j]);
    }
}
