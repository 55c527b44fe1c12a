// Blocks of 64 bytes, eight side by side as vectors of their words.

ghost use Rattle.std.specs.Prelude.{◌≡◌, ◌≤◌, ◌<◌, ◌-◌, ◌*◌, ◌++◌, ℕ, [], drop, length, replicate, slice_index, slice_index_or};
ghost use Rattle.hmac_sha256.specs.Fips198.{key_block_of, masked};
ghost use Rattle.sha2.specs.Sha256.{first_words, word_at};
ghost use Rattle.sha256_lanes.specs.Lanes.{lane};
ghost use Rattle.hmac_lanes.specs.LaneKeys.{padded};

use std::simd::u32x8;

/// A block with these bytes in front, and zeros behind them.
fn in_front(bytes: &[u8]) -> [u8; 64]
    requires { length bytes.now ≤ 64 }
    ensures { result ≡ bytes.now ++ replicate (64 - length bytes.now) 0 }
{
    let mut block = [0u8; 64];
    write_front(&mut block, bytes);
    block
}

/// Writes bytes over the front of a block.
fn write_front(block: &mut [u8; 64], bytes: &[u8])
    requires { length bytes.now ≤ 64 }
    ensures { block.new ≡ bytes.now ++ drop (length bytes.now) block.old }
{
    block[..bytes.len()].copy_from_slice(bytes);
}

/// The last block of a message whose first block is a key's: a text of at most 55 bytes, and the padding of both
/// (FIPS 180-4, 5.1.1).
pub(crate) fn last_block(text: &[u8]) -> [u8; 64]
    requires { length text.now ≤ 55 }
    ensures { result ≡ padded text.now }
{
    let mut block = in_front(text);
    let bits = (64 + text.len() as u64) * 8;
    block[text.len()] = 0x80;
    block[56..].copy_from_slice(&bits.to_be_bytes());
    block
}

/// The block of a key of 32 bytes, with a mask XORed into each of its bytes (FIPS 198-1, section 4, steps 1 to 4 and 7).
pub(crate) fn masked_block(key: &[u8; 32], mask: u8) -> [u8; 64]
    ensures { result ≡ masked (key_block_of key.now) mask }
{
    let mut block = in_front(key);
    for i in 0..64 {
        block[i] ^= mask;
    }
    block
}

/// Word `k` of a block.
fn word_of(block: &[u8; 64], k: usize) -> u32
    requires { k < 16 }
    ensures { result ≡ word_at block.now (4 * k) }
{
    u32::from_be_bytes([
        block[4 * k],
        block[4 * k + 1],
        block[4 * k + 2],
        block[4 * k + 3],
    ])
}

/// Word `k` of eight blocks.
fn words_at(blocks: &[[u8; 64]; 8], k: usize) -> u32x8
    requires { k < 16 }
    ensures { (j : ℕ) → j < 8 → slice_index result j ≡ word_at (slice_index_or blocks.now j []) (4 * k) }
{
    u32x8::from_array([
        word_of(&blocks[0], k),
        word_of(&blocks[1], k),
        word_of(&blocks[2], k),
        word_of(&blocks[3], k),
        word_of(&blocks[4], k),
        word_of(&blocks[5], k),
        word_of(&blocks[6], k),
        word_of(&blocks[7], k),
    ])
}

/// The words of eight blocks, each block in its lane.
pub(crate) fn words_of(blocks: &[[u8; 64]; 8]) -> [u32x8; 16]
    ensures { (j : ℕ) → j < 8 → lane j result ≡ first_words (slice_index_or blocks.now j []) 16 }
{
    [
        words_at(blocks, 0),
        words_at(blocks, 1),
        words_at(blocks, 2),
        words_at(blocks, 3),
        words_at(blocks, 4),
        words_at(blocks, 5),
        words_at(blocks, 6),
        words_at(blocks, 7),
        words_at(blocks, 8),
        words_at(blocks, 9),
        words_at(blocks, 10),
        words_at(blocks, 11),
        words_at(blocks, 12),
        words_at(blocks, 13),
        words_at(blocks, 14),
        words_at(blocks, 15),
    ]
}
