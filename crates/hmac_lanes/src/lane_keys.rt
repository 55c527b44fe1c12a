ghost use Rattle.std.specs.Prelude.{◌≡◌, ◌≤◌, ◌<◌, ℕ, All, List, length, map, slice_index_or, []};
ghost use Rattle.hmac_sha256.specs.Fips198.{hmac_of, key_block_of, masked};
ghost use Rattle.hmac_lanes.specs.LaneKeys.{IsKeyAt, padded};

use crate::blocks::{last_block, masked_block};
use crate::hash_values::{HashValues, behind, digests, initial};

/// Eight keys of HMAC-SHA-256, prepared for texts: the two hash values behind the blocks of each key. Nothing gives the
/// keys back.
#[derive(Drop)]
pub struct LaneKeys {
    pub(crate) inner: HashValues,
    pub(crate) outer: HashValues,
}

/// The blocks of eight keys, with this mask XORed into them.
fn key_blocks(keys: &[[u8; 32]; 8], mask: u8) -> [[u8; 64]; 8]
    ensures { (j : ℕ) → j < 8 → slice_index_or result j [] ≡ masked (key_block_of (slice_index_or keys.now j [])) mask }
{
    [
        masked_block(&keys[0], mask),
        masked_block(&keys[1], mask),
        masked_block(&keys[2], mask),
        masked_block(&keys[3], mask),
        masked_block(&keys[4], mask),
        masked_block(&keys[5], mask),
        masked_block(&keys[6], mask),
        masked_block(&keys[7], mask),
    ]
}

/// The last blocks of eight texts behind a key's block.
fn text_blocks(texts: &[&[u8]; 8]) -> [[u8; 64]; 8]
    requires { All (λ text. length text.now ≤ 55) texts.now }
    ensures { (j : ℕ) → j < 8 → slice_index_or result j [] ≡ padded (slice_index_or (map (λ text. text.now) texts.now) j []) }
{
    [
        last_block(texts[0]),
        last_block(texts[1]),
        last_block(texts[2]),
        last_block(texts[3]),
        last_block(texts[4]),
        last_block(texts[5]),
        last_block(texts[6]),
        last_block(texts[7]),
    ]
}

/// The same of eight digests.
fn digest_blocks(digests: &[[u8; 32]; 8]) -> [[u8; 64]; 8]
    ensures { (j : ℕ) → j < 8 → slice_index_or result j [] ≡ padded (slice_index_or digests.now j []) }
{
    [
        last_block(&digests[0]),
        last_block(&digests[1]),
        last_block(&digests[2]),
        last_block(&digests[3]),
        last_block(&digests[4]),
        last_block(&digests[5]),
        last_block(&digests[6]),
        last_block(&digests[7]),
    ]
}

impl LaneKeys {
    // Promise P313, also here; clauses: ensures
    /// Prepares eight keys of 32 bytes, each in its lane.
    pub fn new(keys: &[[u8; 32]; 8]) -> LaneKeys
        ensures { (j : ℕ) → j < 8 → IsKeyAt j result (slice_index_or keys.now j []) }
    {
        LaneKeys {
            inner: HashValues::of(behind(initial(), &key_blocks(keys, 0x36))),
            outer: HashValues::of(behind(initial(), &key_blocks(keys, 0x5c))),
        }
    }

    // Promise P313 (caller): Eight codes that are computed side by side are those of HMAC-SHA-256 under the key and of the text in each lane.
    //   clauses: ensures; assumes: earlier calls, sizes in bounds; not: How long it takes. The kit's definition of SHA-256 is taken to be FIPS 180-4.
    /// The codes of eight texts of at most 55 bytes, each under the key in its lane.
    pub fn codes(&self, texts: &[&[u8]; 8]) -> [[u8; 32]; 8]
        requires { All (λ text. length text.now ≤ 55) texts.now }
        ensures { (j : ℕ) (key : List ℕ) → j < 8 → IsKeyAt j self.now key → slice_index_or result j [] ≡ hmac_of key (slice_index_or (map (λ text. text.now) texts.now) j []) }
    {
        let inside = digests(&behind(self.inner.vectors(), &text_blocks(texts)));
        digests(&behind(self.outer.vectors(), &digest_blocks(&inside)))
    }
}
