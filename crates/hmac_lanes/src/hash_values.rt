// Hash values of SHA-256, eight side by side.

ghost use Rattle.std.specs.Prelude.{◌≡◌, ◌<◌, ℕ, slice_index, slice_index_or, []};
ghost use Rattle.sha2.specs.Sha256.{compress, digest_bytes, initial_hash_256};
ghost use Rattle.sha256_lanes.specs.Lanes.{lane};
ghost use Rattle.hmac_lanes.specs.LaneKeys.{vectors_in};

use crate::blocks::words_of;
use sha256_lanes::compress;
use std::simd::u32x8;

/// Eight hash values, kept: word k of each of them is in field k, with a lane for each.
#[derive(Clone, Copy)]
pub(crate) struct HashValues {
    a: u32x8,
    b: u32x8,
    c: u32x8,
    d: u32x8,
    e: u32x8,
    f: u32x8,
    g: u32x8,
    h: u32x8,
}

impl HashValues {
    /// Those of these vectors.
    pub(crate) fn of(vectors: [u32x8; 8]) -> HashValues
        ensures { (j : ℕ) → j < 8 → lane j (vectors_in result) ≡ lane j vectors }
    {
        let [a, b, c, d, e, f, g, h] = vectors;
        HashValues {
            a,
            b,
            c,
            d,
            e,
            f,
            g,
            h,
        }
    }

    /// Their vectors.
    pub(crate) fn vectors(&self) -> [u32x8; 8]
        ensures { result ≡ vectors_in self.now }
    {
        [
            self.a, self.b, self.c, self.d, self.e, self.f, self.g, self.h,
        ]
    }
}

/// The initial hash value (FIPS 180-4, 5.3.3) in each lane.
pub(crate) fn initial() -> [u32x8; 8]
    ensures { (j : ℕ) → j < 8 → lane j result ≡ initial_hash_256 }
{
    [
        u32x8::splat(0x6a09_e667),
        u32x8::splat(0xbb67_ae85),
        u32x8::splat(0x3c6e_f372),
        u32x8::splat(0xa54f_f53a),
        u32x8::splat(0x510e_527f),
        u32x8::splat(0x9b05_688c),
        u32x8::splat(0x1f83_d9ab),
        u32x8::splat(0x5be0_cd19),
    ]
}

/// The hash values behind a block more in each lane.
pub(crate) fn behind(hash_values: [u32x8; 8], blocks: &[[u8; 64]; 8]) -> [u32x8; 8]
    ensures { (j : ℕ) → j < 8 → lane j result ≡ compress (lane j hash_values) (slice_index_or blocks.now j []) }
{
    let mut behind = hash_values;
    compress(&mut behind, words_of(blocks));
    behind
}

/// The bytes of the hash value in a lane.
fn digest_in(hash_values: &[u32x8; 8], j: usize) -> [u8; 32]
    requires { j < 8 }
    ensures { result ≡ digest_bytes (lane j hash_values.now) 8 }
{
    let mut digest = [0u8; 32];
    for i in 0..8 {
        let word = hash_values[i].to_array()[j];
        digest[4 * i..4 * i + 4].copy_from_slice(&word.to_be_bytes());
    }
    digest
}

/// The bytes of each hash value.
pub(crate) fn digests(hash_values: &[u32x8; 8]) -> [[u8; 32]; 8]
    ensures { (j : ℕ) → j < 8 → slice_index_or result j [] ≡ digest_bytes (lane j hash_values.now) 8 }
{
    [
        digest_in(hash_values, 0),
        digest_in(hash_values, 1),
        digest_in(hash_values, 2),
        digest_in(hash_values, 3),
        digest_in(hash_values, 4),
        digest_in(hash_values, 5),
        digest_in(hash_values, 6),
        digest_in(hash_values, 7),
    ]
}
