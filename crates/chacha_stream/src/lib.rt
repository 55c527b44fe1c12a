//! The keystream that encrypts cells, blocks and identifiers: byte strings of any length from a 32-byte key and a
//! number. Segment n, here called pad n, is the ChaCha20 keystream of RFC 8439 under the key; the nonce is four zero
//! bytes and then n, low byte first, and the block counter begins at 0. The bytes come from `rand_chacha`, and those of
//! a pad of at most one block from the block function in `first_block`. `pad_into` writes a pad, and `xor_in_place`
//! XORs it into bytes without taking memory; a pad has at most 2^38 bytes, the range of the 32-bit block counter.
//! Proved: a pad is the standard's keystream, by definitions that follow its text (specs/Rfc8439.antt).
//! Not here: that a number is used once. A shorter pad is a prefix of a longer one, and nothing here counts uses.
//! Side: both.
#![tactic(auto)]

mod first_block;
mod pad;
mod pad_xor;

pub use pad::{pad_into, xor_in_place};
pub use pad_xor::xor;
