//! Blocks of ChaCha20 (RFC 8439) on eight lanes: a block of each of eight pads is computed side by side, each under a key
//! and with a number of its own. It depends on `chacha_stream` for `xor` and the definitions of the standard and of pads,
//! on `rand_core` for the words of a key, and on `rand_chacha` for its definitions alone, which `chacha_stream` proves to
//! be those of the standard.
//! Proved: in each lane, a block has the bytes of the pad of that lane's number, under that lane's key.
//! Not here: that a number is used once, and pads of more than a block in one call.
//! Side: both.
#![tactic(auto)]

mod first_pads;
mod pad_blocks;
mod rounds;
mod states;

pub use first_pads::xor_first_pads;
pub use pad_blocks::blocks;
