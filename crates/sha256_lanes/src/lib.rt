//! The block function of SHA-256 on eight lanes: eight blocks are hashed side by side, each in its own lane of vectors
//! of eight words. It depends on `sha2` and cites its definitions of FIPS 180-4.
//! Proved: in each lane, `compress` gives what sha2's definition of the hash computation (FIPS 180-4, section 6.2.2)
//! gives of the hash value and the block in that lane.
//! Not here: padding, and the order of bytes. A block comes as its sixteen words.
//! Side: both.
#![tactic(auto)]

mod block;
mod consts;
mod words;

pub use block::compress;
