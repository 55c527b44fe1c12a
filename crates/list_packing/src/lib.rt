//! Cuts lists into parts, packs them into blocks of one width whose end is filled with zeros, and writes numbers as
//! eight bytes, high byte first. Index and server share it: a long list is kept in blocks of identifiers, and a frame
//! carries a part of the entries. `pack` writes a block in place, `unpack` counts the numbers before a block's zeros,
//! `number_at` reads one; none takes memory. It depends only on std, and doesn't know what the numbers mean.
//! Proved: the parts of a list, joined, are the list (`joined-parts`); the numbers before a block's zeros are those
//! that it was filled from (`leading-filled`).
//! Side: both.
#![tactic(auto)]

mod hole;
mod number;
mod packed_list;
mod unpacked_list;

pub use hole::HoleInBlock;
pub use number::number_at;
pub use packed_list::{pack, part, write_numbers};
pub use unpacked_list::unpack;
