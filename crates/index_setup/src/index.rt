ghost use Rattle.std.specs.Prelude.{◌≡◌, ◌+◌, ◌*◌, ◌<◌, ◌≤◌, ◌^◌, ◌++◌, [], length, slice_index_or, vec_len};
ghost use Rattle.list_packing.specs.Parts.{parts};
ghost use Rattle.index_setup.specs.Built.{IsIndex};
ghost use Rattle.index_setup.specs.SizeOf.{HasSize};

use client_registry::Size;
use list_packing::part;
use std::marker::Model;

/// The index of a setup: for each word its label and encrypted cell, by rising label, and the encrypted blocks of the
/// longer lists by rising place tag, dummies among both. What it hands out takes no memory.
#[derive(Drop)]
pub struct Index {
    b: u16,
    big: u16,
    pad: u16,
    words: u32,
    blocks: u32,
    own_words: u32,
    own_blocks: u32,
    entries: Vec<u8>,
    array: Vec<u8>,
}

impl Model for Index {
    ghost use Rattle.index_setup.specs.Built.{Built, IsIndex};

    ghost Value = { Built };

    ghost use Rattle.index_setup.specs.IndexView.{index_of};

    ghost view = { index_of };

    ghost invariant = { λ i. IsIndex (index_of i) };
}

impl Index {
    /// The index of this size with these entries and blocks, whose sizes are those that its parameters give.
    pub(crate) fn new(size: &Size, entries: Vec<u8>, array: Vec<u8>) -> Index
        requires pad_some { 1 ≤ size.now.pad }
        requires pad_most { size.now.pad ≤ 4096 }
        requires most { size.now.padded_words ≤ 2 ^ 20 }
        requires few_blocks { size.now.padded_blocks ≤ 2 ^ 20 }
        requires own_words { size.now.words ≤ size.now.padded_words }
        requires own_blocks { size.now.blocks ≤ size.now.padded_blocks }
        requires whole { vec_len entries ≡ size.now.padded_words * (17 + 8 * size.now.shape.b) }
        requires array_whole { vec_len array ≡ size.now.padded_blocks * (8 * size.now.shape.big) }
        ensures size { HasSize result size.now }
        ensures entries { result.entries ≡ entries.items }
        ensures array { result.array ≡ array.items }
    {
        Index {
            b: size.shape.b(),
            big: size.shape.big(),
            pad: size.pad,
            words: size.padded_words,
            blocks: size.padded_blocks,
            own_words: size.words,
            own_blocks: size.blocks,
            entries,
            array,
        }
    }

    /// The numbers per cell, 1 to 64.
    pub fn b(&self) -> u16
        ensures { result ≡ self.now.b }
    {
        self.b
    }

    /// The numbers per block, 1 to 256.
    pub fn big(&self) -> u16
        ensures { result ≡ self.now.big }
    {
        self.big
    }

    /// Q, up to multiples of which dummies were added, 1 to 4,096.
    pub fn pad(&self) -> u16
        ensures pad { result ≡ self.now.pad }
        ensures limits { IsIndex self.now }
    {
        self.pad
    }

    /// How many entries it has, those of the words and the dummies; at most 2^20.
    pub fn words(&self) -> u32
        ensures count { result ≡ self.now.words }
        ensures limits { IsIndex self.now }
    {
        self.words
    }

    /// How many blocks it has, those of the lists and the dummies; at most 2^20.
    pub fn blocks(&self) -> u32
        ensures count { result ≡ self.now.blocks }
        ensures limits { IsIndex self.now }
    {
        self.blocks
    }

    /// How many words it has, which are its entries without the dummies.
    pub fn own_words(&self) -> u32
        ensures count { result ≡ self.now.own_words }
        ensures limits { IsIndex self.now }
    {
        self.own_words
    }

    /// How many blocks its lists take, which are its blocks without the dummies.
    pub fn own_blocks(&self) -> u32
        ensures count { result ≡ self.now.own_blocks }
        ensures limits { IsIndex self.now }
    {
        self.own_blocks
    }

    /// The bytes of a cell: its kind byte and b numbers of 8 bytes.
    pub fn cell_size(&self) -> u16
        ensures { result ≡ 1 + 8 * self.now.b }
    {
        1 + 8 * self.b
    }

    /// The bytes of a block: its numbers of 8 bytes.
    pub fn block_size(&self) -> u16
        ensures { result ≡ 8 * self.now.big }
    {
        8 * self.big
    }

    /// The label of 16 bytes and the encrypted cell of entry `i`, from 0, by rising label.
    pub fn entry(&self, i: u32) -> (&[u8], &[u8])
        requires { i < self.now.words }
        ensures entry { result.0.now ++ result.1.now ≡ slice_index_or (parts (17 + 8 * self.now.b) self.now.entries) i [] }
        ensures label { length result.0.now ≡ 16 }
    {
        part(&self.entries, 17 + 8 * self.b as usize, i as usize).split_at(16)
    }

    /// The encrypted block at place `i`, from 0, by rising place tag.
    pub fn block(&self, i: u32) -> &[u8]
        requires { i < self.now.blocks }
        ensures { result.now ≡ slice_index_or (parts (8 * self.now.big) self.now.array) i [] }
    {
        part(&self.array, 8 * self.big as usize, i as usize)
    }

    // Promise P50, also here; clauses: bytes, limits
    /// The entries by rising label, joined: for each its label of 16 bytes, then its encrypted cell.
    pub fn entries(&self) -> &[u8]
        ensures bytes { result.now ≡ self.now.entries }
        ensures limits { IsIndex self.now }
    {
        &self.entries
    }

    // Promise P50, also here; clauses: bytes, limits
    /// The encrypted blocks by rising place tag, joined.
    pub fn array(&self) -> &[u8]
        ensures bytes { result.now ≡ self.now.array }
        ensures limits { IsIndex self.now }
    {
        &self.array
    }
}
