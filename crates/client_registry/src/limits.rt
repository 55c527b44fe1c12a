/// The most bytes of a word.
pub const MAX_WORD_BYTES: usize = 64;

/// The most words of a document.
pub const MAX_WORDS: usize = 4096;

/// The most documents of a setup.
pub const MAX_DOCUMENTS: usize = 1 << 18;

/// The most pairs of a word and a document at a setup.
pub const MAX_PAIRS: usize = 1 << 20;

/// The most bytes of an index, which are counted by [`crate::size_of`].
pub const MAX_INDEX_BYTES: u64 = 1 << 28;
