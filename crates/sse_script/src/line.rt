use crate::Fields;

/// What one line of a script says. Its words are borrowed from the bytes of the line.
///
/// Only the grammar is tested: an identifier may be 0 here, and a field that stands for a word may be none.
#[derive(Drop)]
pub enum Line<'a> {
    /// A line without fields.
    Empty,
    /// `key`: the master key, 32 bytes.
    Key([u8; 32]),
    /// `doc`: a document for the setup, and its words as they stand.
    Doc { id: u64, words: Fields<'a> },
    /// `setup`: the identifiers in a cell, those in a block, and the number up to a multiple of which words and
    /// blocks are filled with dummies; that is 1, for no dummies, where the line leaves it out.
    Setup { b: u64, big: u64, pad: u64 },
    /// `add`: a document to be added, and its words as they stand.
    Add { id: u64, words: Fields<'a> },
    /// `del`: the identifier of a document to be deleted.
    Del { id: u64 },
    /// `find`: the word to be searched, as it stands.
    Find { word: &'a [u8] },
    /// `query`: the fields of a query, as they stand: operands, `and`, `or`, `not` and parentheses.
    Query(Fields<'a>),
    /// `rebuild`: the new master key, 32 bytes, under which the live documents are set up again.
    Rebuild([u8; 32]),
}
