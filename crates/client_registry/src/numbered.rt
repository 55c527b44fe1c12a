use crate::doc_id::DocId;

/// A document as it is kept, lent: its identifier, and the numbers of its words, in the order in which the words
/// were given. What a number stands for, the word table says that it was lent with.
#[derive(Clone, Copy)]
pub struct Numbered<'a> {
    /// The identifier.
    pub id: DocId,
    /// The numbers of the words.
    pub numbers: &'a [u32],
}
