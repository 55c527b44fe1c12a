use crate::numbered_word::NumberedWord;

/// The words of a document, each in the document's order.
#[derive(Drop)]
pub struct Split {
    /// Those whose pair with the document's identifier was never listed.
    pub fresh: Vec<NumberedWord>,
    /// Those whose pair was.
    pub listed: Vec<NumberedWord>,
}
