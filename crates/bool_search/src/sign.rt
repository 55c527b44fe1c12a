/// A field of a query, as the grammar sees it.
#[derive(Clone, Copy)]
pub enum Sign {
    /// `=` and a word, by the word's number.
    Operand(u32),
    And,
    Or,
    Not,
    Open,
    Close,
    /// Any other field.
    Other,
}
