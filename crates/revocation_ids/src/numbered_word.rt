/// A word of a document: its position there, and its number in a registry.
#[derive(Clone, Copy)]
pub struct NumberedWord {
    /// From 0.
    pub position: u32,
    /// From 0.
    pub number: u32,
}
