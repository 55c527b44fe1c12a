use leakage_names::Name;

/// What a value is drawn for, by the names that it takes.
#[derive(Clone, Copy)]
pub enum Drawing {
    /// An entry: its label, and the pad of its cell or of its identifier.
    Entry(Name, Name),
    /// A block: its place tag, and its pad.
    Block(Name, Name),
    /// A revocation number.
    Number(Name),
    /// A token.
    Token(Name),
}
