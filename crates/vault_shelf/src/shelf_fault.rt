/// Why a client refuses a command on its texts at the vault.
#[derive(Clone, Copy, Debug, PartialEq, Eq)]
pub enum ShelfFault {
    /// The identifier is 0, which is none.
    IdentifierZero,
    /// A text of this identifier is at the vault.
    IsThere(u64),
    /// No text of this identifier is at the vault.
    NotThere(u64),
    /// The text has so many bytes, more than 65,536.
    TooLong(u64),
    /// There is no number left, for a put or for any update.
    Full,
}
