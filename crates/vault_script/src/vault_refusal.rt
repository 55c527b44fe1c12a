/// Why a command is refused; its text is what the printed line has after `refused: `.
#[derive(Clone, Copy, Debug, PartialEq, Eq)]
pub enum VaultRefusal {
    /// The identifier is zero.
    Zero,
    /// A text with this identifier is stored.
    BodyThere { id: u64 },
    /// No text with this identifier is stored, and it was to be dropped.
    NoBody { id: u64 },
    /// The text has `n` bytes, more than 65,536.
    TooLong { n: u64 },
    /// There were as many puts, or as many puts and drops, as can be numbered.
    VaultFull,
}
