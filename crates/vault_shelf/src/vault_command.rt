/// What a client does with texts at the vault. An identifier of 0 is refused.
#[derive(Clone, Copy)]
pub enum VaultCommand<'a> {
    /// Keeps a text under an identifier.
    Put { id: u64, body: &'a [u8] },
    /// Drops the text of an identifier.
    Drop { id: u64 },
    /// Gets the text of an identifier back.
    Get { id: u64 },
}
