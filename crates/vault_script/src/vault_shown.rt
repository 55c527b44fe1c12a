use crate::VaultRefusal;

/// What one printed line says. `print_vault_line` writes the line; specs/VaultTexts.antt has the text of each.
#[derive(Clone, Copy)]
pub enum VaultShown<'a> {
    /// A text was stored.
    Stored { id: u64 },
    /// A text was dropped.
    Dropped { id: u64 },
    /// A text was fetched.
    Fetched { id: u64, body: &'a [u8] },
    /// The tag of the text with this identifier is wrong.
    Forged { id: u64 },
    /// No text with this identifier is stored.
    NoBody { id: u64 },
    /// A command was refused.
    Refused(VaultRefusal),
    /// A run resumed from a journal, and sent so many frames again.
    Resumed { frames: u32 },
}
