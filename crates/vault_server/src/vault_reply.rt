/// A reply of the vault.
#[derive(Clone, Copy)]
pub enum VaultReply<'a> {
    /// The update of this number was taken.
    Took(u32),
    /// What stands in the slot: the tag and the encrypted text.
    Body { tag: &'a [u8; 32], sealed: &'a [u8] },
    /// Nothing stands in the slot.
    Absent,
    /// The number of the next update.
    Next(u32),
    /// The slot of a put isn't empty, or that of a drop is.
    Clash,
    /// Out of memory: the update wasn't taken.
    NoMemory,
    /// The disk failed, now or at an earlier update: the update wasn't taken.
    StoreFault,
    /// The bytes are no frame.
    BadFrame,
}
