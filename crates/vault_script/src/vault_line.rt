/// What one line of a vault's script says.
///
/// Only the grammar is tested: an identifier may be 0 here, and a text may be longer than a vault keeps.
#[derive(Drop)]
pub enum VaultLine {
    /// A line without fields.
    Empty,
    /// `key`: the master key, 32 bytes.
    Key([u8; 32]),
    /// `put`: a text to be stored, of at most 2^18 bytes, and its identifier.
    Put { id: u64, body: Vec<u8> },
    /// `drop`: the identifier of a text to be dropped.
    Drop { id: u64 },
    /// `get`: the identifier of a text to be fetched.
    Get { id: u64 },
}
