/// How the list of one word is laid out.
#[derive(Clone, Copy, Debug, PartialEq, Eq)]
pub struct Plan {
    /// What the dictionary cell holds: 0 the identifiers, 1 pointers to the data blocks, 2 pointers to the
    /// pointer blocks.
    pub kind: u8,
    /// How many blocks of the array hold pointers: 0 but for kind 2.
    pub pointer_blocks: u32,
    /// How many blocks of the array hold identifiers: 0 for kind 0.
    pub data_blocks: u32,
}
