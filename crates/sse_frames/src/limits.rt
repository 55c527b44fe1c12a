/// The most bytes that the body of a frame has.
pub const MAX_FRAME_BODY: u32 = 1_048_576;

/// The most bytes that the body of a reply has: a page of `PAGE_LEN` identifiers.
pub const MAX_REPLY_BODY: u32 = 65_540;

/// The bytes that a whole reply needs at most, the four of its length among them.
pub const REPLY_ROOM: usize = 65_544;

/// The bytes that a whole frame needs at most, the four of its length among them: 1,024 entries of the widest cell.
pub const FRAME_ROOM: usize = 541_709;

/// The greatest number of an update frame. One more is the number that follows the last.
pub const MAX_NUMBER: u32 = 0xffff_fffe;

/// The bytes of a label, a place tag or a revocation number.
pub const LABEL_LEN: usize = 16;

/// The bytes of a search token.
pub const TOKEN_LEN: usize = 160;

/// The most identifiers of a cell.
pub const MAX_B: u16 = 64;

/// The most numbers of a block.
pub const MAX_BIG: u16 = 256;

/// The most words, and the most blocks, of an index.
pub const MAX_INDEX: u32 = 1_048_576;

/// The most entries of one SetupDict frame.
pub const ENTRIES_PER_FRAME: u16 = 1_024;

/// The most blocks of one SetupArray frame.
pub const BLOCKS_PER_FRAME: u16 = 256;

/// The most entries and revocation numbers of one Add, and the most revocation numbers of one Delete.
pub const MAX_CHANGES: u16 = 4_096;

/// The bytes under the label of an addition: an encrypted identifier.
pub const ADDED_LEN: usize = 8;

/// The identifiers of each page but the last, and the most of the last.
pub const PAGE_LEN: u16 = 8_192;
