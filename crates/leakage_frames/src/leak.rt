use sse_frames::Items;

/// Where something came first: a command, the setup being command 0, and a place in it: that of a word among the
/// document's words, or of an identifier in a list of the setup. Both are counted from 0.
#[derive(Clone, Copy, PartialEq, Eq)]
pub struct Origin {
    pub command: u32,
    pub place: u32,
}

/// What an update sends for a word.
#[derive(Clone, Copy, PartialEq, Eq)]
pub enum Sent {
    /// A new entry.
    Entry,
    /// A revocation number that wasn't sent before.
    Fresh,
    /// The revocation number that was first sent there.
    Again(Origin),
}

/// That a word was searched before, first by this command, and the identifier of the update's document.
#[derive(Clone, Copy, PartialEq, Eq)]
pub struct Seen {
    pub search: u32,
    pub id: u64,
}

/// What an update shows of a word.
#[derive(Clone, Copy, PartialEq, Eq)]
pub struct WordLeak {
    pub sent: Sent,
    pub seen: Option<Seen>,
}

/// Where the setup holds a word: the number of its entry, and the positions of its blocks, by block number. Both are
/// counted from 0.
#[derive(Drop)]
pub struct Home {
    pub entry: u32,
    pub blocks: Items<u32>,
}

/// A pair that is listed with a searched word: its identifier, what listed it, where its revocation number was first
/// sent, and whether it is revoked.
#[derive(Clone, Copy, PartialEq, Eq)]
pub struct ListedLeak {
    pub id: u64,
    pub origin: Origin,
    pub number: Option<Origin>,
    pub revoked: bool,
}

/// What a command leaks.
#[derive(Drop)]
pub enum Leak {
    /// The numbers a cell and a block, and how many entries and blocks the index has.
    Setup {
        b: u16,
        big: u16,
        words: u32,
        blocks: u32,
    },
    /// Of each word of the document, in its given order.
    Add {
        words: Items<WordLeak>,
    },
    /// Of each word of the document, in its given order.
    Delete {
        words: Items<WordLeak>,
    },
    /// The first search of the same word where that was an earlier one, where the setup holds it, what is listed with
    /// it, and the identifiers that it finds.
    Search {
        earlier: Option<u32>,
        home: Option<Home>,
        listed: Items<ListedLeak>,
        found: Items<u64>,
    },
}

/// A value that a command draws. A cell, a block or an identifier is as it is sent, encrypted.
#[derive(Drop)]
pub enum Draw {
    /// A label, and the cell of a setup or the identifier of an addition under it.
    Entry { label: [u8; 16], cell: Items<u8> },
    /// A place tag, and its block.
    Block { tag: [u8; 16], block: Items<u8> },
    /// A revocation number.
    Number([u8; 16]),
    /// A search token of 160 bytes.
    Token(Items<u8>),
}
