ghost use Rattle.std.specs.Prelude.{◌≡◌};
ghost use Rattle.sse_frames.specs.Frames as frames;
ghost use Rattle.sse_frames.specs.FrameViews.{frame_view};

/// What a client sends. A list is the joined bytes of its items, so its count is its length divided by
/// the size of one item.
#[derive(Clone, Copy)]
pub enum Frame<'a> {
    /// Asks which number the server expects next.
    Hello,
    /// Begins an index of `m` words and `a` blocks, with `b` identifiers a cell and `big` numbers a block.
    SetupBegin {
        q: u32,
        b: u16,
        big: u16,
        m: u32,
        a: u32,
    },
    /// The next entries of the dictionary, each a label of 16 bytes and a cell of `width` bytes.
    SetupDict {
        q: u32,
        width: u16,
        entries: &'a [u8],
    },
    /// The next blocks of the array, each of `width` bytes.
    SetupArray {
        q: u32,
        width: u16,
        blocks: &'a [u8],
    },
    /// Ends the index.
    SetupEnd {
        q: u32,
    },
    /// Adds entries, each a label of 16 bytes and an encrypted identifier of 8, and takes revocation numbers of
    /// 16 bytes out of those that are revoked.
    Add {
        q: u32,
        entries: &'a [u8],
        numbers: &'a [u8],
    },
    /// Revokes numbers of 16 bytes each.
    Delete {
        q: u32,
        numbers: &'a [u8],
    },
    /// A search token of 160 bytes.
    Search {
        token: &'a [u8],
    },
}

impl Frame<'_> {
    /// The number of an update frame, which all are but Hello and Search.
    pub fn update_number(&self) -> Option<u32>
        ensures { result ≡ frames.update_number (frame_view self.now) }
    {
        match *self {
            Frame::SetupBegin { q, .. }
            | Frame::SetupDict { q, .. }
            | Frame::SetupArray { q, .. }
            | Frame::SetupEnd { q }
            | Frame::Add { q, .. }
            | Frame::Delete { q, .. } => Some(q),
            Frame::Hello | Frame::Search { .. } => None,
        }
    }
}
