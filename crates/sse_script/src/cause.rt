/// Why a run stops before the end of its script. Numbers of words and of blocks count from 0, numbers of lines from 1.
#[derive(Clone, Copy)]
pub enum Cause<'a> {
    /// The words after the program's name aren't those of a run.
    BadWords,
    /// The line isn't in the grammar, or stands where its kind may not.
    BadLine { number: u64 },
    /// The source of the script failed.
    SourceFault,
    /// The link failed.
    LinkFault,
    /// The disk failed.
    DiskFault,
    /// There was no memory, here or at the server.
    NoMemory,
    /// The labels of two words are equal.
    LabelClash { first: u32, second: u32 },
    /// The place tags of two blocks are equal.
    PlaceClash { first: u32, second: u32 },
    /// The revocation numbers of two words are equal.
    NumberClash { first: u32, second: u32 },
    /// The server found a value of kind `what` taken, at `place` in the frame.
    Clash { what: u8, place: u32 },
    /// The server expects frame `got`, and not one from `low` to `high`.
    PeerElsewhere { low: u32, high: u32, got: u32 },
    /// A reply that isn't among those expected: its bytes, of which the first 16 are printed.
    BadReply { reply: &'a [u8] },
    /// The disk holds no journal, or one without the record that the run goes on from.
    NoJournal,
    /// The journal has records, and the run is to begin a new one.
    HasRecords,
    /// A record of the journal, counted from 0, isn't one that can stand there.
    BadRecord { number: u64 },
    /// The journal was written under another key.
    WrongKey,
}
