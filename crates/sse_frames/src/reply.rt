/// What a server answers.
#[derive(Clone, Copy)]
pub enum Reply<'a> {
    /// To Hello: the number that the server expects next.
    Next(u32),
    /// The update frame of this number was applied.
    Took(u32),
    /// An update frame with another number than this one, which the server expects next.
    Number(u32),
    /// A label (`what` 1), an addition's label (2) or a revocation number (3) collides; `place` counts
    /// from 0 in the frame's list.
    Clash { what: u8, place: u32 },
    /// A part of the answer to a search: identifiers of 8 bytes each, joined.
    Page { last: bool, ids: &'a [u8] },
    /// The decrypted list isn't one.
    BadList,
    /// The server is out of memory, and nothing has changed.
    NoMemory,
    /// The server's disk has failed.
    StoreFault,
    /// The bytes were no frame: 1 for a bad length, 2 for a bad kind, 3 for a bad body.
    BadFrame(u8),
    /// The frame isn't one for the server's present stage.
    OutOfPlace,
}
