/// Why an update frame isn't taken, be there memory or not: the first of these causes that stands, as in `Refuse`.
#[derive(Clone, Copy)]
pub enum Cause {
    /// The server expects another number, which this is.
    Number(u32),
    /// The frame isn't one for the server's stage.
    OutOfPlace,
    /// What collides and where.
    Clash { what: u8, place: u32 },
}
