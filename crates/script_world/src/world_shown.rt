/// What one line says that is printed of a world. `print_world_line` writes the line; specs/WorldTexts.antt has the text of each.
#[derive(Clone, Copy)]
pub enum WorldShown<'a> {
    /// An event happened.
    Done,
    /// It can't happen.
    Nothing,
    /// Memory ran out.
    NoMemory,
    /// The command at this place of the history is reported done.
    Updated { place: u64 },
    /// The search at this place of those that were made is, and found these identifiers.
    Found { place: u64, ids: &'a [u64] },
    /// The bytes of a frame that was sent.
    Sent(&'a [u8]),
    /// The file of the client's journal at the end.
    ClientFile(&'a [u8]),
    /// The file of the server's journal at the end.
    ServerFile(&'a [u8]),
}
