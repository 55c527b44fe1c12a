/// What was reported done.
#[derive(Drop)]
pub enum Done {
    /// The command at this place of the history.
    Updated(u64),
    /// The search at this place of all that were made, with the identifiers that it found, rising.
    Found(u64, Vec<u64>),
}
