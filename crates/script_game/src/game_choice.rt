/// What both sides do at a turn of `duel SEED N`.
#[derive(Clone, Copy)]
pub enum GameChoice {
    /// They set up the documents 1 to 4.
    SetUp,
    /// They search `s`.
    Search,
    /// They add the document of this identifier.
    Add(u64),
    /// They delete it.
    Delete(u64),
}
