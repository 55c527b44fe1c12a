/// A line of the made script, by what it does.
#[derive(Clone, Copy)]
pub(crate) enum MadeLine {
    /// The key.
    Key,
    /// The document of this number is one of the setup.
    Doc(u64),
    /// The setup.
    SetUp,
    /// The document of this number is deleted.
    Delete(u64),
    /// It is added.
    Add(u64),
    /// The search of this number, from 0.
    Find(u64),
}
