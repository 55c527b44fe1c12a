/// What a client that was answered reports.
#[derive(Drop)]
pub enum Report {
    /// Nothing is done yet.
    Nothing,
    /// Its last command is done.
    Updated,
    /// Its search is done, and found these identifiers, rising.
    Found(Vec<u64>),
}
