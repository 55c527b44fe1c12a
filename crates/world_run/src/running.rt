use sse_journal::Journal;
use world_client::State;

/// A client that runs, with its journal.
#[derive(Drop)]
pub struct Running {
    pub state: State,
    pub journal: Journal,
    /// Whether it waits for the answer to the last frame that it sent.
    pub waits: bool,
}
