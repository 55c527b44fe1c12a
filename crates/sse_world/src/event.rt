/// What an event comes to.
#[derive(Clone, Copy, Debug, PartialEq, Eq)]
pub enum Outcome {
    /// It happened.
    Done,
    /// It can't happen in this world.
    Nothing,
    /// Memory ran out: nothing has changed, or the side that ran out of it inside a call of its disk has stopped.
    NoMemory,
}
