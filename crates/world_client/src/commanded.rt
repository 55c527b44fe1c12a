use client_core::{Behind, Client};

/// How a command of a client ended, which was this before.
#[derive(Drop)]
pub enum Commanded<B> {
    /// It is recorded, and its frames are owed to the server.
    Done(Client<Behind>),
    /// It is refused, and nothing has changed.
    Refused(B),
    /// There was no memory for it, and nothing has changed.
    NoMemory(B),
    /// The client has stopped inside a call of its disk.
    Stopped,
    /// A call of the disk failed without a stop, or had no memory: the record is there or not, and the client is gone.
    Broken,
}
