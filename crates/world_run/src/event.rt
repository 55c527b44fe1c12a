use crate::command::Command;
use client_registry::Word;

/// What happens to a client and a server.
#[derive(Drop)]
pub enum Event {
    /// The client is given a command.
    Command(Command),
    /// The client is to look for a word.
    Find(Word),
    /// The client takes the reply that waits, and sends its next frame.
    Send,
    /// The frame at this place, from 0, of all that were ever sent comes to the server.
    Deliver(u64),
    /// The reply that waits is lost, and the client stops.
    LoseReply,
    /// The client stops: now, if the number of the call is 0, and else inside that call of its disk. Its disk becomes the image of this
    /// number.
    StopClient { call: u64, pick: u64 },
    /// The same of the server.
    StopServer { call: u64, pick: u64 },
    /// The client starts from its disk; one that runs stops first.
    StartClient,
    /// The same of the server.
    StartServer,
}
