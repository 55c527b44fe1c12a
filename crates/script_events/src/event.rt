use client_registry::{Doc, DocId, Sizes, Word};
use script_world::Side;

/// What a line of a world asks for.
#[derive(Drop)]
pub enum WorldEvent {
    /// The world ends, and another begins.
    World,
    /// The first master key of a world, 32 bytes.
    Key([u8; 32]),
    /// The documents that were collected are to be set up, with these parameters.
    SetUp(Sizes),
    /// A document is to be added.
    Add(Doc),
    /// The document of this identifier is to be deleted.
    Delete(DocId),
    /// The live documents are to be set up again under this key.
    Renew([u8; 32]),
    /// A word is to be searched.
    Find(Word),
    /// The client is to take the reply that waits and to send its next frame.
    Send,
    /// The frame at this place, from 0, of all that were sent comes to the server.
    Deliver { place: u64 },
    /// The reply that waits is lost.
    Lose,
    /// A side is to stop, now if the call is 0 and else inside that call of its disk.
    Stop { side: Side, call: u64, pick: u64 },
    /// A side is to start.
    Start { side: Side },
}
