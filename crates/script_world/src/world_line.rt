use sse_script::Line;

/// One of the two that a world has.
#[derive(Clone, Copy, Debug, PartialEq, Eq)]
pub enum Side {
    Client,
    Server,
}

/// What one line of a world says. Its words are borrowed from the bytes of the line.
///
/// Only the grammar is tested: an identifier may be 0 here, and a place may be beyond the frames that were sent.
#[derive(Drop)]
pub enum WorldLine<'a> {
    /// A line of a script but `query`, or one without fields.
    Script(Line<'a>),
    /// `world`: the world ends, and another begins.
    World,
    /// `send`: the client takes the reply that waits, and sends its next frame.
    Send,
    /// `deliver`: the frame at this place, from 0, of all that were ever sent comes to the server.
    Deliver { place: u64 },
    /// `lose`: the reply that waits is lost, and the client stops.
    Lose,
    /// `stop`: a side stops, now if the call is 0 and else inside that call of its disk; its disk becomes the image of this
    /// number.
    Stop { side: Side, call: u64, pick: u64 },
    /// `start`: a side starts from its disk.
    Start { side: Side },
}
