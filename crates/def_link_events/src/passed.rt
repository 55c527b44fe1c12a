use crate::Mark;

/// What passed over a link: the bytes of a frame or of a reply, with its four length bytes.
#[derive(Drop)]
pub enum Passed {
    /// A frame that was sent, and what the link knows of its answer.
    Sent { bytes: Vec<u8>, mark: Mark },
    /// A reply that was received.
    Received(Vec<u8>),
}
