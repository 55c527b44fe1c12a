ghost use Rattle.std.specs.Prelude.{◌≡◌, [], None};

use crate::sent::Sent;
use std::alloc::Global;
use world_server::Replies;

/// What passes between a client and a server: the bytes of all frames that were ever sent, and what the server replied to the last
/// one, where the client waits for it.
#[derive(Drop)]
pub struct Link {
    pub sent: Sent,
    pub waiting: Option<Replies>,
}

impl Link {
    /// A link over which nothing was sent.
    pub fn new(alloc: Global) -> Link
        ensures sent { result.sent.frames ≡ [] }
        ensures waiting { result.waiting ≡ None }
    {
        Link {
            sent: Sent::new(alloc),
            waiting: None,
        }
    }
}
