ghost use Rattle.std.specs.Prelude.{◌≡◌, ◌<◌, [], ◌∷◌, ◌++◌, vec_len, vec_capacity, IfOk, OnOk};
ghost use Rattle.def_link_events.specs.Events.{Sent, Received};
ghost use Rattle.def_link_events.specs.Passed.{events_of};

use crate::{Mark, Passed};
use std::alloc::{AllocError, Global};

/// All that passed over a link, in order.
#[derive(Drop)]
pub struct Transcript {
    alloc: Global,
    passed: Vec<Passed>,
}

impl Transcript {
    ghost use Rattle.sse_link.specs.Recorded.{recorded, HasRoom};

    /// Nothing passed. Takes no memory.
    pub fn new(alloc: Global) -> Transcript
        ensures { recorded result ≡ [] }
    {
        Transcript {
            alloc,
            passed: Vec::new(alloc),
        }
    }

    /// A copy of the bytes, and the memory to keep it.
    pub fn make_room(&mut self, bytes: &[u8]) -> Result<Vec<u8>, AllocError>
        ensures copy { IfOk result (λ copy. copy.items ≡ bytes.now) }
        ensures room { OnOk result (HasRoom self.new) }
        ensures same { recorded self.new ≡ recorded self.old }
    {
        let copy = Vec::from_slice(self.alloc, bytes)?;
        self.passed.reserve(1)?;
        Ok(copy)
    }

    /// Keeps a frame that was sent. Takes no memory.
    pub fn sent(&mut self, bytes: Vec<u8>, mark: Mark)
        requires room { HasRoom self.old }
        ensures { recorded self.new ≡ recorded self.old ++ Sent bytes.items mark ∷ [] }
    {
        self.passed.push_reserved(Passed::Sent { bytes, mark });
    }

    /// Keeps a reply that was received. Takes no memory.
    pub fn received(&mut self, bytes: Vec<u8>)
        requires room { HasRoom self.old }
        ensures { recorded self.new ≡ recorded self.old ++ Received bytes.items ∷ [] }
    {
        self.passed.push_reserved(Passed::Received(bytes));
    }

    /// What passed, in order.
    pub fn as_slice(&self) -> &[Passed]
        ensures { events_of result.now ≡ recorded self.now }
    {
        self.passed.as_slice()
    }
}
