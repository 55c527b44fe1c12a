ghost use Rattle.std.specs.Prelude.{◌≡◌, ◌≤◌, [], ◌∷◌, ◌++◌, vec_capacity, IfOk, OnErr, OnOk, option_map};
ghost use Rattle.vault_link.specs.Recorded.{exchanges_of};

use crate::VaultExchange;
use std::alloc::{AllocError, Global};

/// All exchanges of a link, in order.
#[derive(Drop)]
pub struct Transcript {
    alloc: Global,
    exchanges: Vec<VaultExchange>,
}

impl Transcript {
    ghost use Rattle.vault_link.specs.Recorded.{recorded, HasRoom};

    /// No exchange. Takes no memory.
    pub fn new(alloc: Global) -> Transcript
        ensures { recorded result ≡ [] }
    {
        Transcript {
            alloc,
            exchanges: Vec::new(alloc),
        }
    }

    /// A copy of the frame, and the memory for a reply of at most so many bytes and to keep both.
    pub fn make_room(&mut self, frame: &[u8], most: usize) -> Result<(Vec<u8>, Vec<u8>), AllocError>
        ensures frame { IfOk result (λ both. both.0.items ≡ frame.now) }
        ensures reply { IfOk result (λ both. (both.1.items ≡ []) × (most ≤ vec_capacity both.1)) }
        ensures room { OnOk result (HasRoom self.new) }
        ensures same { recorded self.new ≡ recorded self.old }
    {
        let frame = Vec::from_slice(self.alloc, frame)?;
        let reply = Vec::with_capacity(self.alloc, most)?;
        self.exchanges.reserve(1)?;
        Ok((frame, reply))
    }

    /// Keeps an exchange. Takes no memory.
    pub fn keep(&mut self, frame: Vec<u8>, reply: Option<Vec<u8>>)
        requires room { HasRoom self.old }
        ensures { recorded self.new ≡ recorded self.old ++ record { frame = frame.items; reply = option_map (λ bytes. bytes.items) reply } ∷ [] }
    {
        self.exchanges.push_reserved(VaultExchange { frame, reply });
    }

    /// Keeps a frame and the reply to it, which both are copied.
    pub fn push(&mut self, frame: &[u8], reply: Option<&[u8]>) -> Result<(), AllocError>
        ensures ok { OnOk result (recorded self.new ≡ recorded self.old ++ record { frame = frame.now; reply = option_map (λ bytes. bytes.now) reply.entry } ∷ []) }
        ensures err { OnErr result (recorded self.new ≡ recorded self.old) }
    {
        let frame = Vec::from_slice(self.alloc, frame)?;
        let reply = match reply {
            Some(bytes) => Some(Vec::from_slice(self.alloc, bytes)?),
            None => None,
        };
        self.exchanges.reserve(1)?;
        self.keep(frame, reply);
        Ok(())
    }

    /// The exchanges, in order.
    pub fn as_slice(&self) -> &[VaultExchange]
        ensures { exchanges_of result.now ≡ recorded self.now }
    {
        self.exchanges.as_slice()
    }
}
