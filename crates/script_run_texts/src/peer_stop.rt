ghost use Rattle.std.specs.Prelude.{◌≡◌, ◌≤◌, take};

use std::alloc::{AllocError, AllocFailed};
use std::marker::Model;

/// What ends a run in the exchange with the server.
#[derive(Drop)]
pub enum PeerStop {
    /// The link failed, or the server's disk did.
    Link,
    /// There is no memory, here or at the server.
    Memory,
    /// The server reported a collision.
    Clash { what: u8, place: u32 },
    /// The server expects update frame `got`, and not one from `low` to `high`, which are those that the client has.
    Elsewhere { low: u32, high: u32, got: u32 },
    /// The reply isn't one that is expected.
    BadReply(ReplyStart),
}

/// The first bytes of a reply, at most 16, its length bytes included.
#[derive(Drop)]
pub struct ReplyStart {
    bytes: [u8; 16],
    len: usize,
}

impl Model for ReplyStart {
    ghost use Rattle.std.specs.Prelude.{◌≤◌, ℕ, List, take};

    ghost Value = { List ℕ };

    ghost view = { λ s. take s.len s.bytes };

    ghost invariant = { λ s. s.len ≤ 16 };
}

impl ReplyStart {
    /// The first 16 of these bytes, or all where there are fewer.
    pub fn of(reply: &[u8]) -> ReplyStart
        ensures { result ≡ take 16 reply.now }
    {
        let len = reply.len().min(16);
        let mut bytes = [0; 16];
        bytes[..len].copy_from_slice(&reply[..len]);
        ReplyStart { bytes, len }
    }

    /// The bytes kept.
    pub fn as_slice(&self) -> &[u8]
        ensures { result.now ≡ self.now }
    {
        &self.bytes[..self.len]
    }
}

impl From<AllocError> for PeerStop {
    ghost use Rattle.script_run_texts.specs.declared.peer_stop.PeerStop.TheVariants.{Memory};

    ghost from_gives = { λ _ stop. stop ≡ Memory };

    fn from(_e: AllocError) -> PeerStop {
        PeerStop::Memory
    }
}

impl<T: Drop> From<AllocFailed<T>> for PeerStop {
    ghost use Rattle.script_run_texts.specs.declared.peer_stop.PeerStop.TheVariants.{Memory};

    ghost from_gives = { λ _ stop. stop ≡ Memory };

    fn from(_e: AllocFailed<T>) -> PeerStop {
        PeerStop::Memory
    }
}
