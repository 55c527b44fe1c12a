ghost use Rattle.std.specs.Prelude.{◌≡◌, ◌≢◌, ◌↔◌, ◌++◌, ◌∷◌, [], true, IsTrue, IfErr, IfOk, OnErr, OnOk};
ghost use Rattle.std.specs.Option.{option_map};
ghost use Rattle.def_link_events.specs.Events.{Received};
ghost use Rattle.script_run_texts.specs.Causes.{PeerCause};
ghost use Rattle.script_run_texts.specs.Stops.{peer_cause};
ghost use Rattle.sse_client.specs.Progress.{IsOutside};
ghost use Rattle.sse_frames.specs.Replies.{StoreFault, reply_bytes};
ghost use Rattle.sse_link.specs.Due.{IsOpenPage};
ghost use Rattle.sse_outside.specs.Causes.{Rose};

use crate::peer_fault::stop_of_link;
use script_run_texts::PeerStop;
use sse_frames::REPLY_ROOM;
use sse_link::Link;
use std::alloc::{AllocError, Global};
use std::marker::Model;

/// Memory for one reply of any length, and the reply received last, which is what contracts see.
#[derive(Drop)]
pub(crate) struct ReplyBuffer {
    bytes: Vec<u8>,
    size: usize,
}

impl Model for ReplyBuffer {
    ghost use Rattle.std.specs.Prelude.{◌≤◌, ℕ, List, length, take};

    ghost Value = { List ℕ };

    ghost view = { λ b. take b.size b.bytes.items };

    ghost invariant = { λ b. (65544 ≤ length b.bytes.items) × (b.size ≤ 65544) };
}

impl ReplyBuffer {
    /// A buffer into which nothing was received.
    pub(crate) fn new(alloc: Global) -> Result<ReplyBuffer, AllocError>
        ensures { IfOk result (λ received. received ≡ []) }
    {
        Ok(ReplyBuffer {
            bytes: vec![in alloc; 0; REPLY_ROOM]?,
            size: 0,
        })
    }

    /// Receives the next reply that is due.
    pub(crate) fn receive<L: Link>(&mut self, link: &mut L) -> Result<(), PeerStop>
        requires { L.reply_due link.old ≡ true }
        ensures due { OnOk result (IsTrue (L.reply_due link.new) ↔ IsOpenPage self.new) }
        ensures told { OnOk result (L.transcript link.new ≡ option_map (λ events. events ++ Received self.new ∷ []) (L.transcript link.old)) }
        ensures store_fault { OnOk result (self.new ≡ reply_bytes StoreFault → Rose (L.faults link.old) (L.faults link.new)) }
        ensures steady { OnOk result (self.new ≢ reply_bytes StoreFault → L.faults link.new ≡ L.faults link.old) }
        ensures cause { IfErr result (PeerCause (L.faults link.old) (L.faults link.new)) }
        ensures outside { IfErr result (λ stop. IsOutside (peer_cause stop)) }
        ensures untold { OnErr result (L.transcript link.new ≡ L.transcript link.old) }
        ensures began { L.began link.new ≡ L.began link.old }
    {
        match link.recv(self.bytes.as_mut_slice()) {
            Ok(size) => {
                self.size = size;
                Ok(())
            }
            Err(fault) => Err(stop_of_link(fault)),
        }
    }

    /// The reply received last.
    pub(crate) fn reply(&self) -> &[u8]
        ensures { result.now ≡ self.now }
    {
        &self.bytes[..self.size]
    }
}
